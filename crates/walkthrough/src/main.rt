// Goes through the library on a lantern, on fixings of it and on a read station, and prints each call with its answer.
#![tactic(auto)]

mod trees;
mod weights;

use crate::trees::{fix_lamps, light_lantern, read_station};
use crate::weights::{charge_lamp, compare_sets, count_choices};

fn main(rt: HostRuntime) -> anyhow::Result<()> {
    light_lantern(&rt)?;
    fix_lamps(&rt)?;
    read_station(&rt)?;
    charge_lamp(&rt)?;
    compare_sets(&rt)?;
    count_choices(&rt)?;
    Ok(())
}
