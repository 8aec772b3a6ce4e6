// Goes through cut sets of a lantern and of a fixing of it, and through the heap in which a search will wait;
// prints each call with its answer.
#![tactic(auto)]

mod cuts;
mod heaps;

use crate::cuts::cut_lantern;
use crate::heaps::{push_and_pop, sort_numbers};

fn main(rt: HostRuntime) -> anyhow::Result<()> {
    cut_lantern(&rt)?;
    push_and_pop(&rt)?;
    sort_numbers(&rt)?;
    Ok(())
}
