// Kinds of station tree.
use kinds::fixing::{Fixing, State};
use kinds::lantern::{Design, Lantern};
use station_file::read_tree::ReadTree;
use station_file::reader::read;
use std::io;
use tree::line::Part;
use tree::station_tree::Tree;
use tree_text::{LineText, NameText};

pub const LAMP: Part = Part {
    rarity: 2000,
    class: 3,
    discount: 100,
    price: 12500,
};

const STATION: &[u8] =
    b"LAMP-1\tE\t2000\t3\t100\t12500\nLAMP-2\tE\t2000\t3\t0\t9000\nMAINS\tE\t1200\t1\t0\t0\nDARK\tV\t2\tLAMP-1\tLAMP-2\tMAINS\n";

const THREE_LAMPS: Design = Design {
    tiers: 1,
    lamps: 3,
    lamp_need: 2,
    tier_need: 1,
    part: LAMP,
};

// Asks a tree for every line, and for one past the last.
fn tell<T: Tree>(rt: &HostRuntime, tree: &T) -> io::Result<()> {
    let count = tree.count();
    println!(rt; "  count: {count}")?;
    for i in 0..=count {
        match (tree.name(i), tree.line(i)) {
            (Some(name), Some(line)) => {
                println!(rt; "  line {i}: {}, {}", NameText(name), LineText(line))?
            }
            _ => println!(rt; "  line {i}: none")?,
        }
    }
    Ok(())
}

fn fixed<T: Tree>(
    rt: &HostRuntime,
    tree: &mut Fixing<T>,
    line: usize,
    state: State,
) -> io::Result<()> {
    match tree.fix(line, state) {
        Ok(()) => println!(rt; "fix line {line} as {state}: done"),
        Err(fault) => println!(rt; "fix line {line} as {state}: {fault}"),
    }
}

fn lit(rt: &HostRuntime, tiers: u32, lamps: u32, lamp_need: u32) -> io::Result<()> {
    match Lantern::new(tiers, lamps, lamp_need, 1, LAMP) {
        Ok(_) => println!(rt; "lantern of {tiers} tiers of {lamps} lamps, needs {lamp_need}: made"),
        Err(fault) => {
            println!(rt; "lantern of {tiers} tiers of {lamps} lamps, needs {lamp_need}: {fault}")
        }
    }
}

pub fn light_lantern(rt: &HostRuntime) -> anyhow::Result<()> {
    lit(rt, 7, 8, 1)?;
    lit(rt, 8, 7, 1)?;
    lit(rt, 1, 2, 3)?;
    let lantern = Lantern::new(2, 3, 2, 1, LAMP)?;
    let top = lantern.top();
    println!(rt; "lantern of 2 tiers of 3 lamps, needs 2 lamps and 1 tier: made, top {top}")?;
    tell(rt, &lantern)?;
    Ok(())
}

pub fn fix_lamps(rt: &HostRuntime) -> anyhow::Result<()> {
    let lantern = Lantern::try_from(THREE_LAMPS)?;
    println!(rt; "fixing over a lantern of 1 tier of 3 lamps")?;
    let mut ashore = Fixing::new(&lantern);
    fixed(rt, &mut ashore, 0, State::Failed)?;
    fixed(rt, &mut ashore, 0, State::Sound)?;
    fixed(rt, &mut ashore, 3, State::Failed)?;
    fixed(rt, &mut ashore, 9, State::Failed)?;
    tell(rt, &ashore)?;
    println!(rt; "fixing over that fixing")?;
    let mut spared = Fixing::new(ashore);
    fixed(rt, &mut spared, 0, State::Failed)?;
    fixed(rt, &mut spared, 1, State::Sound)?;
    tell(rt, &spared)?;
    Ok(())
}

pub fn read_station(rt: &HostRuntime) -> io::Result<()> {
    let mut tree = ReadTree::new();
    println!(rt; "a read tree before any file")?;
    tell(rt, &tree)?;
    if read(STATION, &mut tree).is_ok() {
        println!(rt; "read a station file: done")?;
    }
    if read(b"LAMP-1\tE\t2000\n", &mut tree).is_err() {
        println!(rt; "read a file that is cut short: refused, the tree stays")?;
    }
    tell(rt, &tree)
}
