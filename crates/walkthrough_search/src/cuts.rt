// Cut sets of a lantern and of a fixing of it.
use cut_sets::cut::{is_minimal, lines_holding};
use cut_sets::search::first_way;
use kinds::fixing::{Fixing, State};
use kinds::lantern::Lantern;
use ranking::kinds::*;
use ranking::pairs::*;
use std::io;
use tree::line::Part;
use tree::station_tree::Tree;
use tree_text::SetText;

// The lamp of the other walkthrough: two programs share nothing but a library, where a sample has no place.
const LAMP: Part = Part {
    rarity: 2000,
    class: 3,
    discount: 100,
    price: 12500,
};

fn told<T: Tree>(rt: &HostRuntime, tree: &T, failed: u64) -> io::Result<()> {
    let set = SetText(failed);
    let held = SetText(lines_holding(tree, failed));
    let minimal = is_minimal(tree, failed);
    println!(rt; "  {set} failed: {held} hold, minimal cut set: {minimal}")
}

fn begun<T: Tree>(rt: &HostRuntime, tree: &T) -> io::Result<()> {
    let way = first_way::<T, ByPrice>(tree);
    let chosen = SetText(way.chosen);
    let gates = SetText(way.gates);
    println!(rt; "  the first way: chosen {chosen}, open {gates}")
}

pub fn cut_lantern(rt: &HostRuntime) -> anyhow::Result<()> {
    let lantern = Lantern::new(1, 3, 2, 1, LAMP)?;
    println!(rt; "cut sets of a lantern of 1 tier of 3 lamps, needs 2")?;
    begun(rt, &lantern)?;
    for failed in [0b001, 0b011, 0b110, 0b111, 0b1011] {
        told(rt, &lantern, failed)?;
    }
    let mut ashore = Fixing::new(&lantern);
    if ashore.fix(0, State::Failed).is_ok() {
        println!(rt; "with lamp 0 fixed as failed")?;
    }
    for failed in [0b010, 0b011, 0b110] {
        told(rt, &ashore, failed)?;
    }
    Ok(())
}
