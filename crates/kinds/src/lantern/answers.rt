// What a lantern answers as a station tree.
// Line and name are alike but in what they take of a row: a function of both would be longer.
ghost use Rattle.kinds.specs.LanternTrees.{rows_of};
ghost use Rattle.kinds.specs.LanternRows.{lantern_ruled};

use crate::lantern::Lantern;
use tree::line::{Line, Name};
use tree::station_tree::Tree;

impl Tree for Lantern {
    ghost meaning = { rows_of };

    ghost ruled = { λ l. lantern_ruled l.design.tiers l.design.lamps l.design.lamp_need l.design.tier_need l.design.part l.within };

    fn count(&self) -> usize {
        self.lines()
    }

    fn line(&self, i: usize) -> Option<Line> {
        Some(self.row(i)?.line)
    }

    fn name(&self, i: usize) -> Option<Name> {
        Some(self.row(i)?.name)
    }
}
