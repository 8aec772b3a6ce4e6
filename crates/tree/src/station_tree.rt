// What every kind of station tree answers.
ghost use Rattle.std.specs.Prelude.{◌≡◌, true, List, length};
ghost use Rattle.tree.specs.declared.line.Row.{Row};
ghost use Rattle.tree.specs.Holding.{top, HoldingLaws};
ghost use Rattle.tree.specs.Lines.{line_at, name_at};
ghost use Rattle.tree.specs.Rules.{keeps_rules};

use crate::line::{Line, Name};

// A tree means its lines with their names, from line 0 on. The top is the last line.
pub trait Tree {
    ghost meaning: { Self → List Row };

    // How many lines there are.
    fn count(&self) -> usize
        ensures counts_lines { result ≡ length (meaning self.now) };

    // Line i, or none from the count on.
    fn line(&self, i: usize) -> Option<Line>
        ensures is_line_of_meaning { result ≡ line_at (meaning self.now) i };

    // The name of line i, or none from the count on.
    fn name(&self, i: usize) -> Option<Name>
        ensures is_name_of_meaning { result ≡ name_at (meaning self.now) i };

    ghost ruled: { (t : Self) → keeps_rules (meaning t) ≡ true };
}

// The number of the top: the light is out when that line holds.
#[tactic(auto, using(crate::proofs::Holding::holding_laws))]
pub fn top_of<T: Tree>(tree: &T) -> usize
    ensures is_last_line { result ≡ top (T.Tree.meaning tree.now) }
    ensures lines_hold_by_their_laws { HoldingLaws (T.Tree.meaning tree.now) }
{
    tree.count().saturating_sub(1)
}
