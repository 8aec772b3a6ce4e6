// A tree over any station tree, some of whose parts are fixed as failed or as sound.
ghost use Rattle.std.specs.Prelude.{◌≡◌, ℕ, true, Ok, Some};
ghost use Rattle.std.specs.Result.{result_map_both};
ghost use Rattle.tree.specs.Lines.{line_at};
ghost use Rattle.tree.specs.Holding.{holding};
ghost use Rattle.kinds.specs.Faults.{told};
ghost use Rattle.kinds.specs.Fixings.{fixed_over, overlaid_line, fixed_rows, fix_answer, in_state, is_part, state_text};
ghost use Rattle.kinds.specs.Overlays.{overlaid_ruled};

use crate::faults::{FixingCause, TreeFault, TreeLayer};
use std::fmt;
use tree::line::{Gate, Line, Name};
use tree::line_set::{alone, has};
use tree::station_tree::Tree;

// How a part is fixed.
#[derive(Clone, Copy, Debug, PartialEq, Eq)]
pub enum State {
    Failed,
    Sound,
}

impl fmt::Display for State {
    ghost output = { λ state. Some (state_text state) };

    fn fmt<W: fmt::Write>(&self, f: &mut fmt::Formatter<W>) -> fmt::Result {
        f.write_str(match self {
            State::Failed => "failed",
            State::Sound => "sound",
        })
    }
}

// The lines fixed here, as sets, and the tree below.
#[derive(Drop)]
pub struct Fixing<T: Tree> {
    inner: T,
    failed: u64,
    sound: u64,
}

// A failed part is a childless gate that always holds, a sound one such a gate that never does.
impl<T: Tree> Tree for Fixing<T> {
    ghost meaning = { λ f. fixed_over T.Tree.meaning f };

    ghost ruled = { λ t. overlaid_ruled t.failed t.sound (T.Tree.meaning t.inner) (T.Tree.ruled t.inner) };

    #[tactic(auto, using(crate::proofs::Overlaid::overlaid_length))]
    fn count(&self) -> usize {
        self.inner.count()
    }

    #[tactic(auto, using(crate::proofs::Overlaid::overlaid_at))]
    fn line(&self, i: usize) -> Option<Line> {
        let line = self.inner.line(i)?;
        Some(self.standing(i, line))
    }

    #[tactic(auto, using(crate::proofs::Overlaid::overlaid_name))]
    fn name(&self, i: usize) -> Option<Name> {
        self.inner.name(i)
    }
}

impl<T: Tree> Fixing<T> {
    // Nothing is fixed at first.
    #[tactic(auto, using(crate::proofs::Overlaid::overlaid_none))]
    pub fn new(inner: T) -> Self
        ensures means_the_tree_below { fixed_over T.Tree.meaning result ≡ T.Tree.meaning inner }
    {
        Fixing {
            inner,
            failed: 0,
            sound: 0,
        }
    }

    // Fixes a line that is still a part here; refuses any other, and then changes nothing. From then on a line holds for
    // a set of failed parts as it held before for that set with the part in it, if it is fixed as failed, and without
    // it, if as sound.
    pub fn fix(&mut self, line: usize, state: State) -> Result<(), TreeFault>
        ensures refuses_all_but_parts { result_map_both (λ u. u) told result ≡ fix_answer (fixed_over T.Tree.meaning self.old) line }
        ensures fixes_that_part { fixed_over T.Tree.meaning self.new ≡ fixed_rows (fixed_over T.Tree.meaning self.old) line state }
        ensures changes_holding { result ≡ Ok tt → (s : ℕ) → holding (fixed_over T.Tree.meaning self.new) s ≡ holding (fixed_over T.Tree.meaning self.old) (in_state state line s) }
    {
        if !self.line(line).is_some_and(Line::is_part) {
            return Err(TreeLayer::Fixing(FixingCause::NotPart).into());
        }
        self.mark(line, state);
        Ok(())
    }

    // Takes a part into the set of its state.
    #[tactic(auto, using(crate::proofs::Fixes::after_failed, crate::proofs::Fixes::after_sound, crate::proofs::Held::fixed_holding))]
    fn mark(&mut self, line: usize, state: State)
        requires { is_part (line_at (fixed_over T.Tree.meaning self.old) line) ≡ true }
        ensures means { fixed_over T.Tree.meaning self.new ≡ fixed_rows (fixed_over T.Tree.meaning self.old) line state }
        ensures holds { (s : ℕ) → holding (fixed_over T.Tree.meaning self.new) s ≡ holding (fixed_over T.Tree.meaning self.old) (in_state state line s) }
    {
        match state {
            State::Failed => self.failed |= alone(line),
            State::Sound => self.sound |= alone(line),
        }
    }

    // What stands here for line i of the tree below.
    fn standing(&self, i: usize, line: Line) -> Line
        ensures { result ≡ overlaid_line self.now.failed self.now.sound i line }
    {
        if has(self.failed, i) {
            Line::Gate(Gate::ALWAYS)
        } else if has(self.sound, i) {
            Line::Gate(Gate::NEVER)
        } else {
            line
        }
    }
}

#[cfg(test)]
mod tests;
