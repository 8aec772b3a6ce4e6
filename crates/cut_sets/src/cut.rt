// Which lines of a tree hold, and whether a set is a minimal cut set.
// A tree and a set of its lines stay two arguments: a tree is asked about many sets, so a struct of both would only be made
// for each call and taken apart in it.
ghost use Rattle.std.specs.Prelude.{◌≡◌, ℕ, ◌≤◌, Bool};
ghost use Rattle.tree.specs.Holding.{the_line, told, line_holds, holding, HoldingLaws};
ghost use Rattle.tree.specs.Sets.{Tells};
ghost use Rattle.cut_sets.specs.Cuts.{parts, CutSet, Minimal, Spares, GatesHoldByChoice};

use tree::line::Line;
use tree::line_set::{alone, has, is_within, size};
use tree::station_tree::{Tree, top_of};

// Line i; past the last line, a gate that never holds.
#[tactic(auto, using(crate::proofs::Cuts::line_known))]
pub(crate) fn line_of<T: Tree>(tree: &T, i: usize) -> Line
    ensures { result ≡ the_line (T.Tree.meaning tree.now) i }
{
    tree.line(i).unwrap_or_default()
}

// Whether line i holds, by the lines below it that hold.
fn holds_by<T: Tree>(tree: &T, failed: u64, i: usize, below: u64) -> bool
    ensures { result ≡ line_holds (T.Tree.meaning tree.now) failed i below }
{
    match line_of(tree, i) {
        Line::Part(_) => has(failed, i),
        Line::Gate(gate) => u32::from(gate.need) <= size(gate.children & below),
    }
}

// The set of the lines that the test tells, from below: it sees which lines below are in the set.
#[tactic(auto, using(crate::proofs::Cuts::line_told))]
fn told<F: Fn(usize, u64) -> bool>(count: usize, test: F) -> u64
    requires in_a_word { count ≤ 64 }
    requires callable { F.IsAlwaysCallable test }
    ensures { (f : ℕ → ℕ → Bool) → ((i below : ℕ) (r : Bool) → F.post test i below r → r ≡ f i below) → result ≡ told f count }
{
    let mut set = 0;
    // By number: the test is asked of each line, with the set so far.
    for i in 0..count {
        if test(i, set) {
            set |= alone(i);
        }
    }
    set
}

// The lines that hold when the parts of a set have failed.
#[tactic(auto, using(crate::proofs::Cuts::lines_hold))]
pub fn lines_holding<T: Tree>(tree: &T, failed: u64) -> u64
    ensures are_the_lines_that_hold { result ≡ holding (T.Tree.meaning tree.now) failed }
    ensures lines_hold_by_their_laws { HoldingLaws (T.Tree.meaning tree.now) }
    ensures gates_hold_by_some_choice { GatesHoldByChoice (T.Tree.meaning tree.now) }
{
    told(tree.count(), |i, below| holds_by(tree, failed, i, below))
}

// The lines that are parts.
#[tactic(auto, using(crate::proofs::Cuts::parts_told, tree::proofs::Holding::few_lines))]
fn parts_of<T: Tree>(tree: &T) -> u64
    ensures { result ≡ parts (T.Tree.meaning tree.now) }
{
    told(tree.count(), |i, _below| line_of(tree, i).is_part())
}

// Whether the set is a cut set.
fn cuts<T: Tree>(tree: &T, set: u64) -> bool
    ensures { Tells result (CutSet (T.Tree.meaning tree.now) set) }
{
    is_within(set, parts_of(tree)) && has(lines_holding(tree, set), top_of(tree))
}

// Whether the set has line i, and is a cut set without it.
#[tactic(auto, using(crate::proofs::Cuts::alone_in))]
fn spares<T: Tree>(tree: &T, set: u64, i: usize) -> bool
    ensures { Tells result (Spares (T.Tree.meaning tree.now) set i) }
{
    has(set, i) && cuts(tree, set ^ alone(i))
}

// Whether the set is a cut set without some one of its lines; a word has 64 of them at most.
fn spares_one<T: Tree>(tree: &T, set: u64) -> bool
    ensures { Tells result ((i : ℕ) × Spares (T.Tree.meaning tree.now) set i) }
{
    (0..64).any(|i| spares(tree, set, i))
}

// Whether the set is a minimal cut set: it is if it spares no line, since more parts never make fewer lines hold.
#[tactic(auto, using(crate::proofs::Cuts::needed_told))]
pub fn is_minimal<T: Tree>(tree: &T, set: u64) -> bool
    ensures tells_minimal_cut_sets { Tells result (Minimal (T.Tree.meaning tree.now) set) }
{
    cuts(tree, set) && !spares_one(tree, set)
}
