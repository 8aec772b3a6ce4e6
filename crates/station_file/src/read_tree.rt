// The tree that a station file says.
ghost use Rattle.std.specs.Prelude.{◌≡◌, true};
ghost use Rattle.tree.specs.Rules.{keeps_rules};

use arrayvec::ArrayVec;
use tree::line::Row;

mod answers;
mod filling;

// Every read tree keeps the rules of tree lines: no other can be made.
#[derive(Drop)]
pub struct ReadTree {
    rows: ArrayVec<Row, 64>,
    ghost ruled: { keeps_rules rows.items ≡ true },
}
