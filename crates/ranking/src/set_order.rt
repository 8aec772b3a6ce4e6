// The order of sets: by weight, then fewer parts, then the set that has the lowest line in which the two differ.
ghost use Rattle.std.specs.Prelude.{◌≡◌};
ghost use Rattle.ranking.specs.SetOrder.{size_then_line, weighed_le, OrdersSets};

use crate::order::Ranking;
use orders::lexicographic;
use tree::line_set::{comes_first, size};

// A set of lines with its weight.
#[derive(Clone, Copy, PartialEq, Eq)]
pub struct Weighed<W: Copy> {
    pub set: u64,
    pub weight: W,
}

// Whether a has fewer lines than b, or as many and is b or has the lowest line in which the two differ.
fn smaller(a: u64, b: u64) -> bool
    ensures { result ≡ size_then_line a b }
{
    lexicographic(a, b, |x, y| size(x) <= size(y), comes_first)
}

// Whether a comes before b or is the same.
pub fn at_most<R: Ranking>(a: Weighed<R::Weight>, b: Weighed<R::Weight>) -> bool
    ensures is_order_of_weighed_sets { result ≡ weighed_le R.Ranking.model.le a b }
    ensures orders_sets { OrdersSets R.Ranking.model a b result }
{
    lexicographic(
        a,
        b,
        |x, y| R::at_most(x.weight, y.weight),
        |x, y| smaller(x.set, y.set),
    )
}
