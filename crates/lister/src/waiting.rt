// Ways that wait, and their order.
ghost use Rattle.std.specs.Prelude.{◌≡◌, MatchOption};
ghost use Rattle.tree.specs.Sets.{Highest};
ghost use Rattle.orders.specs.Orders.{lex};
ghost use Rattle.cut_sets.specs.Ways.{open_first, lowest_chosen, lowest_gate, size_then_lines};
ghost use Rattle.cut_sets.specs.WaitingRule.{closing};
ghost use Rattle.lister.specs.Waiting.{waiting_le, OrdersWaiting, InsertsWays};
ghost use Rattle.lister.specs.WaitingLemmas.{waiting_total};

use cut_sets::way::Way;
use orders::{Order, lexicographic};
use ranking::order::Ranking;
use std::marker::PhantomData;
use tree::line_set::{alone, comes_first, highest, size};

// A way with the weight of its chosen parts.
#[derive(Clone, Copy, PartialEq, Eq)]
pub struct Waiting<W: Copy> {
    pub way: Way,
    pub weight: W,
}

impl<W: Copy> Waiting<W> {
    // The highest open gate, if a gate is open, and the way without it.
    #[tactic(auto, using(crate::proofs::Weighed::closed_gate))]
    pub fn close_highest(self) -> Option<(usize, Waiting<W>)>
        ensures closes_the_highest_open_gate { MatchOption result (self.way.gates ≡ 0)
            (λ closed. Highest self.way.gates closed.0 × (closed.1 ≡ record { way = closing self.way closed.0; weight = self.weight })) }
    {
        let gate = highest(self.way.gates)?;
        let gates = self.way.gates ^ alone(gate);
        let way = Way { gates, ..self.way };
        Some((gate, Waiting { way, ..self }))
    }
}

// Whether a has the lowest line in which the chosen parts differ, or where they are the same, the open gates; or a is b.
fn lower(a: Way, b: Way) -> bool
    ensures { result ≡ lex lowest_chosen lowest_gate a b }
{
    lexicographic(
        a,
        b,
        |x, y| comes_first(x.chosen, y.chosen),
        |x, y| comes_first(x.gates, y.gates),
    )
}

// Whether a has an open gate, or neither has one.
fn open_first(a: Way, b: Way) -> bool
    ensures { result ≡ open_first a b }
{
    a.gates != 0 || b.gates == 0
}

// Whether of two ways of one weight a comes before b or is the same.
fn smaller(a: Way, b: Way) -> bool
    ensures { result ≡ size_then_lines a b }
{
    lexicographic(
        a,
        b,
        |x, y| size(x.chosen) <= size(y.chosen),
        |x, y| lexicographic(x, y, open_first, lower),
    )
}

// The order in which ways wait under a ranking.
pub struct Earlier<R: Ranking> {
    ranking: PhantomData<R>,
}

impl<R: Ranking> Order for Earlier<R> {
    type Item = Waiting<R::Weight>;

    ghost le = { waiting_le R.Ranking.model.le };

    ghost total = { waiting_total R.Ranking.model.le R.Ranking.lawful.order };

    #[tactic(auto, using(crate::proofs::Weighed::inserts_ways))]
    fn at_most(a: Waiting<R::Weight>, b: Waiting<R::Weight>) -> bool
        ensures is_order { result ≡ waiting_le R.Ranking.model.le a b }
        ensures orders_ways { OrdersWaiting R.Ranking.model a b result }
        ensures inserts_ways_by_the_rule { InsertsWays R.Ranking.model }
    {
        lexicographic(
            a,
            b,
            |x, y| R::at_most(x.weight, y.weight),
            |x, y| smaller(x.way, y.way),
        )
    }
}

#[cfg(test)]
mod tests {
    use super::*;
    use pairing_heap::heap::Heap;
    use pairing_heap::node::Node;
    use ranking::pairs::ByPrice;

    fn a_way(chosen: u64, gates: u64) -> Waiting<(u64, u64)> {
        let way = Way { chosen, gates };
        Waiting {
            way,
            weight: (5, 300),
        }
    }

    // Of one weight and size: first the way with an open gate, then the one that has the lowest chosen part.
    #[test]
    fn ways_wait_in_order(rt: HostRuntime) {
        let open = a_way(0b10, 0b100);
        let done = a_way(0b01, 0);
        let later = a_way(0b10, 0);
        let mut nodes = [Node::new(open); 3];
        let mut heap = Heap::begin::<Earlier<ByPrice>>(&mut nodes, 3);
        assert!(rt; heap.push::<Earlier<ByPrice>>(&mut nodes, later).is_ok());
        assert!(rt; heap.push::<Earlier<ByPrice>>(&mut nodes, open).is_ok());
        assert!(rt; heap.push::<Earlier<ByPrice>>(&mut nodes, done).is_ok());
        assert!(rt; heap.pop::<Earlier<ByPrice>>(&mut nodes) == Some(open));
        assert!(rt; heap.pop::<Earlier<ByPrice>>(&mut nodes) == Some(done));
        assert!(rt; heap.pop::<Earlier<ByPrice>>(&mut nodes) == Some(later));
    }
}
