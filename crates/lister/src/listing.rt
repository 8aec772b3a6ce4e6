// The copied tree and the sets given so far.
ghost use Rattle.std.specs.Prelude.{◌≡◌, ◌<◌, IfSome};
ghost use Rattle.std.specs.List.{slice_get};
ghost use Rattle.tree.specs.Sets.{alone as one_line, lines_of};
ghost use Rattle.cut_sets.specs.WaitingRule.{some_within, adding};
ghost use Rattle.lister.specs.Listings.{rows_of, KeepsWeight, with_found, with_lines};

use crate::waiting::Waiting;
use arrayvec::ArrayVec;
use cut_sets::way::Way;
use ranking::order::Ranking;
use ranking::weight::add_part;
use tree::line::{Line, Row};
use tree::line_set::{Lines, alone, has, is_within};

// A line with its name, and what it is charged in cents, if it is a part.
#[derive(Clone, Copy, Default)]
pub struct ChargedRow {
    pub row: Row,
    pub charge: u64,
}

// The rows of the tree as a load found it, and the sets given since, in their order.
#[derive(Default, Drop)]
pub struct Listing {
    pub rows: ArrayVec<ChargedRow, 64>,
    pub given: ArrayVec<u64, 256>,
}

impl Listing {
    // Whether the chosen parts contain a whole set already given.
    pub fn contains_given(&self, chosen: u64) -> bool
        ensures tells_whole_sets { result ≡ some_within self.now.given.items chosen }
    {
        self.given.iter().any(|set| is_within(*set, chosen))
    }

    // Line i of the tree, or none from the count on.
    pub fn row(&self, i: usize) -> Option<ChargedRow>
        ensures is_row { result ≡ slice_get self.now.rows.items i }
        ensures has_no_row_past_a_word { IfSome result (λ _. i < 64) }
    {
        self.rows.get(i).copied()
    }

    // The way with line i added: a gate as open; a part as chosen, and its weight joined if it is new.
    #[tactic(auto, using(crate::proofs::Adding::row_none, crate::proofs::Adding::row_gate, crate::proofs::Adding::row_part, crate::proofs::Adding::row_chosen, crate::proofs::Adding::row_weighed))]
    fn add_line<R: Ranking>(&self, waiting: Waiting<R::Weight>, i: usize) -> Waiting<R::Weight>
        ensures value { result ≡ with_found R.Ranking.model waiting i (slice_get self.now.rows.items i) }
        ensures adds { result.way ≡ adding (rows_of self.now.rows.items) waiting.way (one_line i) }
        ensures keeps_weight { KeepsWeight R.Ranking.model self.now.rows.items waiting result }
    {
        let Some(row) = self.row(i) else {
            return waiting;
        };
        let way = waiting.way;
        match row.row.line {
            Line::Gate(_) => Waiting {
                way: Way {
                    gates: way.gates | alone(i),
                    ..way
                },
                ..waiting
            },
            Line::Part(_) if has(way.chosen, i) => waiting,
            Line::Part(part) => Waiting {
                way: Way {
                    chosen: way.chosen | alone(i),
                    ..way
                },
                weight: add_part::<R>(waiting.weight, part, row.charge),
            },
        }
    }

    // The way with the lines of a choice added: the parts as chosen, the gates as open. The weights of parts that are new
    // are joined.
    #[tactic(auto, using(crate::proofs::Adding::adding_lines))]
    pub fn add_choice<R: Ranking>(
        &self,
        waiting: Waiting<R::Weight>,
        choice: u64,
    ) -> Waiting<R::Weight>
        ensures adds_its_lines_from_the_lowest_on { result ≡ with_lines R.Ranking.model self.now.rows.items waiting (lines_of choice) }
        ensures adds_the_choice { result.way ≡ adding (rows_of self.now.rows.items) waiting.way choice }
        ensures carries_the_weight { KeepsWeight R.Ranking.model self.now.rows.items waiting result }
    {
        let mut added = waiting;
        for i in Lines::of(choice) {
            added = self.add_line::<R>(added, i);
        }
        added
    }
}

#[cfg(test)]
mod tests {
    use super::*;
    use ranking::pairs::ByPrice;
    use tree::line::{Gate, Name, Part};

    fn a_row(line: Line, charge: u64) -> ChargedRow {
        let row = Row {
            line,
            name: Name::default(),
        };
        ChargedRow { row, charge }
    }

    fn a_part(rarity: u32, charge: u64) -> ChargedRow {
        let part = Part {
            rarity,
            class: 0,
            discount: 0,
            price: 0,
        };
        a_row(Line::Part(part), charge)
    }

    // Parts 0 and 1, and gate 2.
    fn a_listing() -> Listing {
        let mut listing = Listing::default();
        listing.rows.push(a_part(300, 5));
        listing.rows.push(a_part(20, 7));
        listing.rows.push(a_row(Line::Gate(Gate::NEVER), 0));
        listing.given.push(0b10);
        listing
    }

    #[test]
    fn a_choice_is_added(rt: HostRuntime) {
        let listing = a_listing();
        let way = Way {
            chosen: 0b001,
            gates: 0b100,
        };
        let first = Waiting {
            way,
            weight: (5, 300),
        };
        let (gate, closed) = first.close_highest().unwrap();
        assert_eq!(rt; gate, 2);
        let next = listing.add_choice::<ByPrice>(closed, 0b111);
        assert_eq!(rt; next.way.chosen, 0b011);
        assert_eq!(rt; next.way.gates, 0b100);
        assert_eq!(rt; next.weight, (12, 320));
        assert!(rt;
            listing.contains_given(next.way.chosen) && !listing.contains_given(first.way.chosen)
        );
    }
}
