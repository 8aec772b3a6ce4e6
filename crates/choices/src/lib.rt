// How many sets of exactly q of m lines there are.
#![tactic(auto)]

ghost use Rattle.std.specs.Prelude.{◌≡◌, ◌<◌, ◌&&◌, ◌⊎◌, if◌then◌else◌, Some, None, MatchOption, nat_le};
ghost use Rattle.choices.specs.Counts.{binom, Pascal, ChoicesLaw, NumberOfChoices};

// Row m, column q: how many choices of q of m lines, from 0 to 12 each.
const COUNTS: [[u16; 13]; 13] = [
    [1, 0, 0, 0, 0, 0, 0, 0, 0, 0, 0, 0, 0],
    [1, 1, 0, 0, 0, 0, 0, 0, 0, 0, 0, 0, 0],
    [1, 2, 1, 0, 0, 0, 0, 0, 0, 0, 0, 0, 0],
    [1, 3, 3, 1, 0, 0, 0, 0, 0, 0, 0, 0, 0],
    [1, 4, 6, 4, 1, 0, 0, 0, 0, 0, 0, 0, 0],
    [1, 5, 10, 10, 5, 1, 0, 0, 0, 0, 0, 0, 0],
    [1, 6, 15, 20, 15, 6, 1, 0, 0, 0, 0, 0, 0],
    [1, 7, 21, 35, 35, 21, 7, 1, 0, 0, 0, 0, 0],
    [1, 8, 28, 56, 70, 56, 28, 8, 1, 0, 0, 0, 0],
    [1, 9, 36, 84, 126, 126, 84, 36, 9, 1, 0, 0, 0],
    [1, 10, 45, 120, 210, 252, 210, 120, 45, 10, 1, 0, 0],
    [1, 11, 55, 165, 330, 462, 462, 330, 165, 55, 11, 1, 0],
    [1, 12, 66, 220, 495, 792, 924, 792, 495, 220, 66, 12, 1],
];

// How many sets of exactly q of m lines there are, where neither is above 12.
#[tactic(auto, using(crate::proofs::Table::table_keeps, crate::proofs::Table::entry_is, crate::proofs::Choosing::number, std::proofs::lemmas::Grind::common_steps, crate::proofs::Table::no_choice))]
pub fn count(m: usize, q: usize) -> Option<u32>
    ensures is_by_pascals_rule { result ≡ (if nat_le m 12 && nat_le q 12 then Some (binom m q) else None) }
    ensures table_keeps_pascals_rule { Pascal COUNTS }
    ensures counts_the_choices { MatchOption result ((12 < m) ⊎ (12 < q)) (λ k. NumberOfChoices m q k) }
    ensures choices_are_the_subsets { ChoicesLaw }
    ensures no_choice_of_more_than_all { m < q → binom m q ≡ 0 }
{
    COUNTS.get(m)?.get(q).copied().map(u32::from)
}
