// A set of lines is a 64-bit word: bit i stands for line i. A word has no bit for a line from the 64th on. By a rule of the
// project sets are plain words, and these are functions over them and no methods of a type.
ghost use Rattle.std.specs.Prelude.{◌≡◌, ℕ, ◌&&◌, ◌||◌, ◌≢◌, MatchOption, ◌==◌, bit_or, count_ones, nat_lt};
ghost use Rattle.std.specs.Iterator.{YieldsFirst, item_count};
ghost use Rattle.orders.specs.Orders.{Total};
ghost use Rattle.tree.specs.Sets.{has as has_line, alone, ◌⊆◌, within, Counts, Tells, Highest, set_le, ComesFirst, lines_of, ListsLines};

use std::marker::Model;

// Whether the set has line i.
#[tactic(auto, using(crate::proofs::Words::has_word, crate::proofs::Words::none_past))]
pub fn has(set: u64, i: usize) -> bool
    ensures tells_members { result ≡ has_line set i }
{
    i < 64 && (set >> i) & 1 == 1
}

// The set of line i alone; empty where no word has that line.
#[tactic(auto, using(crate::proofs::Words::alone_word, crate::proofs::Words::alone_past))]
pub fn alone(i: usize) -> u64
    ensures is_one_line { result ≡ alone i }
    ensures has_that_line_only { (j : ℕ) → has_line result j ≡ (j == i && nat_lt i 64) }
{
    if i < 64 { 1 << i } else { 0 }
}

// How many lines the set has.
#[tactic(auto, using(crate::proofs::Words::ones_count))]
pub fn size(set: u64) -> u32
    ensures is_the_count { result ≡ count_ones set }
    ensures counts_each_line_once { Counts count_ones }
{
    set.count_ones()
}

// The lines of both sets.
#[tactic(auto, using(crate::proofs::Sets::has_or))]
pub fn union(a: u64, b: u64) -> u64
    ensures is_the_union { result ≡ bit_or a b }
    ensures has_the_lines_of_both { (i : ℕ) → has_line result i ≡ (has_line a i || has_line b i) }
{
    a | b
}

// Whether every line of a is in b.
#[tactic(auto, using(crate::proofs::Words::within_test, crate::proofs::Words::within_tells))]
pub fn is_within(a: u64, b: u64) -> bool
    ensures is_the_test { result ≡ within a b }
    ensures tells_containment { Tells result (a ⊆ b) }
{
    a & !b == 0
}

// The highest line of a set that has one. (`as` here and below: std has no From between u32 and usize.)
fn top_line(set: u64) -> usize
    requires { set ≢ 0 }
    ensures { Highest set result }
{
    63 - set.leading_zeros() as usize
}

// The highest line of the set, if it has one.
pub fn highest(set: u64) -> Option<usize>
    ensures is_the_highest_line { MatchOption result (set ≡ 0) (λ g. Highest set g) }
{
    (set != 0).then(|| top_line(set))
}

// Whether a is b or has the lowest line in which the two differ: by it the order of sets goes.
#[tactic(auto, using(crate::proofs::Lowest::same_first, crate::proofs::Lowest::lowest_apart, crate::proofs::Lowest::le_decides, crate::proofs::Lowest::set_order))]
pub fn comes_first(a: u64, b: u64) -> bool
    ensures is_the_order { result ≡ set_le a b }
    ensures by_the_lowest_line { ComesFirst a b result }
    ensures total_order { Total set_le }
{
    a == b || has(a, (a ^ b).trailing_zeros() as usize)
}

// The lines of a set, from the lowest on. In clauses, the list of those that are left.
#[derive(Drop)]
pub struct Lines {
    rest: u64,
}

impl Model for Lines {
    ghost use Rattle.std.specs.Prelude.{ℕ, List};
    ghost use Rattle.tree.specs.Sets.{lines_of};

    ghost Value = { List ℕ };

    ghost view = { λ lines. lines_of lines.rest };
}

impl Iterator for Lines {
    type Item = usize;

    ghost next_gives = { YieldsFirst (λ left. left) };

    ghost remaining = { item_count (λ left. left) };

    #[tactic(auto, using(crate::proofs::Members::no_line, crate::proofs::Members::first_line))]
    fn next(&mut self) -> Option<usize> {
        if self.rest == 0 {
            return None;
        }
        let line = self.rest.trailing_zeros() as usize;
        self.rest ^= alone(line);
        Some(line)
    }
}

impl Lines {
    #[tactic(auto, using(crate::proofs::Members::lists_lines))]
    pub fn of(set: u64) -> Lines
        ensures are_the_lines_of_the_set { result ≡ lines_of set }
        ensures lists_each_line_once { ListsLines set result }
    {
        Lines { rest: set }
    }
}
