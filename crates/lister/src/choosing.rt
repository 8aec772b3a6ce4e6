// The choices of exactly `need` of a gate's children, one after the other.
ghost use Rattle.std.specs.Prelude.{◌≡◌, ℕ, ◌<◌, ◌≤◌, ◌⊎◌, MatchOption, IfSome, length, slice_index, count_ones};
ghost use Rattle.std.specs.Iterator.{YieldsFirst, item_count};
ghost use Rattle.tree.specs.Sets.{Below};
ghost use Rattle.choices.specs.Counts.{binom, choices};
ghost use Rattle.lister.specs.WordChoices.{choices_in};

use choices::count;
use std::marker::Model;
use tree::line::Gate;
use tree::line_set::{alone, highest, size};

// How many choices of exactly `need` lines a set of at most twelve has.
fn number_of_choices(set: u64, need: usize) -> u32
    requires few_lines { count_ones set ≤ 12 }
    requires few_needed { need ≤ 12 }
    ensures { result ≡ binom (count_ones set) need }
{
    count(size(set) as usize, need).unwrap()
}

// The choice at a place of their list. As many choices leave the highest child out as there are of the other children; those come
// first, and the others have it.
fn choice_at(children: u64, need: usize, place: u32) -> u64
    requires few_children { count_ones children ≤ 12 }
    requires few_needed { need ≤ 12 }
    requires there { place < binom (count_ones children) need }
    ensures { result ≡ slice_index (choices_in children need) place }
{
    let mut rest = children;
    let mut need = need;
    let mut place = place;
    let mut chosen = 0;
    while let Some(child) = highest(rest) {
        let child_alone = alone(child);
        rest ^= child_alone;
        let without = number_of_choices(rest, need);
        if place >= without {
            place -= without;
            need -= 1;
            chosen |= child_alone;
        }
    }
    chosen
}

// The choices of a gate's children that are left; in clauses, their list.
#[derive(Drop)]
pub struct Choices {
    children: u64,
    need: usize,
    // how many are taken
    taken: u32,
}

impl Model for Choices {
    ghost use Rattle.std.specs.Prelude.{ℕ, ◌≤◌, List, drop, count_ones};
    ghost use Rattle.lister.specs.WordChoices.{choices_in};

    ghost Value = { List ℕ };

    ghost view = { λ c. drop c.taken (choices_in c.children c.need) };

    ghost invariant = { λ c. (count_ones c.children ≤ 12) × (c.need ≤ 12) };
}

impl Iterator for Choices {
    type Item = u64;

    ghost next_gives = { YieldsFirst (λ left. left) };

    ghost remaining = { item_count (λ left. left) };

    #[tactic(auto, using(crate::proofs::ListedChoices::none_left, crate::proofs::ListedChoices::next_left))]
    fn next(&mut self) -> Option<u64> {
        if self.taken >= number_of_choices(self.children, self.need) {
            return None;
        }
        let choice = choice_at(self.children, self.need, self.taken);
        self.taken += 1;
        Some(choice)
    }
}

// How many are left, without going over them.
impl ExactSizeIterator for Choices {
    #[tactic(auto, using(crate::proofs::ListedChoices::number_left))]
    fn len(&self) -> usize {
        number_of_choices(self.children, self.need).saturating_sub(self.taken) as usize
    }
}

impl Choices {
    // The choices of exactly `need` of the gate's children, in ascending order as words. Where there are more than twelve
    // children, or more than twelve are needed, they are not counted, and there is no answer.
    #[tactic(auto, using(crate::proofs::ListedChoices::choices_word, crate::proofs::ListedChoices::number_word))]
    pub fn of(gate: Gate) -> Option<Choices>
        ensures lists_the_choices { MatchOption result ((12 < count_ones gate.children) ⊎ (12 < gate.need))
            (λ left. (n : ℕ) → Below n gate.children → left ≡ choices gate.children n gate.need) }
        ensures goes_to_twelve { IfSome result (λ _. (count_ones gate.children ≤ 12) × (gate.need ≤ 12)) }
        ensures counts_the_choices { IfSome result (λ left. length left ≡ binom (count_ones gate.children) gate.need) }
    {
        let need = usize::from(gate.need);
        if size(gate.children) > 12 || need > 12 {
            return None;
        }
        Some(Choices {
            children: gate.children,
            need,
            taken: 0,
        })
    }
}

#[cfg(test)]
mod tests {
    use super::*;

    #[test]
    fn choices_in_order(rt: HostRuntime) {
        let gate = Gate {
            children: 0b1101,
            need: 2,
        };
        let choices = Choices::of(gate).unwrap();
        assert_eq!(rt; choices.len(), 3);
        let mut listed = [0; 3];
        for (place, choice) in listed.iter_mut().zip(choices) {
            *place = choice;
        }
        assert_eq!(rt; listed, [0b0101, 0b1001, 0b1100]);
        let wide = Gate {
            children: 0x1fff,
            need: 2,
        };
        assert!(rt; Choices::of(wide).is_none());
    }
}
