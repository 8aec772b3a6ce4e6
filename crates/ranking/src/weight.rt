// The weight of a set of parts, one part after another.
ghost use Rattle.std.specs.Prelude.{◌≡◌};
ghost use Rattle.ranking.specs.Models.{price, rarity, size, class};
ghost use Rattle.ranking.specs.Weights.{WeighsNone, InAnyOrder, WeighsOneMore, WeighsInTwo, WeighsNoLess};

use crate::kinds::{Class, Price, Rarity, Size};
use crate::order::Ranking;
use tree::line::Part;

// The weight of a set with one part more, which is charged so many cents. A first part is added to zero.
#[tactic(auto, using(crate::proofs::Weights::set_weights))]
pub fn add_part<R: Ranking>(weight: R::Weight, part: Part, charge: u64) -> R::Weight
    ensures joins_weight_of_part { result ≡ R.Ranking.model.join weight (R.Ranking.model.of_part part charge) }
    ensures weighs_set_with_part { WeighsOneMore R.Ranking.model weight part charge result }
    ensures weighs_no_parts_zero { WeighsNone R.Ranking.model }
    ensures weighs_in_any_order { InAnyOrder R.Ranking.model }
    ensures weighs_set_within_and_rest { WeighsInTwo R.Ranking.model }
    ensures weighs_no_less_than_set_within { WeighsNoLess R.Ranking.model }
    ensures price_is_by_the_sum_of_charges { ⟦<Price as Ranking>⟧.model ≡ price }
    ensures rarity_is_by_the_sum_of_rarities { ⟦<Rarity as Ranking>⟧.model ≡ rarity }
    ensures size_is_by_the_number_of_parts { ⟦<Size as Ranking>⟧.model ≡ size }
    ensures class_is_by_the_worst_class { ⟦<Class as Ranking>⟧.model ≡ class }
{
    R::join(weight, R::weigh(part, charge))
}

#[cfg(test)]
mod tests {
    use super::*;
    use crate::kinds::*;
    use crate::pairs::*;

    fn a_part(rarity: u32, class: u8) -> Part {
        Part {
            rarity,
            class,
            discount: 0,
            price: 0,
        }
    }

    // Two parts, charged 5 and 7 cents.
    fn two<R: Ranking>() -> R::Weight {
        let one = add_part::<R>(R::zero(), a_part(300, 4), 5);
        add_part::<R>(one, a_part(20, 2), 7)
    }

    #[test]
    fn letters(rt: HostRuntime) {
        assert_eq!(rt; two::<ByPrice>(), (12, 320));
        assert_eq!(rt; two::<ByRarity>(), (320, 12));
        assert_eq!(rt; two::<ByClass>(), (4, 12));
        assert_eq!(rt; two::<BySize>(), (2, 12));
        assert_eq!(rt; two::<Pair<Size, ByPrice>>(), (2, (12, 320)));
    }

    #[test]
    fn stops(rt: HostRuntime) {
        let most = u64::MAX;
        assert_eq!(rt; ByPrice::join((most, 1), (1, 1)), (most, 2));
    }

    #[test]
    fn orders(rt: HostRuntime) {
        assert!(rt; ByPrice::at_most((1, 9), (2, 3)));
        assert!(rt; !ByPrice::at_most((2, 4), (2, 3)));
        assert!(rt; ByPrice::at_most((2, 3), (2, 3)));
    }
}
