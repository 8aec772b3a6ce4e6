// One ranking above another, and the four that an order may ask for.
ghost use Rattle.ranking.specs.Models.{paired};
ghost use Rattle.ranking.specs.ModelsLemmas.{paired_lawful};

use crate::kinds::{Class, Price, Rarity, Size};
use crate::order::Ranking;
use orders::lexicographic;
use std::marker::PhantomData;
use tree::line::Part;

// The upper ranking decides, and where it finds two weights the same the lower.
pub struct Pair<U: Ranking, L: Ranking> {
    upper: PhantomData<U>,
    lower: PhantomData<L>,
}

impl<U: Ranking, L: Ranking> Ranking for Pair<U, L> {
    type Weight = (U::Weight, L::Weight);

    ghost model = { paired U.Ranking.model L.Ranking.model };

    ghost lawful = { paired_lawful U.Ranking.model L.Ranking.model U.Ranking.lawful L.Ranking.lawful };

    fn zero() -> Self::Weight {
        (U::zero(), L::zero())
    }

    fn weigh(part: Part, charge: u64) -> Self::Weight {
        (U::weigh(part, charge), L::weigh(part, charge))
    }

    fn join(a: Self::Weight, b: Self::Weight) -> Self::Weight {
        (U::join(a.0, b.0), L::join(a.1, b.1))
    }

    fn at_most(a: Self::Weight, b: Self::Weight) -> bool {
        lexicographic(
            a,
            b,
            |x, y| U::at_most(x.0, y.0),
            |x, y| L::at_most(x.1, y.1),
        )
    }
}

// The letters of the page. Each has two 64-bit numbers as its weight.
// P: by price, then by rarity.
pub type ByPrice = Pair<Price, Rarity>;

// R: by rarity, then by price.
pub type ByRarity = Pair<Rarity, Price>;

// C: by class, then by price.
pub type ByClass = Pair<Class, Price>;

// S: by size, then by price.
pub type BySize = Pair<Size, Price>;
