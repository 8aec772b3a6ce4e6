// The four plain rankings: each by one 64-bit number, which the parts of a set count together.
ghost use Rattle.std.specs.Prelude.{◌≡◌, ℕ, max};
ghost use Rattle.tree.specs.declared.line.Part.{Part};
ghost use Rattle.ranking.specs.Models.{stopped, by_number, price, rarity as rare, size as sized, class as classed, LawfulJoin};
ghost use Rattle.ranking.specs.ModelsLemmas.{by_number_lawful, stopped_lawful, max_lawful};

use crate::order::Ranking;
use std::marker::PhantomData;
use tree::line::Part;

// What each part counts.
pub trait Measure {
    ghost counted: { Part → ℕ → ℕ };

    // The number of one part, charged so many cents.
    fn of(part: Part, charge: u64) -> u64
        ensures is_counted { result ≡ counted part charge };
}

// How the numbers of two sets that have no part in common make one.
pub trait Join {
    ghost join: { ℕ → ℕ → ℕ };

    fn join(a: u64, b: u64) -> u64
        ensures is_joined { result ≡ join a b };

    ghost lawful: { LawfulJoin join };
}

// The charge in cents.
pub struct Cents;

// How rare it is that the part fails.
pub struct Rareness;

// 1, whatever the part.
pub struct Each;

// How hard the part is to reach.
pub struct Reach;

// The sum, or 2 ^ 64 − 1 where the sum is more.
pub struct Sum;

// The larger of the two.
pub struct Largest;

impl Measure for Cents {
    ghost counted = { price.of_part };

    fn of(_part: Part, charge: u64) -> u64 {
        charge
    }
}

impl Measure for Rareness {
    ghost counted = { rare.of_part };

    fn of(part: Part, _charge: u64) -> u64 {
        u64::from(part.rarity)
    }
}

impl Measure for Each {
    ghost counted = { sized.of_part };

    fn of(_part: Part, _charge: u64) -> u64 {
        1
    }
}

impl Measure for Reach {
    ghost counted = { classed.of_part };

    fn of(part: Part, _charge: u64) -> u64 {
        u64::from(part.class)
    }
}

impl Join for Sum {
    ghost join = { stopped };

    ghost lawful = { stopped_lawful };

    fn join(a: u64, b: u64) -> u64 {
        a.saturating_add(b)
    }
}

impl Join for Largest {
    ghost join = { max };

    ghost lawful = { max_lawful };

    fn join(a: u64, b: u64) -> u64 {
        a.max(b)
    }
}

// By what the parts count: the set that counts less comes first.
pub struct ByNumber<M: Measure, J: Join> {
    measure: PhantomData<M>,
    join: PhantomData<J>,
}

impl<M: Measure, J: Join> Ranking for ByNumber<M, J> {
    type Weight = u64;

    ghost model = { by_number M.counted J.join };

    ghost lawful = { by_number_lawful M.counted J.join J.lawful };

    fn zero() -> u64 {
        0
    }

    fn weigh(part: Part, charge: u64) -> u64 {
        M::of(part, charge)
    }

    fn join(a: u64, b: u64) -> u64 {
        J::join(a, b)
    }

    fn at_most(a: u64, b: u64) -> bool {
        a <= b
    }
}

// What the parts are charged, in cents.
pub type Price = ByNumber<Cents, Sum>;

// How rare it is that all the parts fail.
pub type Rarity = ByNumber<Rareness, Sum>;

// How many parts there are.
pub type Size = ByNumber<Each, Sum>;

// The worst class of the parts.
pub type Class = ByNumber<Reach, Largest>;
