// What a ranking of sets of parts answers.
ghost use Rattle.std.specs.Prelude.{◌≡◌};
ghost use Rattle.ranking.specs.Models.{Model, Lawful};

use tree::line::Part;

// A way to weigh sets of parts and to say which of two weights comes first. Its calls keep nothing and refuse nothing.
// A part and its charge stay two arguments: parts come from a tree and charges from terms, so a struct of both would only
// be made for each call and taken apart in it.
pub trait Ranking {
    type Weight: Copy;

    ghost model: { Model Self.Weight };

    // The weight of no parts.
    fn zero() -> Self::Weight
        ensures is_zero { result ≡ model.zero };

    // The weight of one part, charged so many cents.
    fn weigh(part: Part, charge: u64) -> Self::Weight
        ensures is_weight_of_part { result ≡ model.of_part part charge };

    // The weight of two sets that have no part in common.
    fn join(a: Self::Weight, b: Self::Weight) -> Self::Weight
        ensures is_joined { result ≡ model.join a b };

    // Whether a comes before b or is the same.
    fn at_most(a: Self::Weight, b: Self::Weight) -> bool
        ensures is_order { result ≡ model.le a b };

    ghost lawful: { Lawful model };
}
