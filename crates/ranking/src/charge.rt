// What a part costs under given terms, in cents.
ghost use Rattle.std.specs.Prelude.{◌≡◌, ◌+◌, ◌*◌, ◌^◌, ◌<◌, ◌≤◌};
ghost use Rattle.ranking.specs.Charges.{charge, discounted, grown, rise, InWholeCents, WorkedOut, worked};

use crate::terms::Terms;
use tree::line::Part;

// The growth of a price over one year, rounded up.
fn rise(price: u64, growth: u32) -> u64
    requires { price * growth + 999 < 2 ^ 64 }
    ensures { result ≡ rise growth price }
{
    // No `div_ceil`, which divides and then looks for a rest: ten years of it took half as long again.
    (price * u64::from(growth) + 999) / 1000
}

// The list price with the growth of each year.
#[tactic(auto, using(crate::proofs::Cents::growth))]
fn grown(price: u32, terms: Terms) -> u64
    ensures { result ≡ grown price terms.growth terms.year }
{
    let growth = terms.growth();
    let mut cents = u64::from(price);
    for _ in 0..terms.year() {
        cents += rise(cents, growth);
    }
    cents
}

// The list price less its discount, rounded up; a discount above the whole price leaves 0.
fn discounted(part: Part) -> u64
    ensures { result ≡ discounted part }
{
    let price = u64::from(part.price);
    price.saturating_sub(price * u64::from(part.discount) / 1000)
}

// What the part costs under the terms: in year 0 the list price less its discount, later the list price with its growth.
#[tactic(auto, using(crate::proofs::Cents::whole_later, crate::proofs::Cents::grown_below))]
pub fn charge(part: Part, terms: Terms) -> u64
    ensures is_charge { result ≡ charge terms.year terms.growth part }
    ensures in_whole_cents { InWholeCents terms.year terms.growth part result }
    ensures leaves_room_for_sums { result < 2 ^ 42 }
    ensures answers_worked_cases { WorkedOut worked }
{
    if terms.year() == 0 {
        discounted(part)
    } else {
        grown(part.price, terms)
    }
}

#[cfg(test)]
mod tests {
    use super::*;
    use std::test::Fail;

    fn costs(price: u32, discount: u16, growth: u32, year: u32) -> Result<u64, Fail> {
        let part = Part {
            rarity: 0,
            class: 0,
            discount,
            price,
        };
        Ok(charge(part, Terms::new(year, growth)?))
    }

    #[test]
    fn discounted_then_grown(rt: HostRuntime) -> Result<(), Fail> {
        assert_eq!(rt; costs(12_500, 100, 30, 0)?, 11_250);
        assert_eq!(rt; costs(12_500, 100, 30, 1)?, 12_875);
        assert_eq!(rt; costs(12_500, 100, 30, 2)?, 13_262);
        Ok(())
    }

    #[test]
    fn rounded_up(rt: HostRuntime) -> Result<(), Fail> {
        assert_eq!(rt; costs(1, 0, 1, 1)?, 2);
        assert_eq!(rt; costs(999, 1, 0, 0)?, 999);
        Ok(())
    }

    #[test]
    fn refused_terms(rt: HostRuntime) {
        assert!(rt; Terms::new(11, 201).is_err());
        assert!(rt; Terms::new(10, 200).is_ok());
    }
}
