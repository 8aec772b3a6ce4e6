// Which lanterns there are.
ghost use Rattle.std.specs.Prelude.{◌≡◌, ◌+◌, ◌*◌, nat_le};
ghost use Rattle.std.specs.Result.{result_map_both};
ghost use Rattle.tree.specs.Rules.{part_ok};
ghost use Rattle.kinds.specs.Faults.{told};
ghost use Rattle.kinds.specs.Lanterns.{need_ok, in_limits};
ghost use Rattle.kinds.specs.LanternTrees.{values_of, asked_lantern};

use crate::faults::{LanternCause, TreeFault, TreeLayer};
use crate::lantern::{Design, Lantern};
use tree::line::Part;

impl Lantern {
    // Asks that each need is 1 to what there is, that there are at most 12 tiers and 12 lamps in each, at most 64 lines
    // in all, and that the part keeps its limits.
    pub fn new(
        tiers: u32,
        lamps: u32,
        lamp_need: u32,
        tier_need: u32,
        part: Part,
    ) -> Result<Lantern, TreeFault>
        ensures made_within_limits_only { result_map_both values_of told result ≡ asked_lantern tiers lamps lamp_need tier_need part }
    {
        Lantern::try_from(Design {
            tiers,
            lamps,
            lamp_need,
            tier_need,
            part,
        })
    }
}

impl TryFrom<Design> for Lantern {
    type Error = TreeFault;

    ghost try_from_gives = { λ d made. result_map_both values_of told made ≡ asked_lantern d.tiers d.lamps d.lamp_need d.tier_need d.part };

    fn try_from(design: Design) -> Result<Lantern, TreeFault> {
        if !design.keeps_limits() {
            return Err(TreeLayer::Lantern(LanternCause::OutOfLimits).into());
        }
        Ok(Lantern { design })
    }
}

impl Design {
    #[tactic(auto, unfolding(crate::specs::Lanterns::in_limits))]
    fn keeps_limits(self) -> bool
        ensures { result ≡ in_limits self.tiers self.lamps self.lamp_need self.tier_need self.part }
    {
        need_ok(self.lamp_need, self.lamps)
            && need_ok(self.tier_need, self.tiers)
            && self.has_few_lines()
            && part_ok(self.part)
    }

    // At most 64 lines: fewer below the top.
    fn has_few_lines(self) -> bool
        ensures { result ≡ nat_le (self.tiers * self.lamps + self.tiers + 1) 64 }
    {
        let tiers = u64::from(self.tiers);
        tiers * u64::from(self.lamps) + tiers < 64
    }
}

// A need is 1 to what there is, which is at most 12.
fn need_ok(need: u32, count: u32) -> bool
    ensures { result ≡ need_ok need count }
{
    (1..=count).contains(&need) && count <= 12
}

fn part_ok(part: Part) -> bool
    ensures { result ≡ part_ok part }
{
    part.rarity <= 60000 && part.class <= 9 && part.discount <= 1000 && part.price <= 10000000
}
