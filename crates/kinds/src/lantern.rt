// Lanterns: station trees that are computed and not stored.
ghost use Rattle.std.specs.Prelude.{◌≡◌, true};
ghost use Rattle.kinds.specs.Lanterns.{in_limits};

use tree::line::Part;

mod answers;
mod lines;
mod making;

// What a lantern is to be, whether or not there is such a lantern: tiers of lamps, all lamps alike. A tier is dark when
// at least `lamp_need` of its lamps have failed, the lantern when at least `tier_need` of its tiers are dark.
#[derive(Clone, Copy, PartialEq, Eq)]
pub struct Design {
    pub tiers: u32,
    // in each tier
    pub lamps: u32,
    pub lamp_need: u32,
    pub tier_need: u32,
    // what every lamp is
    pub part: Part,
}

// A design that keeps the limits: no other lantern can be made.
#[derive(Clone, Copy, PartialEq, Eq)]
pub struct Lantern {
    design: Design,
    ghost within: { in_limits design.tiers design.lamps design.lamp_need design.tier_need design.part ≡ true },
}
