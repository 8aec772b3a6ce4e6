// A way to put the light out, as far as it is worked out.
ghost use Rattle.std.specs.Prelude.{◌≡◌};
ghost use Rattle.cut_sets.specs.WaitingRule.{way_of};

use tree::line::Line;
use tree::line_set::alone;

// The parts chosen so far, and the gates that still have to hold. Bit i of each stands for line i.
#[derive(Clone, Copy, PartialEq, Eq)]
pub struct Way {
    pub chosen: u64,
    pub gates: u64,
}

// Line i alone, as chosen part or as open gate.
#[tactic(auto, unfolding(crate::specs::WaitingRule::way_of))]
pub(crate) fn way_of(line: Line, i: usize) -> Way
    ensures { result ≡ way_of line i }
{
    match line {
        Line::Part(_) => Way {
            chosen: alone(i),
            gates: 0,
        },
        Line::Gate(_) => Way {
            chosen: 0,
            gates: alone(i),
        },
    }
}
