// Why a tree is not made or not changed.
ghost use Rattle.std.specs.Prelude.{◌≡◌, Some};
ghost use Rattle.kinds.specs.Faults.{number_of, layer_of, of_layer, refusal_text};

use std::error::Error;
use std::fmt;

// The lantern layer, by the numbers of its refusals.
#[derive(Clone, Copy, Debug, PartialEq, Eq)]
pub enum LanternCause {
    OutOfLimits = 16,
}

// The fixing layer, by the numbers of its refusals.
#[derive(Clone, Copy, Debug, PartialEq, Eq)]
pub enum FixingCause {
    NotPart = 14,
}

// Where a tree's fault arose.
#[derive(Clone, Copy, Debug, PartialEq, Eq)]
pub enum TreeLayer {
    Lantern(LanternCause),
    Fixing(FixingCause),
}

// A refusal of a tree; line and field are those of a file, and 0 here, where there is none.
#[derive(Clone, Copy, Debug, PartialEq, Eq)]
pub struct TreeFault {
    pub line: usize,
    pub field: usize,
    pub layer: TreeLayer,
}

impl TreeLayer {
    // The number of the refusal, which is the cause's discriminant.
    pub fn number(self) -> u8
        ensures is_the_number { result ≡ number_of self }
    {
        match self {
            TreeLayer::Fixing(cause) => cause as u8,
            TreeLayer::Lantern(cause) => cause as u8,
        }
    }

    pub fn letter(self) -> char
        ensures is_the_letter { result ≡ layer_of self }
    {
        match self {
            TreeLayer::Fixing(_) => 'X',
            TreeLayer::Lantern(_) => 'T',
        }
    }
}

impl From<TreeLayer> for TreeFault {
    ghost from_gives = { λ layer fault. fault ≡ of_layer layer };

    fn from(layer: TreeLayer) -> TreeFault {
        TreeFault {
            line: 0,
            field: 0,
            layer,
        }
    }
}

impl fmt::Display for TreeFault {
    ghost output = { λ fault. Some (refusal_text fault) };

    fn fmt<W: fmt::Write>(&self, f: &mut fmt::Formatter<W>) -> fmt::Result {
        let number = self.layer.number();
        let letter = self.layer.letter();
        write!(f, "refused {number}, layer {letter}")
    }
}

impl Error for TreeFault {}
