// One line of a station tree.
ghost use Rattle.std.specs.Prelude.{◌≡◌};
ghost use Rattle.tree.specs.Lines.{part_line, never, first_name};

// A basic event: one part of the station.
#[derive(Clone, Copy, PartialEq, Eq)]
pub struct Part {
    // −1,000 times the base-10 logarithm of the failure probability
    pub rarity: u32,
    // how hard the part is to reach, 9 the worst
    pub class: u8,
    // granted on one order, per mille of the list price
    pub discount: u16,
    // the list price in cents
    pub price: u32,
}

// A gate holds when at least `need` of its children hold; bit i of `children` stands for line i.
#[derive(Clone, Copy, PartialEq, Eq)]
pub struct Gate {
    pub children: u64,
    pub need: u8,
}

#[derive(Clone, Copy, PartialEq, Eq)]
pub enum Line {
    Part(Part),
    Gate(Gate),
}

// Up to twelve bytes, the first lowest: eight in `head`, the others in `tail`. By a rule of the project a name is plain
// numbers, so that an Option of one holds no array.
#[derive(Clone, Copy, PartialEq, Eq)]
pub struct Name {
    pub head: u64,
    pub tail: u64,
    pub len: u8,
}

// A line with its name.
#[derive(Clone, Copy, Default, PartialEq, Eq)]
pub struct Row {
    pub line: Line,
    pub name: Name,
}

impl Gate {
    // A gate without children that always holds, and one that never does.
    pub const ALWAYS: Gate = Gate {
        children: 0,
        need: 0,
    };

    pub const NEVER: Gate = Gate {
        children: 0,
        need: 1,
    };
}

impl Line {
    pub fn is_part(self) -> bool
        ensures tells_parts { result ≡ part_line self }
    {
        matches!(self, Line::Part(_))
    }
}

// What stands where nothing was said: a gate that never holds.
impl Default for Line {
    ghost is_default = { λ l. l ≡ never };

    fn default() -> Line {
        Line::Gate(Gate::NEVER)
    }
}

// The name of the one line that a tree has before it is filled.
impl Default for Name {
    ghost is_default = { λ n. n ≡ first_name };

    fn default() -> Name {
        Name {
            head: u64::from(b'A'),
            tail: 0,
            len: 1,
        }
    }
}
