// The lines of a lantern, by arithmetic on their numbers.
ghost use Rattle.std.specs.Prelude.{◌≡◌, ℕ, ◌+◌, ◌*◌, ◌<◌, ◌≤◌, length};
ghost use Rattle.std.specs.List.{slice_get};
ghost use Rattle.tree.specs.Holding.{top as top_line, holds};
ghost use Rattle.kinds.specs.Lanterns.{run, gate_over, numbered, tier_line, last_line, lantern_row};
ghost use Rattle.kinds.specs.LanternTrees.{rows_of, dark};

use crate::lantern::Lantern;
use tree::line::{Gate, Line, Name, Row};

impl Lantern {
    // The line number of the top.
    #[tactic(auto, using(crate::proofs::LanternLaws::lantern_length, crate::proofs::LanternLaws::top_holds))]
    pub fn top(&self) -> usize
        ensures is_top { result ≡ top_line (rows_of self.now) }
        ensures holds_when_enough_tiers_are_dark { (s : ℕ) → holds (rows_of self.now) s result ≡ dark self.now s }
    {
        self.all_lamps() + self.tiers()
    }

    // How many lines there are.
    #[tactic(auto, using(crate::specs::LanternLimits::limits, crate::proofs::LanternLaws::lantern_length))]
    pub(crate) fn lines(&self) -> usize
        ensures all { result ≡ length (rows_of self.now) }
        ensures few { result ≤ 64 }
    {
        self.top() + 1
    }

    // How many lamps there are: the first tier's line number.
    #[tactic(auto, using(crate::specs::LanternLimits::limits))]
    fn all_lamps(&self) -> usize
        ensures value { result ≡ self.now.design.tiers * self.now.design.lamps }
        ensures small { result + self.now.design.tiers < 64 }
    {
        self.tiers() * self.lamps()
    }

    // `as` here and below, since `usize` has no `From` of 32 bits.
    fn tiers(&self) -> usize
        ensures { result ≡ self.now.design.tiers }
    {
        self.design.tiers as usize
    }

    // In each tier.
    fn lamps(&self) -> usize
        ensures { result ≡ self.now.design.lamps }
    {
        self.design.lamps as usize
    }

    // Line i with its name.
    #[tactic(auto, using(crate::proofs::LanternLaws::lantern_length, crate::proofs::LanternLaws::lantern_nth, crate::proofs::LanternLaws::lantern_past))]
    pub(crate) fn row(&self, i: usize) -> Option<Row>
        ensures { result ≡ slice_get (rows_of self.now) i }
    {
        if i >= self.lines() {
            return None;
        }
        Some(self.made_row(i))
    }

    #[tactic(auto, using(crate::proofs::LanternLaws::lantern_length, crate::specs::LanternRows::lamp_row, crate::specs::LanternRows::tier_row, crate::specs::LanternRows::last_row))]
    fn made_row(&self, i: usize) -> Row
        requires { i < 64 }
        ensures { result ≡ lantern_row self.now.design.tiers self.now.design.lamps self.now.design.lamp_need self.now.design.tier_need self.now.design.part i }
    {
        let first_tier = self.all_lamps();
        if i < first_tier {
            Row {
                line: Line::Part(self.design.part),
                name: numbered(b'L', i),
            }
        } else if i < self.top() {
            Row {
                line: self.tier(i - first_tier),
                name: numbered(b'G', i),
            }
        } else {
            Row {
                line: self.last(),
                name: numbered(b'G', i),
            }
        }
    }

    // Tier a: a gate over its lamps.
    #[tactic(auto, using(crate::specs::LanternLimits::limits))]
    fn tier(&self, a: usize) -> Line
        requires { a < self.now.design.tiers }
        ensures { result ≡ tier_line self.now.design.lamps self.now.design.lamp_need a }
    {
        gate(self.first_lamp(a), self.lamps(), self.design.lamp_need)
    }

    // The line number of tier a's first lamp.
    #[tactic(auto, using(crate::specs::LanternLimits::limits, crate::specs::LanternLimits::tier_fits))]
    fn first_lamp(&self, a: usize) -> usize
        requires { a < self.now.design.tiers }
        ensures value { result ≡ a * self.now.design.lamps }
        ensures small { result + self.now.design.lamps < 64 }
    {
        a * self.lamps()
    }

    // The top: a gate over the tiers.
    #[tactic(auto, using(crate::specs::LanternLimits::limits))]
    fn last(&self) -> Line
        ensures { result ≡ last_line self.now.design.tiers self.now.design.lamps self.now.design.tier_need }
    {
        gate(self.all_lamps(), self.tiers(), self.design.tier_need)
    }
}

// A gate over the count lines from line first on. A need of a lantern is at most 12, so that `as` does not cut it.
fn gate(first: usize, count: usize, need: u32) -> Line
    requires below_line_64 { first + count < 64 }
    requires small_need { need ≤ 12 }
    ensures { result ≡ gate_over first count need }
{
    Line::Gate(Gate {
        children: run(first, count),
        need: need as u8,
    })
}

// The set of those lines.
#[tactic(auto, using(crate::proofs::LanternLaws::shifted))]
fn run(first: usize, count: usize) -> u64
    requires { first + count < 64 }
    ensures { result ≡ run first count }
{
    ((1 << count) - 1) << first
}

// A letter and the line number, which a byte holds, in two digits.
fn numbered(letter: u8, i: usize) -> Name
    requires { i < 64 }
    ensures { result ≡ numbered letter i }
{
    let number = i as u8;
    let tens = b'0' + number / 10;
    let units = b'0' + number % 10;
    Name {
        head: u64::from_le_bytes([letter, tens, units, 0, 0, 0, 0, 0]),
        tail: 0,
        len: 3,
    }
}
