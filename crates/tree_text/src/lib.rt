// Names, lines and sets of lines as text, for programs that print them.
#![tactic(auto)]

ghost use Rattle.std.specs.Prelude.{◌≡◌, true, Some, is_some, IfSome};
ghost use Rattle.tree.specs.Names.{spelled, name_ok};
ghost use Rattle.tree_text.specs.Texts.{set_text, line_text};

use std::fmt;
use tabbed_text::writer::Writer;
use tree::line::{Gate, Line, Name, Part};
use tree::line_set::has;

// The numbers of the lines of a set.
#[derive(Clone, Copy, PartialEq, Eq)]
pub struct SetText(pub u64);

// `Line` and `Name` do not print themselves: they lie in `tree`, below the writer that spells a name.
#[derive(Clone, Copy, PartialEq, Eq)]
pub struct LineText(pub Line);

#[derive(Clone, Copy, PartialEq, Eq)]
pub struct NameText(pub Name);

impl fmt::Display for SetText {
    ghost output = { λ set. Some (set_text set.0) };

    #[tactic(auto, using(crate::proofs::Texts::no_numbers, crate::proofs::Texts::more_numbers, std::proofs::lemmas::Grind::common_steps))]
    fn fmt<W: fmt::Write>(&self, f: &mut fmt::Formatter<W>) -> fmt::Result {
        write!(f, "{{")?;
        // A test in the loop: a `for` over a filtered range gets no proof in a function over any writer.
        for i in 0..64 {
            if has(self.0, i) {
                write!(f, " {i}")?;
            }
        }
        write!(f, " }}")
    }
}

impl fmt::Display for LineText {
    ghost output = { λ line. Some (line_text line.0) };

    fn fmt<W: fmt::Write>(&self, f: &mut fmt::Formatter<W>) -> fmt::Result {
        match self.0 {
            Line::Part(
                Part {
                    rarity,
                    class,
                    discount,
                    price,
                },
            ) => write!(
                f,
                "part, rarity {rarity} class {class} discount {discount} price {price}"
            ),
            Line::Gate(Gate { children, need }) => {
                write!(f, "gate, {need} of {}", SetText(children))
            }
        }
    }
}

impl fmt::Display for NameText {
    ghost output = { λ name. Some (spelled name.0) };

    fn fmt<W: fmt::Write>(&self, f: &mut fmt::Formatter<W>) -> fmt::Result {
        let mut bytes = [0; 12];
        f.write_str(text_of(self.0, &mut bytes).ok_or(fmt::Error)?)
    }
}

// The text of a name, over its lent bytes. A name that keeps its rules has one: it is of ASCII bytes, at most twelve.
#[tactic(auto, using(crate::proofs::Texts::written_read, crate::proofs::Texts::name_short, crate::proofs::Texts::name_utf8))]
pub fn text_of(name: Name, bytes: &mut [u8; 12]) -> Option<&str>
    ensures spells_the_name { IfSome result (λ text. text.now ≡ spelled name) }
    ensures every_good_name_has_one { name_ok name ≡ true → is_some result ≡ true }
{
    let mut w = Writer::new(bytes);
    w.name(name);
    let len = w.len();
    str::from_utf8(bytes.get(..len)?).ok()
}
