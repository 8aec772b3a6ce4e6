// Texts that are written whole or not at all.
ghost use Rattle.std.specs.Prelude.{◌≡◌, ℕ, ◌-◌, ◌^◌, ◌≤◌, min, List, ◌++◌, length, drop};
ghost use Rattle.tabbed_text.specs.Whole.{room_for, with_text};
ghost use Rattle.tabbed_text.specs.Writing.{Writes};

use crate::writer::Writer;

// What can be written, by the bytes that it means. No Display: that prints text through a formatter and may fail, and
// here are bytes and a call that cannot fail.
pub trait Text {
    ghost bytes: { Self → List ℕ };

    fn put(&self, w: &mut Writer)
        ensures writes_bytes { Writes (bytes self.now) w.old w.new };
}

// Writes the text at the start of the lent bytes and answers its length; where they are too few, none is written.
pub fn write_whole<T: Text>(text: &T, out: &mut [u8]) -> Option<usize>
    ensures answers_length { result ≡ room_for (T.Text.bytes text.now) out.old }
    ensures writes_all_or_none { out.new ≡ with_text (T.Text.bytes text.now) out.old }
{
    let len = measured(text);
    if len > out.len() {
        return None;
    }
    write(text, out);
    Some(len)
}

// The length of the text; no slice is as long as the number at which the count stops.
fn measured<T: Text>(text: &T) -> usize
    ensures { result ≡ min (length (T.Text.bytes text.now)) (2 ^ 64 - 1) }
{
    let mut w = Writer::new(&mut []);
    text.put(&mut w);
    w.len()
}

#[tactic(auto, using(crate::proofs::Placing::placed_all))]
fn write<T: Text>(text: &T, out: &mut [u8])
    requires { length (T.Text.bytes text.now) ≤ length out.old }
    ensures { out.new ≡ T.Text.bytes text.now ++ drop (length (T.Text.bytes text.now)) out.old }
{
    let mut w = Writer::new(out);
    text.put(&mut w);
}
