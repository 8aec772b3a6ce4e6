// What the program writes for an input: the charge sheet, or the line that says why it is refused.
ghost use Rattle.std.specs.Prelude.{◌≡◌};
ghost use Rattle.page.specs.Answers.{length_of, reply, replied, written_for};
ghost use Rattle.page.specs.Pages.{sheet_of};

use crate::refused::write_refused;
use crate::sheet::charge_sheet;

// The bytes that the program takes in, and those that it hands over for the page.
pub const INPUT_BYTES: usize = 20_000;

pub const PAGE_BYTES: usize = 57_344;

// What was written: so many bytes of the sheet, or of the line that refuses the input.
#[derive(Clone, Copy, PartialEq, Eq)]
pub enum Written {
    Sheet(usize),
    Refusal(usize),
}

impl Written {
    // How many bytes were written.
    pub fn len(self) -> usize
        ensures counts_the_bytes { result ≡ length_of self }
    {
        match self {
            Written::Sheet(len) | Written::Refusal(len) => len,
        }
    }
}

// Writes the sheet where there is one and it fits, else the refused line, and nothing where that does not fit either.
#[tactic(auto, using(crate::proofs::Replies::replies))]
pub fn answer(input: &[u8], out: &mut [u8]) -> Written
    ensures tells_what_is_written { result ≡ written_for (reply (sheet_of input.now) out.old) out.old }
    ensures writes_answer { out.new ≡ replied (reply (sheet_of input.now) out.old) out.old }
{
    match charge_sheet(input, out) {
        Ok(len) => Written::Sheet(len),
        Err(fault) => Written::Refusal(write_refused(fault, out).unwrap_or(0)),
    }
}
