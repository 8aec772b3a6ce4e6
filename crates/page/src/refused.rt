// The line that says why a page is refused.
ghost use Rattle.std.specs.Prelude.{◌≡◌, ◌∷◌, Ok, decimal};
ghost use Rattle.tabbed_text.specs.Writing.{Writes};
ghost use Rattle.page.specs.Pages.{refused_line, answered, left_in};

use crate::faults::{PageCause, PageFault};
use tabbed_text::whole::{Text, write_whole};
use tabbed_text::writer::Writer;

// A tab and a number.
pub(crate) fn put_field(w: &mut Writer, n: u64)
    ensures { Writes (9 ∷ decimal n) w.old w.new }
{
    w.byte(b'\t');
    w.number(n);
}

impl Text for PageFault {
    ghost bytes = { refused_line };

    fn put(&self, w: &mut Writer) {
        w.text(b"refused");
        put_field(w, self.layer.number());
        w.byte(b'\t');
        w.byte(self.layer.letter());
        // `as`: std has no From between usize and u64.
        put_field(w, self.line as u64);
        put_field(w, self.field as u64);
        w.byte(b'\n');
    }
}

// Writes the line of a refused page, or nothing where the bytes do not suffice.
#[tactic(auto, unfolding(crate::specs::Pages::answered, crate::specs::Pages::left_in))]
pub fn write_refused(fault: PageFault, out: &mut [u8]) -> Result<usize, PageFault>
    ensures answers_length { result ≡ answered (Ok (refused_line fault)) out.old }
    ensures writes_refused_line { out.new ≡ left_in (Ok (refused_line fault)) out.old }
{
    write_whole(&fault, out).ok_or(PageFault::at(0, 0, PageCause::NoRoom))
}
