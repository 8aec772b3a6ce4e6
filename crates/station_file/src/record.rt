// One line of a station file.
ghost use Rattle.std.specs.Prelude.{◌<◌, length};

use tabbed_text::fields::Fields;
use tree::line::Row;

mod gates;
mod parts;
mod row;

// The fields that are left to read in the line, and the lines above it.
#[derive(Clone, Copy)]
pub struct Record<'t, 'r> {
    pub fields: Fields<'t>,
    pub above: &'r [Row],
    ghost few: { length above.now < 64 },
}
