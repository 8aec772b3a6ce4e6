// A walk over the fields of a text, in the text's own bytes.
ghost use Rattle.std.specs.Prelude.{◌≤◌, length};

mod walk;

// A slice and a place in it, by a rule of the project: fields are parts of the text's own bytes.
// `at` is where a line starts, or the tab or byte 10 at which the last field ended.
#[derive(Clone, Copy)]
pub struct Fields<'a> {
    bytes: &'a [u8],
    at: usize,
    ghost within: { at ≤ length bytes.now },
}
