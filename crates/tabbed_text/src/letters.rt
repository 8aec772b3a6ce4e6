// Fields of one letter.
ghost use Rattle.std.specs.Prelude.{◌≡◌};
ghost use Rattle.tabbed_text.specs.Fields.{letter_of};

// A letter that stands for nothing there.
#[derive(Clone, Copy, Debug, PartialEq, Eq)]
pub struct UnknownLetter;

// The letter, where the field has just one byte.
pub fn letter(field: &[u8]) -> Option<char>
    ensures reads_letter { result ≡ letter_of field.now }
{
    match field {
        [byte] => Some(char::from(*byte)),
        _ => None,
    }
}
