// The letter of a record.
ghost use Rattle.std.specs.Prelude.{◌≡◌, ◌&&◌, nat_le};
ghost use Rattle.station_file.specs.Letters.{kind_of, Letters, has_count, most_fields};

use tabbed_text::letters::{UnknownLetter, letter};

#[derive(Clone, Copy, PartialEq, Eq)]
pub enum Kind {
    Part,
    And,
    Or,
    AtLeast,
    Always,
    Never,
}

impl TryFrom<char> for Kind {
    type Error = UnknownLetter;

    ghost try_from_gives = { Letters };

    fn try_from(letter: char) -> Result<Kind, UnknownLetter> {
        match letter {
            'E' => Ok(Kind::Part),
            'A' => Ok(Kind::And),
            'O' => Ok(Kind::Or),
            'V' => Ok(Kind::AtLeast),
            'T' => Ok(Kind::Always),
            'F' => Ok(Kind::Never),
            _ => Err(UnknownLetter),
        }
    }
}

impl Kind {
    // The most fields that a record of that kind has after its letter.
    pub fn most(self) -> usize
        ensures { result ≡ most_fields self }
    {
        match self {
            Kind::Part => 4,
            Kind::And | Kind::Or => 12,
            Kind::AtLeast => 13,
            Kind::Always | Kind::Never => 0,
        }
    }

    // Whether a record of that kind has so many fields after its letter.
    pub fn takes(self, count: usize) -> bool
        ensures { result ≡ has_count self count }
    {
        match self {
            Kind::Part => count == 4,
            Kind::And | Kind::Or => (1..=12).contains(&count),
            Kind::AtLeast => (2..=13).contains(&count),
            Kind::Always | Kind::Never => count == 0,
        }
    }
}

// The kind of record that a second field says. An order's letter is read alike; a function of both would have to speak of
// any conversion from a letter.
pub fn record_kind(field: &[u8]) -> Option<Kind>
    ensures { result ≡ kind_of field.now }
{
    Kind::try_from(letter(field)?).ok()
}
