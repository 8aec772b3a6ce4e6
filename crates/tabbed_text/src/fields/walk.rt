// The steps of the walk.
ghost use Rattle.std.specs.Prelude.{◌≡◌, ◌≤◌, ◌∷◌, length, drop, ◌==◌, not, count_by};
ghost use Rattle.std.specs.Iterator.{item_count};
ghost use Rattle.std.specs.List.{take_while, prefix_len, position};
ghost use Rattle.tabbed_text.specs.Fields.{separates, fields_of, more_fields, after, FieldOf};
ghost use Rattle.tabbed_text.specs.Remains.{remains, GivesNext};

use crate::fields::Fields;

fn is_separator(b: u8) -> bool
    ensures { result ≡ separates b }
{
    matches!(b, b'\t' | b'\n')
}

// How many bytes stand before the first tab or byte 10.
fn field_len(bytes: &[u8]) -> usize
    ensures { result ≡ prefix_len (λ b. not (separates b)) bytes.now }
{
    bytes.iter().take_while(|b| !is_separator(**b)).count()
}

// How many tabs the first line has.
fn tabs(bytes: &[u8]) -> usize
    ensures { result ≡ count_by (λ b. b == 9) (take_while (λ b. not (b == 10)) bytes.now) }
{
    let line = bytes.iter().take_while(|b| **b != b'\n');
    line.filter(|b| **b == b'\t').count()
}

// Where the first line ends.
fn newline(bytes: &[u8]) -> Option<usize>
    ensures { result ≡ position (λ b. b == 10) bytes.now }
{
    bytes.iter().position(|b| *b == b'\n')
}

// How many bytes the first line has, with its end.
#[tactic(auto, using(crate::proofs::Walking::line_ends))]
fn line_len(bytes: &[u8]) -> usize
    ensures within { result ≤ length bytes.now }
    ensures value { drop result bytes.now ≡ after 10 bytes.now }
{
    newline(bytes).map_or(bytes.len(), |i| i + 1)
}

impl<'a> Fields<'a> {
    // A walk from the start of the text.
    pub fn new(bytes: &'a [u8]) -> Self
        ensures has_all_to_read { remains result ≡ bytes.now }
    {
        Fields { bytes, at: 0 }
    }

    // The field that starts here: the bytes up to the next tab, byte 10 or the end, before which the walk stops.
    #[tactic(auto, using(crate::proofs::Walking::field_steps))]
    pub fn first(&mut self) -> &'a [u8]
        ensures yields_field { FieldOf (remains self.old) result.now (remains self.new) }
        ensures leads_fields { fields_of (remains self.old) ≡ result.now ∷ more_fields (remains self.new) }
        ensures keeps_next_line { after 10 (remains self.new) ≡ after 10 (remains self.old) }
    {
        let rest = self.rest();
        let (field, _) = rest.split_at(field_len(rest));
        self.at += field.len();
        field
    }

    // How many fields follow in the line.
    #[tactic(auto, using(crate::proofs::Walking::more_count))]
    pub fn left(&self) -> usize
        ensures counts_fields { result ≡ length (more_fields (remains self.now)) }
    {
        match self.rest() {
            [b'\t', rest @ ..] => 1 + tabs(rest),
            _ => 0,
        }
    }

    // Goes to the start of the next line.
    pub fn end_line(&mut self)
        ensures leaves_next_lines { remains self.new ≡ after 10 (remains self.old) }
    {
        self.at += line_len(self.rest());
    }

    // All that is left to read.
    pub fn rest(&self) -> &'a [u8]
        ensures is_all_left { result.now ≡ remains self.now }
    {
        let (_, rest) = self.bytes.split_at(self.at);
        rest
    }

    // Whether nothing is left to read.
    pub fn is_done(&self) -> bool
        ensures tells_end { result ≡ (length (remains self.now) == 0) }
    {
        self.rest().is_empty()
    }
}

// The fields that follow in the line; after the last the walk stays.
impl<'a> Iterator for Fields<'a> {
    type Item = &'a [u8];

    ghost next_gives = { GivesNext };

    ghost remaining = { item_count (λ w. more_fields (remains w)) };

    fn next(&mut self) -> Option<&'a [u8]> {
        let [b'\t', ..] = self.rest() else {
            return None;
        };
        self.at += 1;
        Some(self.first())
    }
}
