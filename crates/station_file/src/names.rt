// Names in the bytes of a field.
ghost use Rattle.std.specs.Prelude.{◌≡◌, ◌≤◌, length};
ghost use Rattle.std.specs.List.{list_all};
ghost use Rattle.tree.specs.Names.{packed, name_byte, well_named};
ghost use Rattle.station_file.specs.Names.{name_from};

use tree::line::Name;

fn is_name_byte(b: u8) -> bool
    ensures { result ≡ name_byte b }
{
    b.is_ascii_alphanumeric() || b == b'-'
}

fn all_name_bytes(bytes: &[u8]) -> bool
    ensures { result ≡ list_all name_byte bytes.now }
{
    bytes.iter().all(|b| is_name_byte(*b))
}

#[tactic(auto, using(crate::proofs::NameWords::names_all))]
fn is_name(bytes: &[u8]) -> bool
    ensures { result ≡ well_named bytes.now }
{
    (1..=12).contains(&bytes.len()) && all_name_bytes(bytes)
}

// Up to eight bytes as one word, the first lowest. Byte by byte: to copy them into an array first takes longer for most names.
fn word_of(bytes: &[u8]) -> u64
    requires { length bytes.now ≤ 8 }
    ensures { result ≡ packed bytes.now }
{
    let mut word = 0;
    for i in (0..bytes.len()).rev() {
        word = 256 * word + u64::from(bytes[i]);
    }
    word
}

// The name, where the bytes are one.
#[tactic(auto, using(crate::proofs::NameWords::two_words))]
pub fn name_of(bytes: &[u8]) -> Option<Name>
    ensures { result ≡ name_from bytes.now }
{
    if !is_name(bytes) {
        return None;
    }
    // At most 12, so that `as` below does not cut it.
    let len = bytes.len();
    let (head, tail) = bytes.split_at(len.min(8));
    Some(Name {
        head: word_of(head),
        tail: word_of(tail),
        len: len as u8,
    })
}
