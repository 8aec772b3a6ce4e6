// Decimal numbers in the bytes of a field.
ghost use Rattle.std.specs.Prelude.{◌≡◌};
ghost use Rattle.tabbed_text.specs.Numbers.{number_in};

// The number, where it is well formed and from `low` to `high`; however long the field is, nothing wraps.
// Limits are two arguments: a range would be no plainer, since each caller writes two literals.
pub fn number(bytes: &[u8], low: u32, high: u32) -> Option<u32>
    ensures reads_number { result ≡ number_in low high bytes.now }
{
    if let [] | [b'0', _, ..] = bytes {
        return None;
    }
    let mut n: u32 = 0;
    for b in bytes {
        if !b.is_ascii_digit() {
            return None;
        }
        let digit = u32::from(*b - b'0');
        n = n.checked_mul(10)?.checked_add(digit)?;
    }
    (low..=high).contains(&n).then_some(n)
}
