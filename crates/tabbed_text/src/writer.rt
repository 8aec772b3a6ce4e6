// Text written into lent bytes.
ghost use Rattle.std.specs.Prelude.{◌≡◌, [], ◌∷◌, decimal};
ghost use Rattle.tree.specs.Names.{spelled, unpacked};
ghost use Rattle.tabbed_text.specs.Writing.{Writes};

use tree::line::Name;

// Writes go on from the place; what lies past the end of the lent bytes is counted, not written. So a writer over
// no bytes measures a text. No `io::Write` over the bytes: that stops at their end, and counts nothing past it.
#[derive(Drop)]
pub struct Writer<'a> {
    out: &'a mut [u8],
    at: usize,
}

impl<'a> Writer<'a> {
    pub fn new(out: &'a mut [u8]) -> Writer<'a>
        ensures at_the_start { result.at ≡ 0 }
        ensures over_the_bytes { result.out.now ≡ out.old }
        ensures into_the_slice { result.out.ghost_name ≡ out.entry.ghost_name }
    {
        Writer { out, at: 0 }
    }

    // How many bytes have been written or counted.
    pub fn len(&self) -> usize
        ensures is_place { result ≡ self.now.at }
    {
        self.at
    }

    pub fn byte(&mut self, b: u8)
        ensures writes_byte { Writes (b ∷ []) self.old self.new }
    {
        // By place: `get_mut` would hide the same test and leave the write to prove.
        if self.at < self.out.len() {
            self.out[self.at] = b;
        }
        self.at = self.at.saturating_add(1);
    }

    #[tactic(auto, using(crate::proofs::Placing::one_after_another))]
    pub fn text(&mut self, bytes: &[u8])
        ensures writes_text { Writes bytes.now self.old self.new }
    {
        for b in bytes {
            self.byte(*b);
        }
    }

    pub fn number(&mut self, n: u64)
        ensures writes_digits { Writes (decimal n) self.old self.new }
    {
        let mut buffer = itoa::Buffer::new();
        self.text(buffer.format(n).as_bytes());
    }

    #[tactic(auto, using(crate::proofs::Placing::one_after_another))]
    pub fn name(&mut self, name: Name)
        ensures writes_name { Writes (spelled name) self.old self.new }
    {
        let len = usize::from(name.len);
        self.word(name.head, len.min(8));
        self.word(name.tail, len.saturating_sub(8));
    }

    // The lowest k bytes of a word; those past its eight are 0.
    #[tactic(auto, using(crate::proofs::Placing::one_after_another, crate::proofs::Words::word_bytes))]
    fn word(&mut self, word: u64, k: usize)
        ensures { Writes (unpacked k word) self.old self.new }
    {
        let bytes = word.to_le_bytes();
        // By number, since k may go past them.
        for i in 0..k {
            self.byte(bytes.get(i).copied().unwrap_or(0));
        }
    }
}
