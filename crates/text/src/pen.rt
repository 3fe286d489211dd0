// A pen, which writes bytes, words and numbers one behind the other.
ghost use Rattle.std.specs.Prelude.{◌≡◌, ◌+◌, ◌≤◌, [], ◌∷◌, length, decimal};
ghost use Rattle.text.specs.Writing.{Wrote};

// A buffer, and the place in it at which the pen writes next.
#[derive(Drop)]
pub struct Pen<'a> {
    pub out: &'a mut [u8],
    pub at: usize,
}

impl<'a> Pen<'a> {
    // A pen at the start of a buffer.
    pub fn new(out: &'a mut [u8]) -> Pen<'a>
        ensures same { result.out.ghost_name ≡ out.entry.ghost_name }
        ensures buffer { result.out.now ≡ out.old }
        ensures start { result.at ≡ 0 }
    {
        Pen { out, at: 0 }
    }

    // Writes a byte.
    pub fn byte(&mut self, byte: u8)
        requires { self.old.at + 1 ≤ length self.old.out.now }
        ensures { Wrote self.old self.new (byte ∷ []) }
    {
        self.out[self.at] = byte;
        self.at += 1;
    }

    // Writes a word.
    pub fn word(&mut self, word: &[u8])
        requires { self.old.at + length word.now ≤ length self.old.out.now }
        ensures { Wrote self.old self.new word.now }
    {
        let end = self.at + word.len();
        self.out[self.at..end].copy_from_slice(word);
        self.at = end;
    }

    // Writes the text of a number.
    pub fn number(&mut self, n: u64)
        requires { self.old.at + length (decimal n) ≤ length self.old.out.now }
        ensures { Wrote self.old self.new (decimal n) }
    {
        let end = self.at + number_length(n);
        let mut rest = n;
        for place in (self.at..end).rev() {
            self.out[place] = b'0' + (rest % 10) as u8;
            rest /= 10;
        }
        self.at = end;
    }
}

// How many bytes the text of a number takes.
pub fn number_length(n: u64) -> usize
    ensures { result ≡ length (decimal n) }
{
    match n.checked_ilog10() {
        Some(log) => log as usize + 1,
        None => 1,
    }
}
