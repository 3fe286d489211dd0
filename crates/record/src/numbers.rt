// Numbers as bytes.
ghost use Rattle.std.specs.Prelude.{◌≡◌, ℕ, ◌+◌, ◌^◌, ◌<◌, ◌≤◌, [], ◌∷◌, ◌++◌, length, drop, IfOk, MatchResult};
ghost use Rattle.frame.specs.Laid.{laid};
ghost use Rattle.record.specs.Got.{seen};
ghost use Rattle.record.specs.Numbers.{number_bytes, read_number};
ghost use Rattle.refusal.specs.declared.refusal.Refusal.TheVariants.{Ended};

use refusal::refusal::Refusal;

// How many bytes a number takes.
pub(crate) fn number_length(n: u64) -> usize
    ensures { result ≡ length (number_bytes n) }
{
    match n {
        0..0x80 => 1,
        0x80..0x4000 => 2,
        0x4000..0x20_0000 => 3,
        0x20_0000..0x1000_0000 => 4,
        _ => 5,
    }
}

// Writes a number at the start of a part, and answers how many bytes it took.
fn write_number(out: &mut [u8], n: u64) -> usize
    requires { length (number_bytes n) ≤ length out.old }
    ensures count { result ≡ length (number_bytes n) }
    ensures bytes { out.new ≡ number_bytes n ++ drop (length (number_bytes n)) out.old }
{
    let last = number_length(n) - 1;
    let mut rest = n;
    for slot in &mut out[..last] {
        *slot = 128 + (rest % 128) as u8;
        rest /= 128;
    }
    out[last] = (rest % 128) as u8;
    last + 1
}

// Writes a number at a place in a frame, and answers the place after it.
pub(crate) fn put_number(frame: &mut [u8], at: usize, n: u64) -> usize
    requires { at + length (number_bytes n) ≤ length frame.old }
    ensures place { result ≡ at + length (number_bytes n) }
    ensures bytes { frame.new ≡ laid at (number_bytes n) frame.old }
{
    at + write_number(&mut frame[at..], n)
}

// The bytes that are still to be read.
#[derive(Clone, Copy)]
pub(crate) struct Reader<'a> {
    pub(crate) rest: &'a [u8],
}

impl<'a> Reader<'a> {
    // The bytes from an offset on; past their end there are none.
    pub(crate) fn at(bytes: &'a [u8], offset: usize) -> Reader<'a>
        ensures { result.rest.now ≡ drop offset bytes.now }
    {
        let rest = bytes.get(offset..).unwrap_or(&[]);
        Reader { rest }
    }

    // Reads the next byte.
    pub(crate) fn read_byte(&mut self) -> Result<u8, Refusal>
        ensures { MatchResult result (λ b. self.old.rest.now ≡ b ∷ self.new.rest.now) (λ e. (self.old.rest.now ≡ []) × (e ≡ Ended)) }
    {
        let (byte, rest) = self.rest.split_first().ok_or(Refusal::Ended)?;
        self.rest = rest;
        Ok(*byte)
    }

    // Reads the next number.
    pub(crate) fn read_number(&mut self) -> Result<u64, Refusal>
        ensures reads { seen self.new.rest.now result ≡ read_number self.old.rest.now }
        ensures exact { IfOk result (λ n. (n < 2 ^ 35) × (self.old.rest.now ≡ number_bytes n ++ self.new.rest.now)) }
    {
        let mut n = 0;
        let mut scale = 1;
        for k in 0usize..5 {
            let byte = u64::from(self.read_byte()?);
            if byte < 128 {
                if k > 0 && byte == 0 {
                    return Err(Refusal::Malformed);
                }
                return Ok(n + byte * scale);
            }
            n += (byte - 128) * scale;
            scale *= 128;
        }
        Err(Refusal::Malformed)
    }
}
