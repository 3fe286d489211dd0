// A refusal as text.
ghost use Rattle.std.specs.Prelude.{◌≡◌, [], ◌∷◌, ◌++◌, length, drop, is_ok, IfOk, if◌then◌else◌, nat_lt};
ghost use Rattle.print.specs.Texts.{refused_text};
ghost use Rattle.refusal.specs.Refusals.{told, outcome, first_of, line as ruled};

use refusal::refusal::Refusal;
use text::pen::{Pen, number_length};

// Writes the line of a refusal from the start: `refused`, its number and a line's number. Answers its length.
pub fn put_refused(out: &mut [u8], number: u32, line: usize) -> Result<usize, Refusal>
    ensures answer { outcome result ≡ first_of (ruled (nat_lt (length out.old) (length (refused_text (told number line)))) 24 (length (refused_text (told number line))) ∷ []) }
    ensures figure { IfOk result (λ n. n ≡ length (refused_text (told number line))) }
    ensures bytes { out.new ≡ (if is_ok result then refused_text (told number line) ++ drop (length (refused_text (told number line))) out.old else out.old) }
{
    let number = u64::from(number);
    let line = line as u64;
    let bytes = 10 + number_length(number) + number_length(line);
    if out.len() < bytes {
        return Err(Refusal::Frame { bytes });
    }
    let mut pen = Pen::new(out);
    pen.word(b"refused ");
    pen.number(number);
    pen.byte(b' ');
    pen.number(line);
    pen.byte(b'\n');
    Ok(pen.at)
}
