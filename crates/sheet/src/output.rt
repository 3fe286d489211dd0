// What the plan program prints.
ghost use Rattle.std.specs.Prelude.{◌≡◌, ◌<◌, [], ◌∷◌, ◌++◌, length, MatchResult};
ghost use Rattle.refusal.specs.Refusals.{outcome, first_of, line as ruled};
ghost use Rattle.sheet.specs.Answers.{fitting, printed, Prints};

use crate::drawing::draw;
use crate::refused::refused_line;
use refusal::refusal::Refusal;
use std::alloc::{AllocError, Global};

// Writes what a sheet gives from the buffer's start: the text of its plan, or else the refused line. Answers its length; where the
// buffer is too short even for the refused line, nothing is written.
pub fn print_sheet(
    heap: Global,
    sheet: &[u8],
    out: &mut [u8],
) -> Result<Result<usize, Refusal>, AllocError>
    ensures { MatchResult result (λ a. fitting (printed (length out.old) sheet.now) out.old out.new a) (λ _. out.new ≡ out.old) }
{
    match draw(heap, sheet, out)? {
        Ok(length) => Ok(Ok(length)),
        Err(fault) => Ok(refused_line(fault, out)),
    }
}

// Writes what a sheet gives from the buffer's start, and answers its length, or 0 where nothing was written: there is no memory for a
// book, or the buffer is too short even for the refused line.
pub fn nofjerm_plan_sheet(heap: Global, sheet: &[u8], out: &mut [u8]) -> usize
    ensures { Prints (printed (length out.old) sheet.now) out.old out.new result }
{
    let Ok(answer) = print_sheet(heap, sheet, out) else {
        return 0;
    };
    answer.unwrap_or(0)
}
