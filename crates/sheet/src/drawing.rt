// The plan of a sheet, as text.
ghost use Rattle.std.specs.Prelude.{◌≡◌, ◌≤◌, length, IfOk, MatchResult};
ghost use Rattle.grammar.specs.Pieces.{lines};
ghost use Rattle.refusal.specs.Refusals.{first_of};
ghost use Rattle.sheet.specs.Answers.{drawn_text, fault_reply, filled_unless, length_unless, sheet_answer, sheet_filled};
ghost use Rattle.sheet.specs.Laws.{IsPrinted, ReadsBack};
ghost use Rattle.sheet.specs.Sheets.{blank, lines_table};

use crate::fault::Fault;
use crate::page::Page;
use print::plan::put_plan;
use std::alloc::{AllocError, Global};

// The most bytes that a sheet may have.
const MOST_BYTES: usize = 32_768;

// The least room that the plan's text is given.
const LEAST_ROOM: usize = 16_384;

impl Page {
    // Reads a sheet, and writes its plan as text from the buffer's start.
    fn fill(&mut self, sheet: &[u8], out: &mut [u8]) -> Result<usize, Fault>
        requires blank { self.old ≡ blank }
        requires room { 16384 ≤ length out.old }
        ensures answer { fault_reply result ≡ length_unless (first_of (lines_table 1 blank (lines sheet.now))) (drawn_text sheet.now) }
        ensures buffer { out.new ≡ filled_unless (first_of (lines_table 1 blank (lines sheet.now))) (drawn_text sheet.now) out.old }
    {
        let left = self.read(sheet)?;
        let drawing = self.end(left)?;
        Ok(put_plan(out, drawing.segments, drawing.energy))
    }
}

// Reads a sheet, and writes its plan as text from the buffer's start: each segment's step and ticks on a line, and then the energy.
// Answers how long the text is, or why the sheet is refused; the rest of the buffer, or all of it, stays as it was. Only a want of
// memory for the book is an error.
pub fn draw(heap: Global, sheet: &[u8], out: &mut [u8]) -> Result<Result<usize, Fault>, AllocError>
    ensures answer { IfOk result (λ a. fault_reply a ≡ sheet_answer (length out.old) sheet.now) }
    ensures buffer { MatchResult result (λ _. out.new ≡ sheet_filled sheet.now out.old) (λ _. out.new ≡ out.old) }
    ensures back { IfOk result (λ a. ReadsBack sheet.now out.old out.new a) }
    ensures exact { IfOk result (λ a. IsPrinted sheet.now a) }
{
    if sheet.len() > MOST_BYTES {
        return Ok(Err(Fault::Bytes));
    }
    if out.len() < LEAST_ROOM {
        return Ok(Err(Fault::Room));
    }
    let mut page = Page::new(heap)?;
    Ok(page.fill(sheet, out))
}
