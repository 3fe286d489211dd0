// A sheet read into a page, line by line.
ghost use Rattle.std.specs.Prelude.{◌≡◌, true, Some, length, IfErr, IfOk, OnOk};
ghost use Rattle.grammar.specs.Pieces.{lines};
ghost use Rattle.grammar.specs.Rows.{row_of};
ghost use Rattle.model.specs.Charges.{cost};
ghost use Rattle.model.specs.Plan.{plan};
ghost use Rattle.refusal.specs.Refusals.{first_of};
ghost use Rattle.sheet.specs.Answers.{fault_outcome, fault_told};
ghost use Rattle.sheet.specs.Sheets.{blank, end_table, line_table, lines_table, said, with_said};

use crate::fault::Fault;
use crate::page::{Page, Stage};
use grammar::lines::split_line;
use grammar::rows::read_row;
use model::segment::Segment;

// The longest line, without the byte that ends it.
const LONGEST_LINE: usize = 63;

// What is left of a sheet behind its lines: how many bytes, and the number of the line that they would be.
#[derive(Clone, Copy)]
pub(crate) struct Left {
    pub(crate) bytes: usize,
    pub(crate) line: usize,
}

// A plan that is drawn on a page: its segments, and its energy.
#[derive(Drop)]
pub(crate) struct Drawing<'a> {
    pub(crate) segments: &'a [Segment],
    pub(crate) energy: u64,
}

impl Page {
    // Takes a line, without the byte that ends it.
    fn take_line(&mut self, text: &[u8], line: usize) -> Result<(), Fault>
        ensures answer { fault_outcome result ≡ first_of (line_table line self.old text.now) }
        ensures after { OnOk result (self.new ≡ with_said self.old (row_of text.now)) }
    {
        if text.len() > LONGEST_LINE {
            return Err(Fault::Long { line });
        }
        let row = read_row(text).ok_or(Fault::Malformed { line })?;
        self.take(row, line)
    }

    // Takes all lines of a sheet.
    pub(crate) fn read(&mut self, sheet: &[u8]) -> Result<Left, Fault>
        requires { self.old ≡ blank }
        ensures refused { IfErr result (λ e. Some (fault_told e) ≡ first_of (lines_table 1 blank (lines sheet.now))) }
        ensures answer { IfOk result (λ l. first_of (end_table l.line self.new l.bytes) ≡ first_of (lines_table 1 blank (lines sheet.now))) }
        ensures after { IfOk result (λ l. l.bytes ≡ 0 → self.new ≡ said sheet.now) }
    {
        let mut rest = sheet;
        let mut line = 1;
        while let Some((text, after)) = split_line(rest) {
            self.take_line(text, line)?;
            rest = after;
            line += 1;
        }
        Ok(Left {
            bytes: rest.len(),
            line,
        })
    }

    // The plan, if it is drawn and nothing is left behind it.
    pub(crate) fn end(&self, left: Left) -> Result<Drawing<'_>, Fault>
        ensures answer { fault_outcome result ≡ first_of (end_table left.line self.now left.bytes) }
        ensures drawn { OnOk result (self.now.drawn ≡ true) }
        ensures none { OnOk result (left.bytes ≡ 0) }
        ensures plan { IfOk result (λ d. d.segments.now ≡ plan self.now.steps self.now.jobs) }
        ensures energy { IfOk result (λ d. d.energy ≡ cost self.now.steps self.now.jobs) }
    {
        match self.stage {
            Stage::Drawn(planned) if left.bytes == 0 => Ok(Drawing {
                segments: &self.segments[..planned.segments],
                energy: planned.energy,
            }),
            _ => Err(Fault::Malformed { line: left.line }),
        }
    }
}
