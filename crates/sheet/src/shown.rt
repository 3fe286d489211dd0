// A fault as text: its number, and its line in brackets.
ghost use Rattle.std.specs.Prelude.{Some};
ghost use Rattle.refusal.specs.Refusals.{told_text};
ghost use Rattle.sheet.specs.Answers.{fault_told};

use crate::fault::Fault;
use std::error::Error;
use std::fmt;

impl fmt::Display for Fault {
    ghost output = { λ f. Some (told_text (fault_told f)) };

    fn fmt<W: fmt::Write>(&self, f: &mut fmt::Formatter<W>) -> fmt::Result {
        let number = self.number();
        let line = self.line();
        write!(f, "{number} ({line})")
    }
}

impl Error for Fault {}
