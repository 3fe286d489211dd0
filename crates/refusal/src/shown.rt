// A refusal as text: its number, and its detail in brackets.
ghost use Rattle.std.specs.Prelude.{Some};
ghost use Rattle.refusal.specs.Refusals.{told_of, told_text};

use crate::refusal::Refusal;
use std::error::Error;
use std::fmt;

impl fmt::Display for Refusal {
    ghost output = { λ r. Some (told_text (told_of r)) };

    fn fmt<W: fmt::Write>(&self, f: &mut fmt::Formatter<W>) -> fmt::Result {
        let number = self.number();
        let detail = self.detail();
        write!(f, "{number} ({detail})")
    }
}

impl Error for Refusal {}
