// A fault as text.
ghost use Rattle.std.specs.Prelude.{◌≡◌, [], ◌∷◌, ◌++◌, length, drop, is_ok, IfOk, if◌then◌else◌, nat_lt};
ghost use Rattle.print.specs.Texts.{refused_text};
ghost use Rattle.refusal.specs.Refusals.{outcome, first_of, line as ruled};
ghost use Rattle.sheet.specs.Answers.{fault_told};

use crate::fault::Fault;
use print::refused::put_refused;
use refusal::refusal::Refusal;

impl Fault {
    // The number by which the fault is known.
    pub fn number(self) -> u32
        ensures { result ≡ (fault_told self).number }
    {
        match self {
            Fault::Bytes => 33,
            Fault::Room => 24,
            Fault::Long { .. } => 31,
            Fault::Malformed { .. } => 30,
            Fault::Refused { .. } => 32,
        }
    }

    // The line that it names, 0 where it names none.
    pub fn line(self) -> usize
        ensures { result ≡ (fault_told self).detail }
    {
        match self {
            Fault::Bytes | Fault::Room => 0,
            Fault::Long { line } | Fault::Malformed { line } | Fault::Refused { line } => line,
        }
    }
}

// Writes the refused line of a fault from the buffer's start, and answers its length.
pub fn refused_line(fault: Fault, out: &mut [u8]) -> Result<usize, Refusal>
    ensures answer { outcome result ≡ first_of (ruled (nat_lt (length out.old) (length (refused_text (fault_told fault)))) 24 (length (refused_text (fault_told fault))) ∷ []) }
    ensures figure { IfOk result (λ n. n ≡ length (refused_text (fault_told fault))) }
    ensures buffer { out.new ≡ (if is_ok result then refused_text (fault_told fault) ++ drop (length (refused_text (fault_told fault))) out.old else out.old) }
{
    put_refused(out, fault.number(), fault.line())
}
