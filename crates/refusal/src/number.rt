// The number and the detail of a refusal.
ghost use Rattle.std.specs.Prelude.{◌≡◌};
ghost use Rattle.refusal.specs.Refusals.{exponent, told_of};

use crate::refusal::Refusal;
use crate::term::Term;

impl Term {
    // The exponent of the step's number in this term.
    pub fn exponent(self) -> usize
        ensures { result ≡ exponent self }
    {
        match self {
            Term::Constant => 0,
            Term::Linear => 1,
            Term::Cubic => 3,
        }
    }
}

impl Refusal {
    // The number by which the refusal is known.
    pub fn number(self) -> u32
        ensures { result ≡ (told_of self).number }
    {
        match self {
            Refusal::Count => 1,
            Refusal::Speed { .. } => 2,
            Refusal::Power { .. } => 3,
            Refusal::Gap { .. } => 4,
            Refusal::Bend { .. } => 5,
            Refusal::Stride => 6,
            Refusal::Coefficient { .. } => 7,
            Refusal::Held => 8,
            Refusal::Full => 9,
            Refusal::Times => 10,
            Refusal::Work => 11,
            Refusal::Account => 12,
            Refusal::Order => 13,
            Refusal::Bare => 14,
            Refusal::Slip => 15,
            Refusal::Want { .. } => 16,
            Refusal::Price => 17,
            Refusal::Room { .. } => 18,
            Refusal::Limit => 19,
            Refusal::Segments => 20,
            Refusal::Lacking => 21,
            Refusal::Repeated => 22,
            Refusal::Ticks => 23,
            Refusal::Frame { .. } => 24,
            Refusal::Ended => 25,
            Refusal::Malformed => 26,
            Refusal::Kind => 27,
            Refusal::Surplus => 28,
            Refusal::Past => 29,
        }
    }

    // What the refusal points at, 0 where there is nothing to point at.
    pub fn detail(self) -> usize
        ensures { result ≡ (told_of self).detail }
    {
        match self {
            Refusal::Speed { step } => step,
            Refusal::Power { step } => step,
            Refusal::Gap { step } => step,
            Refusal::Bend { step } => step,
            Refusal::Coefficient { term } => term.exponent(),
            Refusal::Want { job } => job,
            Refusal::Room { segments } => segments,
            Refusal::Frame { bytes } => bytes,
            _ => 0,
        }
    }
}
