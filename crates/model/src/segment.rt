// One stretch of a plan.
use std::fmt;

// A segment: step number `step` for `ticks` ticks.
#[derive(Clone, Copy, Default, PartialEq, Eq, Debug)]
pub struct Segment {
    pub step: usize,
    pub ticks: u64,
}

impl fmt::Display for Segment {
    ghost use Rattle.std.specs.Prelude.{Some};
    ghost use Rattle.model.specs.Shown.{segment_words};

    ghost output = { λ s. Some (segment_words s) };

    fn fmt<W: fmt::Write>(&self, f: &mut fmt::Formatter<W>) -> fmt::Result {
        let step = self.step;
        let ticks = self.ticks;
        write!(f, "{step}:{ticks}")
    }
}
