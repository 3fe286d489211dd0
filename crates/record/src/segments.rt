// One segment of a record.
ghost use Rattle.std.specs.Prelude.{◌≡◌, ◌+◌, ◌<◌, ◌≤◌, ◌++◌, IfOk};
ghost use Rattle.record.specs.Got.{seen};
ghost use Rattle.record.specs.Reading.{read_segment};
ghost use Rattle.record.specs.Writing.{joins, most_ticks, segment_bytes};
ghost use Rattle.refusal.specs.Refusals.{outcome, first_of};

use crate::numbers::Reader;
use model::segment::Segment;
use refusal::refusal::Refusal;

// The most ticks that a plan can have.
const MOST_TICKS: u64 = 1_008_000_000;

// How far a plan has come: the steps of its processor, the step of its last segment, and the ticks of all.
#[derive(Clone, Copy)]
pub(crate) struct Tail {
    pub(crate) steps: usize,
    pub(crate) step: usize,
    pub(crate) ticks: u64,
    ghost short: { ticks ≤ most_ticks },
}

impl Tail {
    // Before the first segment; the step is one that is lacking, so that none repeats it.
    pub(crate) fn start(steps: usize) -> Tail
        ensures steps { result.steps ≡ steps }
        ensures first { (result.step ≡ steps) × (result.ticks ≡ 0) }
    {
        Tail {
            steps,
            step: steps,
            ticks: 0,
        }
    }

    // Goes on by a segment, if it may stand next.
    pub(crate) fn add(&mut self, segment: Segment) -> Result<(), Refusal>
        ensures answer { outcome result ≡ first_of (joins self.old.step self.old.ticks segment) }
        ensures steps { self.new.steps ≡ self.old.steps }
        ensures after { IfOk result (λ _. (self.new.step ≡ segment.step) × (self.new.ticks ≡ self.old.ticks + segment.ticks)) }
    {
        if segment.ticks == 0 || segment.step == self.step {
            return Err(Refusal::Repeated);
        }
        if segment.ticks > MOST_TICKS - self.ticks {
            return Err(Refusal::Ticks);
        }
        self.step = segment.step;
        self.ticks += segment.ticks;
        Ok(())
    }
}

impl<'a> Reader<'a> {
    // Reads the next segment of a plan that has come so far.
    pub(crate) fn read_segment(&mut self, tail: &mut Tail) -> Result<Segment, Refusal>
        ensures reads { seen self.new.rest.now result ≡ read_segment tail.old.steps tail.old.step tail.old.ticks self.old.rest.now }
        ensures steps { tail.new.steps ≡ tail.old.steps }
        ensures low { IfOk result (λ s. s.step < tail.old.steps) }
        ensures exact { IfOk result (λ s. self.old.rest.now ≡ segment_bytes s ++ self.new.rest.now) }
        ensures after { IfOk result (λ s. (tail.new.step ≡ s.step) × (tail.new.ticks ≡ tail.old.ticks + s.ticks)) }
    {
        let step = self.read_number()?;
        if step >= tail.steps as u64 {
            return Err(Refusal::Lacking);
        }
        let ticks = self.read_number()?;
        let segment = Segment {
            step: step as usize,
            ticks,
        };
        tail.add(segment)?;
        Ok(segment)
    }
}
