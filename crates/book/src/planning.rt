// Planning the standing jobs.
ghost use Rattle.std.specs.Prelude.{◌≡◌};
ghost use Rattle.book.specs.Books.{state, said_plan, SoundWith, kept_buffer};
ghost use Rattle.book.specs.Calls.{answer};
ghost use Rattle.book.specs.Calls.Call.{plans};

use crate::book::Book;
use model::segment::Segment;
use planner::plan::{Planned, plan};
use processor::processor::Processor;
use refusal::refusal::Refusal;

impl Book {
    // Writes the plan of the standing jobs from the buffer's start, and answers its number of segments and its energy.
    pub fn plan<P: Processor>(
        &self,
        processor: &P,
        buffer: &mut [Segment],
    ) -> Result<Planned, Refusal>
        ensures answer { said_plan buffer.new result ≡ answer (state self.now) (plans (P.Processor.steps processor.now) buffer.old) }
        ensures buffer { kept_buffer result buffer.old buffer.new }
        ensures sound { SoundWith (state self.now) (state self.now) (plans (P.Processor.steps processor.now) buffer.old) }
    {
        if self.held.is_some() {
            return Err(Refusal::Held);
        }
        plan(&self.queue, processor, buffer)
    }
}
