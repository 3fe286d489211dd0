// Closing a book's day.
ghost use Rattle.std.specs.Prelude.{◌≡◌};
ghost use Rattle.book.specs.Books.{state, said_energy, SoundWith};
ghost use Rattle.book.specs.Calls.{answer, after};
ghost use Rattle.book.specs.Calls.Call.{closes};

use crate::book::Book;
use charges::settle::settle;
use planner::draft::Draft;
use processor::processor::Processor;
use refusal::refusal::Refusal;

impl Book {
    // Charges the energy of the plan of the standing jobs, removes them all, and answers the energy.
    pub fn close<P: Processor>(&mut self, processor: &P) -> Result<u64, Refusal>
        ensures answer { said_energy result ≡ answer (state self.old) (closes (P.Processor.steps processor.now)) }
        ensures state { state self.new ≡ after (state self.old) (closes (P.Processor.steps processor.now)) }
        ensures sound { SoundWith (state self.old) (state self.new) (closes (P.Processor.steps processor.now)) }
    {
        if self.held.is_some() {
            return Err(Refusal::Held);
        }
        let mut draft = Draft::blank();
        draft.work_out(&self.queue, processor)?;
        let energy = draft.energy();
        if energy > 4_000_000_000_000_000_000 - self.charges.total() {
            return Err(Refusal::Limit);
        }
        settle(
            &mut self.charges,
            self.queue.jobs(),
            processor,
            draft.segments(),
        );
        self.queue.clear();
        Ok(energy)
    }
}
