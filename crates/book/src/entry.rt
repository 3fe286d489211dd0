// Making a book, entering jobs and striking the last.
ghost use Rattle.std.specs.Prelude.{◌≡◌, IfOk};
ghost use Rattle.book.specs.Books.{state, said, SoundWith};
ghost use Rattle.book.specs.Calls.{new, answer, after};
ghost use Rattle.book.specs.Calls.Call.{enters, strikes};

use crate::book::Book;
use charges::charges::Charges;
use model::job::Job;
use queue::queue::Queue;
use refusal::refusal::Refusal;
use std::alloc::{AllocError, Global};

impl Book {
    // A book without jobs, hold or charges, with memory for all that it will ever hold.
    pub fn new(heap: Global, number: u16) -> Result<Book, AllocError>
        ensures { IfOk result (λ b. state b ≡ new number) }
    {
        let queue = Queue::new(heap)?;
        let charges = Charges::new();
        Ok(Book {
            number,
            queue,
            held: None,
            charges,
        })
    }

    // Puts a job at the end.
    pub fn enter(&mut self, job: Job) -> Result<(), Refusal>
        ensures answer { said result ≡ answer (state self.old) (enters job) }
        ensures state { state self.new ≡ after (state self.old) (enters job) }
        ensures sound { SoundWith (state self.old) (state self.new) (enters job) }
    {
        if self.held.is_some() {
            return Err(Refusal::Held);
        }
        self.queue.push(job)
    }

    // Removes the last job.
    pub fn strike(&mut self) -> Result<(), Refusal>
        ensures answer { said result ≡ answer (state self.old) strikes }
        ensures state { state self.new ≡ after (state self.old) strikes }
        ensures sound { SoundWith (state self.old) (state self.new) strikes }
    {
        if self.held.is_some() {
            return Err(Refusal::Held);
        }
        if self.queue.len() == 0 {
            return Err(Refusal::Bare);
        }
        self.queue.pop();
        Ok(())
    }
}
