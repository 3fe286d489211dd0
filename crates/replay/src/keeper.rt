// A book with the slip of its open hold beside it.
ghost use Rattle.std.specs.Prelude.{◌≡◌, true};
ghost use Rattle.book.specs.Books.{state};
ghost use Rattle.replay.specs.Keeping.{fits};

use crate::slips::{Way, bring_other};
use book::book::Book;
use book::slip::Slip;
use model::job::Job;
use processor::processor::Processor;
use refusal::refusal::Refusal;
use std::alloc::{AllocError, Global};

// A book, its number, and the slip of its open hold, which can always be spent there.
pub struct Keeper {
    number: u16,
    book: Book,
    slip: Option<Slip>,
    ghost numbered: { (state book).number ≡ number },
    ghost spendable: { fits (state book) slip ≡ true },
}

impl Keeper {
    // An empty book.
    pub fn new(heap: Global, number: u16) -> Result<Keeper, AllocError> {
        let book = Book::new(heap, number)?;
        Ok(Keeper {
            number,
            book,
            slip: None,
        })
    }

    // Ends the book: the slip of an open hold is released.
    pub fn leave(self) {
        let Keeper {
            number: _,
            mut book,
            slip,
        } = self;
        if let Some(slip) = slip {
            match book.release(slip) {
                Ok(()) => {}
                Err((_slip, _why)) => unreachable(),
            }
        }
    }

    // The book, to be asked.
    pub fn book(&self) -> &Book {
        &self.book
    }

    // Puts a job at the end.
    pub fn enter(&mut self, job: Job) -> Result<(), Refusal> {
        self.book.enter(job)
    }

    // Removes the last job.
    pub fn strike(&mut self) -> Result<(), Refusal> {
        self.book.strike()
    }

    // Closes the book on a processor, and answers the energy.
    pub fn close<P: Processor>(&mut self, processor: &P) -> Result<u64, Refusal> {
        self.book.close(processor)
    }

    // Holds a job, keeps the slip, and answers its price.
    pub fn hold<P: Processor>(&mut self, job: Job, processor: &P) -> Result<u64, Refusal> {
        let slip = self.book.hold(job, processor)?;
        let price = slip.price();
        match self.slip.replace(slip) {
            None => Ok(price),
            Some(_before) => unreachable(),
        }
    }

    // Brings a slip of this number: the one that is kept, or one of another book.
    pub fn bring(
        &mut self,
        heap: Global,
        number: u16,
        way: Way,
    ) -> anyhow::Result<Result<(), Refusal>> {
        if number != self.number {
            return bring_other(heap, &mut self.book, number, way);
        }
        match self.slip.take() {
            None => bring_other(heap, &mut self.book, number, way),
            Some(slip) => match way.bring(&mut self.book, slip) {
                Ok(()) => Ok(Ok(())),
                Err((_slip, _why)) => unreachable(),
            },
        }
    }
}
