// Rows taken into a page.
ghost use Rattle.std.specs.Prelude.{◌≡◌, false, IfOk, OnOk};
ghost use Rattle.grammar.specs.declared.row.Row.TheVariants.{Rung, Task, Draw};
ghost use Rattle.processor.specs.Meanings.{ladder_steps};
ghost use Rattle.refusal.specs.Refusals.{outcome, first_of};
ghost use Rattle.sheet.specs.Answers.{fault_outcome};
ghost use Rattle.sheet.specs.Sheets.{beneath, blank, ladder_lines, row_table, with_row};

use crate::fault::Fault;
use crate::page::{Page, Stage};
use arrayvec::ArrayVec;
use book::book::Book;
use grammar::row::Row;
use model::job::Job;
use model::segment::Segment;
use model::step::Step;
use processor::ladder::Ladder;
use refusal::refusal::Refusal;
use std::alloc::{AllocError, Global};

impl Page {
    // A page on which nothing is read yet.
    pub(crate) fn new(heap: Global) -> Result<Page, AllocError>
        ensures { IfOk result (λ p. p ≡ blank) }
    {
        Ok(Page {
            steps: ArrayVec::new(),
            book: Book::new(heap, 0)?,
            stage: Stage::Rungs,
            segments: [Segment { step: 0, ticks: 0 }; 1024],
        })
    }

    // The ladder of the steps.
    fn ladder(&self) -> Result<Ladder, Refusal>
        ensures answer { outcome result ≡ first_of (ladder_lines self.now.steps) }
        ensures made { IfOk result (λ l. ladder_steps l ≡ self.now.steps) }
    {
        match self.stage {
            Stage::Tasks(ladder) => Ok(ladder),
            _ => Ladder::of(self.steps.as_slice()),
        }
    }

    // Enters a job.
    fn take_task(&mut self, job: Job) -> Result<(), Refusal>
        requires { self.old.drawn ≡ false }
        ensures answer { outcome result ≡ first_of (beneath self.old (Task job)) }
        ensures after { OnOk result (self.new ≡ with_row self.old (Task job)) }
    {
        if let Stage::Tasks(_) = self.stage {
            self.book.enter(job)?;
            return Ok(());
        }
        let ladder = self.ladder()?;
        self.book.enter(job)?;
        self.stage = Stage::Tasks(ladder);
        Ok(())
    }

    // Draws the plan.
    fn draw(&mut self) -> Result<(), Refusal>
        requires { self.old.drawn ≡ false }
        ensures answer { outcome result ≡ first_of (beneath self.old Draw) }
        ensures after { OnOk result (self.new ≡ with_row self.old Draw) }
    {
        let ladder = self.ladder()?;
        let planned = self.book.plan(&ladder, &mut self.segments)?;
        self.stage = Stage::Drawn(planned);
        Ok(())
    }

    // Takes a step, if it is in its place.
    fn place_rung(&mut self, step: Step, line: usize) -> Result<(), Fault>
        requires { self.old.drawn ≡ false }
        ensures answer { fault_outcome result ≡ first_of (row_table line self.old (Rung step)) }
        ensures after { OnOk result (self.new ≡ with_row self.old (Rung step)) }
    {
        let Stage::Rungs = self.stage else {
            return Err(Fault::Malformed { line });
        };
        self.steps
            .try_push(step)
            .map_err(|_| Fault::Malformed { line })
    }

    // Takes what line number `line` says.
    pub(crate) fn take(&mut self, row: Row, line: usize) -> Result<(), Fault>
        ensures answer { fault_outcome result ≡ first_of (row_table line self.old row) }
        ensures after { OnOk result (self.new ≡ with_row self.old row) }
    {
        if let Stage::Drawn(_) = self.stage {
            return Err(Fault::Malformed { line });
        }
        match row {
            Row::Rung(step) => self.place_rung(step, line),
            Row::Task(job) => self.take_task(job).map_err(|_| Fault::Refused { line }),
            Row::Draw => self.draw().map_err(|_| Fault::Refused { line }),
        }
    }
}
