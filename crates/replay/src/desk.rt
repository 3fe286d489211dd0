// The book that calls are replayed on, with what stands beside it.
use crate::answer::{Answer, Said};
use crate::call::Call;
use crate::keeper::Keeper;
use crate::machine::Machine;
use crate::slips::Way;
use anyhow::anyhow;
use model::segment::Segment;
use processor::ladder::Ladder;
use refusal::refusal::Refusal;
use std::alloc::{AllocError, Global};
use std::mem;

// A desk: the book with the slip of its open hold, and the processor of its calls, which outlasts the book.
pub struct Desk {
    heap: Global,
    keeper: Keeper,
    machine: Machine,
}

impl Desk {
    // A desk with an empty book.
    pub fn new(heap: Global) -> Result<Desk, AllocError> {
        let keeper = Keeper::new(heap, 0)?;
        Ok(Desk {
            heap,
            keeper,
            machine: Machine::Ladder(Ladder::smallest()),
        })
    }

    // Ends the desk: the slip of an open hold is released.
    pub fn leave(self) {
        let Desk {
            heap: _,
            keeper,
            machine: _,
        } = self;
        keeper.leave();
    }

    // Puts a new book in the place of the old, whose open hold is released.
    fn open(&mut self, number: u16) -> Result<(), AllocError> {
        let opened = Keeper::new(self.heap, number)?;
        mem::replace(&mut self.keeper, opened).leave();
        Ok(())
    }

    // Brings a slip of this number: the one that is kept, or one of another book.
    fn bring(&mut self, number: u16, way: Way) -> anyhow::Result<Answer> {
        let brought = self.keeper.bring(self.heap, number, way)?;
        Ok(brought.map(Said::from))
    }

    // Plans into this buffer, and answers what stands in it then.
    fn plan_into(&self, buffer: &mut [Segment]) -> anyhow::Result<Answer> {
        match self.machine.plan(self.keeper.book(), buffer) {
            Ok(planned) => {
                let written = buffer.iter().take(planned.segments);
                let segments = written.copied().collect(self.heap)?;
                Ok(Ok(Said::Plan(planned, segments)))
            }
            Err(why) => Ok(Err(why)),
        }
    }

    // Plans into a buffer of the given length.
    fn plan(&self, room: usize) -> anyhow::Result<Answer> {
        let mut buffer = [Segment::default(); 1024];
        let Some(lent) = buffer.get_mut(..room) else {
            return Err(anyhow!("a buffer is longer than 1,024 segments"));
        };
        self.plan_into(lent)
    }

    // Has a processor stand from now on, unless it is refused.
    fn make(&mut self, made: Result<Machine, Refusal>) -> Answer {
        self.machine = made?;
        Ok(Said::Done)
    }

    // What the book answers to a call.
    pub fn answer(&mut self, call: Call) -> anyhow::Result<Answer> {
        match call {
            Call::Book(number) => {
                self.open(number)?;
                Ok(Ok(Said::Done))
            }
            Call::Ladder(made) => Ok(self.make(made.map(Machine::from))),
            Call::Formula(figures) => Ok(self.make(figures.formula().map(Machine::from))),
            Call::Enter(job) => Ok(self.keeper.enter(job).map(Said::from)),
            Call::Hold(job) => Ok(self.machine.hold(&mut self.keeper, job).map(Said::from)),
            Call::Take(number) => self.bring(number, Way::Take),
            Call::Release(number) => self.bring(number, Way::Release),
            Call::Strike => Ok(self.keeper.strike().map(Said::from)),
            Call::Plan(room) => self.plan(room),
            Call::Close => Ok(self.machine.close(&mut self.keeper).map(Said::from)),
            Call::Charge(account) => Ok(self.keeper.book().charge(account).map(Said::from)),
            Call::Count => Ok(Ok(Said::Figure(self.keeper.book().count() as u64))),
        }
    }
}
