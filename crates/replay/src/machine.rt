// The processor that stands while calls are replayed.
use crate::keeper::Keeper;
use book::book::Book;
use model::job::Job;
use model::segment::Segment;
use planner::plan::Planned;
use processor::formula::Formula;
use processor::ladder::Ladder;
use refusal::refusal::Refusal;

// A processor of either kind.
#[derive(Clone, Copy)]
pub enum Machine {
    Ladder(Ladder),
    Formula(Formula),
}

impl From<Ladder> for Machine {
    fn from(ladder: Ladder) -> Machine {
        Machine::Ladder(ladder)
    }
}

impl From<Formula> for Machine {
    fn from(formula: Formula) -> Machine {
        Machine::Formula(formula)
    }
}

impl Machine {
    // Holds a job in a book on this processor, and answers the price.
    pub fn hold(&self, keeper: &mut Keeper, job: Job) -> Result<u64, Refusal> {
        match self {
            Machine::Ladder(ladder) => keeper.hold(job, ladder),
            Machine::Formula(formula) => keeper.hold(job, formula),
        }
    }

    // Plans a book on this processor.
    pub fn plan(&self, book: &Book, buffer: &mut [Segment]) -> Result<Planned, Refusal> {
        match self {
            Machine::Ladder(ladder) => book.plan(ladder, buffer),
            Machine::Formula(formula) => book.plan(formula, buffer),
        }
    }

    // Closes a book on this processor.
    pub fn close(&self, keeper: &mut Keeper) -> Result<u64, Refusal> {
        match self {
            Machine::Ladder(ladder) => keeper.close(ladder),
            Machine::Formula(formula) => keeper.close(formula),
        }
    }
}
