// What calls answer, and how an answer is written.
use model::segment::Segment;
use planner::plan::Planned;
use refusal::refusal::Refusal;
use std::alloc::{AllocError, Global};
use std::fmt;

// What an accepted call says: a plain yes; a price, an energy or a number; or a plan and its segments.
#[derive(Drop)]
pub enum Said {
    Done,
    Figure(u64),
    Plan(Planned, Vec<Segment>),
}

// An answer: what the call says, or why it is refused.
pub type Answer = Result<Said, Refusal>;

impl From<()> for Said {
    fn from(_: ()) -> Said {
        Said::Done
    }
}

impl From<u64> for Said {
    fn from(figure: u64) -> Said {
        Said::Figure(figure)
    }
}

// As it stands in a list after the equals sign: a plan is its two figures, and its segments after a colon.
impl fmt::Display for Said {
    fn fmt<W: fmt::Write>(&self, f: &mut fmt::Formatter<W>) -> fmt::Result {
        match self {
            Said::Done => write!(f, "ok"),
            Said::Figure(figure) => write!(f, "{figure}"),
            Said::Plan(planned, segments) => {
                let count = planned.segments;
                let energy = planned.energy;
                write!(f, "{count} {energy} :")?;
                for segment in segments {
                    write!(f, " {segment}")?;
                }
                Ok(())
            }
        }
    }
}

// An answer as it stands in a list after the equals sign.
pub fn text(answer: &Answer, heap: Global) -> Result<String, AllocError> {
    match answer {
        Ok(said) => said.to_string(heap),
        Err(why) => {
            let number = why.number();
            let detail = why.detail();
            format!(in heap; "refused {number} {detail}")
        }
    }
}
