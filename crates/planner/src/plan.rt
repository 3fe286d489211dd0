// The planning call.
ghost use Rattle.std.specs.Prelude.{◌≡◌, ◌+◌, [], ◌∷◌, ◌++◌, length, drop, is_ok, IfOk, if◌then◌else◌};
ghost use Rattle.model.specs.Charges.{cost};
ghost use Rattle.model.specs.Plan.{plan};
ghost use Rattle.planner.specs.Planning.{want_line, plan_lines, Worth};
ghost use Rattle.queue.specs.Meaning.{jobs_of};
ghost use Rattle.refusal.specs.Refusals.{outcome, first_of};

use crate::draft::Draft;
use model::segment::Segment;
use processor::processor::Processor;
use queue::queue::Queue;
use refusal::refusal::Refusal;

// What an accepted plan answers: how many segments it has, and its energy.
#[derive(Clone, Copy, PartialEq, Eq, Debug)]
pub struct Planned {
    pub segments: usize,
    pub energy: u64,
}

// Writes the plan of least energy of the queue on a processor from the start of the buffer; the rest of the buffer is unchanged.
pub fn plan<P: Processor>(
    queue: &Queue,
    processor: &P,
    buffer: &mut [Segment],
) -> Result<Planned, Refusal>
    ensures answer { outcome result ≡ first_of (plan_lines (P.Processor.steps processor.now) (jobs_of queue.now) (length buffer.old)) }
    ensures figures { IfOk result (λ a. (a.segments ≡ length (plan (P.Processor.steps processor.now) (jobs_of queue.now))) × (a.energy ≡ cost (P.Processor.steps processor.now) (jobs_of queue.now))) }
    ensures buffer { buffer.new ≡ (if is_ok result then plan (P.Processor.steps processor.now) (jobs_of queue.now) ++ drop (length (plan (P.Processor.steps processor.now) (jobs_of queue.now))) buffer.old else buffer.old) }
    ensures worth { Worth (P.Processor.steps processor.now) (jobs_of queue.now) }
{
    let mut draft = Draft::blank();
    draft.work_out(queue, processor)?;
    let segments = draft.segments().len();
    if buffer.len() < segments {
        return Err(Refusal::Room { segments });
    }
    buffer[..segments].copy_from_slice(draft.segments());
    Ok(Planned {
        segments,
        energy: draft.energy(),
    })
}

// The energy of the plan of the queue on a processor, which is the least.
pub fn least_energy<P: Processor>(queue: &Queue, processor: &P) -> Result<u64, Refusal>
    ensures answer { outcome result ≡ first_of (want_line (P.Processor.steps processor.now) (jobs_of queue.now) ∷ []) }
    ensures figure { IfOk result (λ e. e ≡ cost (P.Processor.steps processor.now) (jobs_of queue.now)) }
    ensures worth { Worth (P.Processor.steps processor.now) (jobs_of queue.now) }
{
    let mut draft = Draft::blank();
    draft.work_out(queue, processor)?;
    Ok(draft.energy())
}
