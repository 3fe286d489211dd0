// The settling of a plan: ticks are counted by division and charged to who pays for them.
ghost use Rattle.std.specs.Prelude.{◌≡◌, ℕ, ◌+◌, ◌-◌, ◌/◌, ◌<◌, ◌≤◌, min, true, List, [], ◌∷◌, slice_index};
ghost use Rattle.charges.specs.Owing.{owing, settled};
ghost use Rattle.charges.specs.Rows.{rows_of};
ghost use Rattle.model.specs.Charges.{charge};
ghost use Rattle.model.specs.Plan.{ticks_of};
ghost use Rattle.model.specs.declared.segment.Segment.{Segment as Stretch};
ghost use Rattle.queue.specs.Queues.{standing};

use crate::charges::Charges;
use crate::cursor::Cursor;
use model::job::Job;
use model::segment::Segment;
use processor::processor::Processor;

// How many of the ticks that are left begin within the next `grains` grains.
fn own_ticks(grains: u64, speed: u64, left: u64) -> u64
    requires { (0 < speed) × (speed ≤ 4000) × (grains ≤ 5040000000) }
    ensures { result ≡ min left ((grains + (speed - 1)) / speed) }
{
    left.min(grains.div_ceil(speed))
}

// Charges one segment, from a cursor on, and answers where the cursor then is.
fn settle_segment<P: Processor>(
    charges: &mut Charges,
    jobs: &[Job],
    processor: &P,
    segment: Segment,
    start: Cursor,
) -> Cursor
    requires order { standing jobs.now ≡ true }
    requires short { segment.ticks ≤ 1008000000 }
    requires near { start.grain ≤ 5040004000 }
    requires room { (a : ℕ) → a < 65 → owing (P.Processor.steps processor.now) jobs.now (rows_of charges.old) start (segment ∷ []) a ≤ 4000000000000000000 }
    ensures near { result.grain ≤ 5040004000 }
    ensures paid { (rest : List Stretch) (a : ℕ) → owing (P.Processor.steps processor.now) jobs.now (rows_of charges.new) result rest a ≡ owing (P.Processor.steps processor.now) jobs.now (rows_of charges.old) start (segment ∷ rest) a }
{
    let speed = processor.speed(segment.step);
    let power = processor.power(segment.step);
    let mut at = start;
    let mut left = segment.ticks;
    while left > 0 {
        if speed == 0 || at.job >= jobs.len() {
            charges.raise(0, power * left);
            return at;
        }
        let job = jobs[at.job];
        let grains = job.work * 5040;
        if at.grain >= grains {
            at.job += 1;
            at.grain -= grains;
            continue;
        }
        let ticks = own_ticks(grains - at.grain, speed, left);
        charges.raise(job.account as usize, power * ticks);
        at.grain += speed * ticks;
        left -= ticks;
    }
    at
}

// Charges a plan to the accounts of its jobs, and the idle ticks to the house.
pub fn settle<P: Processor>(
    charges: &mut Charges,
    jobs: &[Job],
    processor: &P,
    segments: &[Segment],
)
    requires order { standing jobs.now ≡ true }
    requires short { ticks_of segments.now ≤ 1008000000 }
    requires room { (a : ℕ) → a < 65 → slice_index (rows_of charges.old) a + charge (P.Processor.steps processor.now) jobs.now segments.now a ≤ 4000000000000000000 }
    ensures each { (a : ℕ) → slice_index (rows_of charges.new) a ≡ slice_index (rows_of charges.old) a + charge (P.Processor.steps processor.now) jobs.now segments.now a }
    ensures all { rows_of charges.new ≡ settled (P.Processor.steps processor.now) jobs.now segments.now (rows_of charges.old) 65 }
{
    let mut at = Cursor { job: 0, grain: 0 };
    for segment in segments {
        at = settle_segment(charges, jobs, processor, *segment, at);
    }
}
