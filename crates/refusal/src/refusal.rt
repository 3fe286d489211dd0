// The refusals of every call.
use crate::term::Term;

// A refusal. Its number and its detail are those of `told_of`.
#[derive(Clone, Copy, PartialEq, Eq, Debug)]
pub enum Refusal {
    // a processor has fewer than 2 steps or more than 16
    Count,
    // a speed is at odds with those before it
    Speed { step: usize },
    // a power is at odds with those before it
    Power { step: usize },
    // the gap up to a speed does not divide 5,040
    Gap { step: usize },
    // power rises less for its speed than it did a step before
    Bend { step: usize },
    // the stride of a formula is no divisor of 5,040 up to 252
    Stride,
    // a coefficient of a formula is above its limit
    Coefficient { term: Term },
    // a hold is open
    Held,
    // 256 jobs stand
    Full,
    // a job's arrival is not below its deadline, or its deadline is above 200,000
    Times,
    // a job's work is 0 or above 1,000,000
    Work,
    // an account is not from 1 to 64
    Account,
    // a job's arrival or deadline is below that of the last job
    Order,
    // no job stands
    Bare,
    // no hold is open, or the slip is of another book
    Slip,
    // speed is wanting for the jobs up to this one, counted from 1
    Want { job: usize },
    // the price of a job is below zero
    Price,
    // the buffer is shorter than the plan
    Room { segments: usize },
    // all charges together would pass 4,000,000,000,000,000,000
    Limit,
    // a record has more than 1,024 segments
    Segments,
    // a segment has a step that the processor lacks
    Lacking,
    // a segment has no ticks, or the step of the segment before it
    Repeated,
    // the segments have more than 1,008,000,000 ticks together
    Ticks,
    // the frame is too short for the record, which takes this many bytes
    Frame { bytes: usize },
    // the frame ends before the record does
    Ended,
    // a number is not in the fewest bytes, or goes on past its fifth
    Malformed,
    // the record is of another kind of processor
    Kind,
    // bytes are left over after the record
    Surplus,
    // the tick is at or past the end of the plan
    Past,
}
