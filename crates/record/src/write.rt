// Writing a record.
ghost use Rattle.std.specs.Prelude.{◌≡◌, ℕ, ◌+◌, ◌-◌, ◌≤◌, [], length, take, drop, is_ok, IfOk, if◌then◌else◌, Ok};
ghost use Rattle.frame.specs.Laid.{laid};
ghost use Rattle.record.specs.Got.{got, reply};
ghost use Rattle.record.specs.Reading.{read_record};
ghost use Rattle.record.specs.Writing.{passed, record_bytes, write_answer};

use crate::numbers::{number_length, put_number};
use crate::segments::Tail;
use model::segment::Segment;
use processor::processor::Processor;
use refusal::refusal::Refusal;

// How many bytes the record of these segments takes, by a processor of so many steps.
fn measure(steps: usize, segments: &[Segment]) -> Result<usize, Refusal>
    ensures { reply result ≡ passed steps segments.now (Ok (length (record_bytes 0 segments.now))) }
{
    if segments.len() > 1024 {
        return Err(Refusal::Segments);
    }
    let mut length = 1 + number_length(segments.len() as u64);
    let mut tail = Tail::start(steps);
    for segment in segments {
        if segment.step >= steps {
            return Err(Refusal::Lacking);
        }
        tail.add(*segment)?;
        length += number_length(segment.step as u64) + number_length(segment.ticks);
    }
    Ok(length)
}

// Writes the record of these segments by a kind of processor at a place in a frame.
fn put(frame: &mut [u8], offset: usize, kind: u8, segments: &[Segment])
    requires { offset + length (record_bytes kind segments.now) ≤ length frame.old }
    ensures { frame.new ≡ laid offset (record_bytes kind segments.now) frame.old }
{
    frame[offset] = kind;
    let mut at = put_number(frame, offset + 1, segments.len() as u64);
    for segment in segments {
        at = put_number(frame, at, segment.step as u64);
        at = put_number(frame, at, segment.ticks);
    }
}

// Writes the record of these segments by this processor into a frame from an offset on, and answers its length.
pub fn write<P: Processor>(
    processor: &P,
    segments: &[Segment],
    frame: &mut [u8],
    offset: usize,
) -> Result<usize, Refusal>
    ensures answer { reply result ≡ write_answer P.Processor.bears (length (P.Processor.steps processor.now)) segments.now (length frame.old - offset) }
    ensures after { frame.new ≡ (if is_ok result then laid offset (record_bytes P.Processor.bears segments.now) frame.old else frame.old) }
    ensures back { IfOk result (λ n. (room : ℕ) → length segments.now ≤ room → read_record P.Processor.bears (length (P.Processor.steps processor.now)) room (take n (drop offset frame.new)) ≡ got segments.now []) }
{
    let length = measure(processor.count(), segments)?;
    if frame.len().saturating_sub(offset) < length {
        return Err(Refusal::Frame { bytes: length });
    }
    put(frame, offset, processor.kind_number(), segments);
    Ok(length)
}
