// Reading a record.
ghost use Rattle.std.specs.Prelude.{◌≡◌, length, take, drop, IfOk};
ghost use Rattle.record.specs.Got.{counted, filled, reply};
ghost use Rattle.record.specs.Reading.{read_record};
ghost use Rattle.record.specs.Writing.{record_bytes};

use crate::check::{check, fill};
use crate::numbers::Reader;
use model::segment::Segment;
use processor::processor::Processor;
use refusal::refusal::Refusal;

// Reads the record that a frame holds from an offset to its end into the start of a buffer, and answers how many segments it has.
pub fn read<P: Processor>(
    processor: &P,
    frame: &[u8],
    offset: usize,
    buffer: &mut [Segment],
) -> Result<usize, Refusal>
    ensures answer { reply result ≡ counted (read_record P.Processor.bears (length (P.Processor.steps processor.now)) (length buffer.old) (drop offset frame.now)) }
    ensures after { buffer.new ≡ filled (read_record P.Processor.bears (length (P.Processor.steps processor.now)) (length buffer.old) (drop offset frame.now)) buffer.old }
    ensures exact { IfOk result (λ n. drop offset frame.now ≡ record_bytes P.Processor.bears (take n buffer.new)) }
{
    let mut reader = Reader::at(frame, offset);
    let kind = reader.read_byte()?;
    if kind != processor.kind_number() {
        return Err(Refusal::Kind);
    }
    let steps = processor.count();
    let passed = check(reader.rest, steps, buffer.len(), 0)?;
    fill(passed.segments, steps, &mut buffer[..passed.count]);
    Ok(passed.count)
}
