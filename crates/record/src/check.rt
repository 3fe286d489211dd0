// A whole record checked, and one that passes read into a buffer.
ghost use Rattle.std.specs.Prelude.{◌≡◌, true, [], length};
ghost use Rattle.record.specs.Checks.{Checks, accepted};
ghost use Rattle.record.specs.Got.{got};
ghost use Rattle.record.specs.Reading.{read_segments};

use crate::numbers::Reader;
use crate::segments::Tail;
use model::segment::Segment;
use refusal::refusal::Refusal;

// What a record that passes says: its number of segments, their bytes, and the step at the tick asked for.
#[derive(Clone, Copy)]
pub(crate) struct Passed<'a> {
    pub(crate) count: usize,
    pub(crate) segments: &'a [u8],
    pub(crate) step: Option<usize>,
}

// How many segments a record has at the most.
const MOST_SEGMENTS: u64 = 1024;

// Checks all that follows the kind, by a processor of so many steps, where there is room for so many segments.
pub(crate) fn check<'a>(
    bytes: &'a [u8],
    steps: usize,
    room: usize,
    tick: u64,
) -> Result<Passed<'a>, Refusal>
    ensures { Checks bytes.now steps room tick result }
{
    let mut reader = Reader { rest: bytes };
    let count = reader.read_number()?;
    if count > MOST_SEGMENTS {
        return Err(Refusal::Segments);
    }
    if count > room as u64 {
        return Err(Refusal::Room { segments: 0 });
    }
    let segments = reader.rest;
    let mut tail = Tail::start(steps);
    let mut step = 0;
    for _ in 0..count {
        let start = tail.ticks;
        let segment = reader.read_segment(&mut tail)?;
        if start <= tick {
            step = segment.step;
        }
    }
    if !reader.rest.is_empty() {
        return Err(Refusal::Surplus);
    }
    Ok(Passed {
        count: count as usize,
        segments,
        step: (tick < tail.ticks).then_some(step),
    })
}

// Puts segments that pass into a part of a buffer that is as long.
pub(crate) fn fill(segments: &[u8], steps: usize, part: &mut [Segment])
    requires { accepted (read_segments (length part.old) steps steps 0 segments.now) ≡ true }
    ensures { read_segments (length part.old) steps steps 0 segments.now ≡ got part.new [] }
{
    let mut reader = Reader { rest: segments };
    let mut tail = Tail::start(steps);
    for slot in part.iter_mut() {
        let Ok(segment) = reader.read_segment(&mut tail) else {
            unreachable()
        };
        *slot = segment;
    }
}
