// One straight piece of the path, ready to be drawn.
ghost use Rattle.std.specs.Prelude.{◌≡◌, ◌<◌, ◌≤◌};
ghost use Rattle.model.specs.Plan.{slow_step};

use model::point::Point;
use processor::processor::Processor;

// A lane: piece number `number`, its two ends, its slower step, the speed of that step and the gap to the next. All are within
// limits that keep the arithmetic on them safe.
#[derive(Clone, Copy)]
pub(crate) struct Lane {
    pub(crate) number: usize,
    pub(crate) from: Point,
    pub(crate) to: Point,
    pub(crate) slow: usize,
    pub(crate) speed: u64,
    pub(crate) gap: u64,
    ghost onward: { from.time < to.time },
    ghost soon: { to.time ≤ 200000 },
    ghost low: { from.height ≤ 256000000 },
    ghost high: { to.height ≤ 256000000 },
    ghost slower: { slow < 16 },
    ghost slow_speed: { speed ≤ 4000 },
    ghost some_gap: { 0 < gap },
    ghost least_gap: { gap ≤ 4000 },
}

// The slower of the two neighbouring steps of the piece between two points.
fn slow_step<P: Processor>(processor: &P, from: Point, to: Point) -> usize
    ensures { result ≡ slow_step (P.Processor.steps processor.now) (record { from = from; to = to }) }
{
    let run = u64::from(to.time.saturating_sub(from.time));
    let rise = u64::from(to.height.saturating_sub(from.height));
    let most = processor.count() - 2;
    (0..most)
        .find(|&i| processor.speed(i + 1) * run > rise)
        .unwrap_or(most)
}

impl Lane {
    ghost use Rattle.std.specs.Prelude.{suc, length};
    ghost use Rattle.draw.specs.Lanes.{begin_at, piece_no, fast_of, line, Bounded, IsLane};
    ghost use Rattle.model.specs.Plan.{done_at};

    // Where piece number `number` of the path of these corners begins.
    fn begin_at(corners: &[Point], number: usize) -> Point
        requires { number < length corners.now }
        ensures { result ≡ begin_at corners.now number }
    {
        if number == 0 {
            Point::default()
        } else {
            corners[number - 1]
        }
    }

    // Piece number `number` of the path of these corners.
    pub(crate) fn at<P: Processor>(processor: &P, corners: &[Point], number: usize) -> Lane
        requires known { number < length corners.now }
        requires bounded { Bounded (piece_no corners.now number) }
        ensures { IsLane (P.Processor.steps processor.now) corners.now number result }
    {
        let from = Lane::begin_at(corners, number);
        let to = corners[number];
        let slow = slow_step(processor, from, to);
        let speed = processor.speed(slow);
        let gap = processor.speed(slow + 1).saturating_sub(speed);
        Lane {
            number,
            from,
            to,
            slow,
            speed,
            gap,
        }
    }

    // Moves on to the next piece if this one has ended by time `s`.
    pub(crate) fn advance<P: Processor>(&mut self, processor: &P, corners: &[Point], s: u32)
        requires known { self.old.to.time ≤ s → suc self.old.number < length corners.now }
        requires bounded { self.old.to.time ≤ s → Bounded (piece_no corners.now (suc self.old.number)) }
        ensures ended { self.old.to.time ≤ s → IsLane (P.Processor.steps processor.now) corners.now (suc self.old.number) self.new }
        ensures going { s < self.old.to.time → self.new ≡ self.old }
    {
        if self.to.time <= s {
            *self = Lane::at(processor, corners, self.number + 1);
        }
    }

    // The work done by time `t`, in grains.
    fn done(&self, t: u32) -> u64
        requires begun { self.now.from.time ≤ t }
        requires going { t ≤ self.now.to.time }
        ensures { result ≡ done_at (line self.now) self.now.gap t }
    {
        let run = u64::from(self.to.time - self.from.time);
        let left = u64::from(self.to.time - t);
        let past = u64::from(t - self.from.time);
        let height = u64::from(self.from.height) * left + u64::from(self.to.height) * past;
        5040 * height / (run * self.gap) * self.gap
    }

    // The ticks at the faster step from time `s` to time `t`.
    pub(crate) fn fast(&self, s: u32, t: u32) -> u64
        requires begun { self.now.from.time ≤ s }
        requires onward { s ≤ t }
        requires going { t ≤ self.now.to.time }
        ensures { result ≡ fast_of self.now s t }
    {
        let least = 5040 * u64::from(t - s) * self.speed;
        let more = self.done(t).saturating_sub(self.done(s));
        more.saturating_sub(least) / self.gap
    }
}
