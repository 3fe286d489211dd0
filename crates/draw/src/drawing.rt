// A plan as it is drawn, run by run from the left.
ghost use Rattle.std.specs.Prelude.{◌≡◌, ◌≤◌, length};

use crate::lane::Lane;
use crate::put::append;
use model::segment::Segment;
use processor::processor::Processor;

// The first `count` segments in order, and their energy.
#[derive(Clone, Copy, PartialEq, Eq, Debug)]
pub struct Drawing {
    pub segments: [Segment; 1024],
    pub count: usize,
    pub energy: u64,
    ghost full: { length segments ≡ 1024 },
    ghost few: { count ≤ 1024 },
}

impl Drawing {
    ghost use Rattle.std.specs.Prelude.{◌+◌, ◌*◌, ◌<◌, [], ◌∷◌};
    ghost use Rattle.draw.specs.Gathered.{added, gathered, listed, Within};
    ghost use Rattle.draw.specs.Lanes.{fast_of, runs_of};
    ghost use Rattle.model.specs.Plan.{energy, ticks_between, ticks_of};
    ghost use Rattle.model.specs.Steps.{power_at};

    // Takes all segments off.
    pub(crate) fn clear(&mut self)
        ensures made { listed self.new ≡ [] }
        ensures figures { (self.new.count ≡ 0) × (self.new.energy ≡ 0) }
    {
        self.count = 0;
        self.energy = 0;
    }

    // Puts a run at the end, and adds its energy: joined to the last segment if that is at its step, left out if it has no ticks.
    fn put<P: Processor>(&mut self, processor: &P, run: Segment)
        requires room { self.old.count < 1024 }
        requires short { ticks_of (listed self.old) + run.ticks ≤ 1008000000 }
        requires cheap { self.old.energy + 1000000 * run.ticks ≤ 1008000000000000 }
        ensures runs { listed self.new ≡ added (listed self.old) run }
        ensures few { self.new.count ≤ self.old.count + 1 }
        ensures spent { self.new.energy ≡ self.old.energy + power_at (P.Processor.steps processor.now) run.step * run.ticks }
    {
        if run.ticks == 0 {
            return;
        }
        self.energy += processor.power(run.step) * run.ticks;
        self.count = append(&mut self.segments, self.count, run);
    }

    // Puts two runs at the end, one after the other.
    fn put_both<P: Processor>(&mut self, processor: &P, first: Segment, second: Segment)
        requires room { self.old.count + 1 < 1024 }
        requires short { ticks_of (listed self.old) + (first.ticks + second.ticks) ≤ 1008000000 }
        requires cheap { self.old.energy + 1000000 * (first.ticks + second.ticks) ≤ 1008000000000000 }
        ensures runs { listed self.new ≡ gathered (listed self.old) (first ∷ (second ∷ [])) }
        ensures few { self.new.count ≤ self.old.count + 2 }
        ensures spent { self.new.energy ≡ self.old.energy + energy (P.Processor.steps processor.now) (first ∷ (second ∷ [])) }
    {
        self.put(processor, first);
        self.put(processor, second);
    }

    // Draws from time `s` to time `t` on one piece: the slow ticks, then the fast ones.
    pub(crate) fn stretch<P: Processor>(&mut self, processor: &P, lane: &Lane, s: u32, t: u32)
        requires begun { lane.now.from.time ≤ s }
        requires onward { s ≤ t }
        requires going { t ≤ lane.now.to.time }
        requires fits { fast_of lane.now s t ≤ ticks_between s t }
        requires room { self.old.count + 1 < 1024 }
        requires within { Within s self.old }
        ensures runs { listed self.new ≡ gathered (listed self.old) (runs_of lane.now s t) }
        ensures few { self.new.count ≤ self.old.count + 2 }
        ensures spent { self.new.energy ≡ self.old.energy + energy (P.Processor.steps processor.now) (runs_of lane.now s t) }
        ensures within { Within t self.new }
    {
        let ticks = 5040 * u64::from(t - s);
        let fast = lane.fast(s, t);
        let slow = Segment {
            step: lane.slow,
            ticks: ticks - fast,
        };
        let quick = Segment {
            step: lane.slow + 1,
            ticks: fast,
        };
        self.put_both(processor, slow, quick);
    }
}
