// Putting a run at the end of a plan.
ghost use Rattle.std.specs.Prelude.{◌≡◌, ◌≢◌, ◌+◌, ◌<◌, ◌≤◌, length, take};
ghost use Rattle.draw.specs.Gathered.{added};
ghost use Rattle.model.specs.Plan.{ticks_of};

use model::segment::Segment;

// Puts a run after the first `count` segments, joined to the last if that is at its step, and says how many there are then.
pub(crate) fn append(out: &mut [Segment], count: usize, run: Segment) -> usize
    requires room { count < length out.old }
    requires some { run.ticks ≢ 0 }
    requires short { ticks_of (take count out.old) + run.ticks ≤ 1008000000 }
    ensures runs { take result out.new ≡ added (take count out.old) run }
    ensures few { result ≤ count + 1 }
{
    if count > 0 && out[count - 1].step == run.step {
        out[count - 1].ticks += run.ticks;
        return count;
    }
    out[count] = run;
    count + 1
}
