// The path of a queue's jobs.
ghost use Rattle.std.specs.Prelude.{◌≡◌, true};
ghost use Rattle.model.specs.Path.{keeps};
ghost use Rattle.queue.specs.Meaning.{jobs_of};
ghost use Rattle.sweep.specs.Views.{view};
ghost use Rattle.theory.specs.Sweep.{sweep};

use arrayvec::ArrayVec;
use queue::queue::Queue;
use survey::merge::survey;
use sweep::chain::Chain;
use sweep::sweep::sweep;
use sweep::way::Way;

// The corners of the path between the walls of the queue's jobs.
pub fn path(queue: &Queue) -> Chain
    ensures corners { view result ≡ sweep (jobs_of queue.now) }
    ensures law { keeps (jobs_of queue.now) (view result) ≡ true }
{
    let mut cuts = ArrayVec::new();
    survey(queue.standing(), &mut cuts);
    let mut way = Way::new();
    sweep(&cuts, &mut way);
    way.corners
}
