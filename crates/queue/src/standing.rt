// Standing jobs, lent.
ghost use Rattle.std.specs.Prelude.{◌≡◌, ◌≤◌, true, length};
ghost use Rattle.queue.specs.Queues.{standing};

use model::job::Job;

// At most 256 jobs, each within its limits, along which neither arrivals nor deadlines fall.
#[derive(Clone, Copy)]
pub struct Standing<'a> {
    pub jobs: &'a [Job],
    ghost few: { length jobs.now ≤ 256 },
    ghost order: { standing jobs.now ≡ true },
}
