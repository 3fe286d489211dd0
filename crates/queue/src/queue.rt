// The queue itself.
ghost use Rattle.std.specs.Prelude.{◌≡◌, ◌≤◌, true, vec_len, vec_capacity};
ghost use Rattle.queue.specs.Queues.{standing};

use model::job::Job;

// At most 256 jobs, each within its limits, along which neither arrivals nor deadlines fall. Memory for all is reserved.
#[derive(Drop)]
pub struct Queue {
    pub(crate) jobs: Vec<Job>,
    ghost few: { vec_len jobs ≤ 256 },
    ghost room: { 256 ≤ vec_capacity jobs },
    ghost order: { standing jobs.items ≡ true },
}
