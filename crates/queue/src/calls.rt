// Making a queue, and putting and taking jobs at its end.
ghost use Rattle.std.specs.Prelude.{◌≡◌, ◌-◌, List, [], ◌∷◌, ◌++◌, length, take, is_ok, IfOk, if◌then◌else◌};
ghost use Rattle.queue.specs.Queues.{follows, last_of, push_lines};
ghost use Rattle.queue.specs.Meaning.{jobs_of};
ghost use Rattle.refusal.specs.Refusals.{outcome, first_of};

use crate::queue::Queue;
use crate::standing::Standing;
use model::job::Job;
use refusal::refusal::Refusal;
use std::alloc::{AllocError, Global};

impl Queue {
    // A queue without jobs, with memory for 256.
    pub fn new(heap: Global) -> Result<Queue, AllocError>
        ensures { IfOk result (λ q. jobs_of q ≡ []) }
    {
        let jobs = Vec::with_capacity(heap, 256)?;
        Ok(Queue { jobs })
    }

    // How many jobs stand.
    pub fn len(&self) -> usize
        ensures { result ≡ length (jobs_of self.now) }
    {
        self.jobs.len()
    }

    // The jobs in book order.
    pub fn jobs(&self) -> &[Job]
        ensures { result.now ≡ jobs_of self.now }
    {
        self.jobs.as_slice()
    }

    // The jobs with what the queue keeps of them.
    pub fn standing(&self) -> Standing<'_>
        ensures { result.jobs.now ≡ jobs_of self.now }
    {
        let jobs = self.jobs.as_slice();
        Standing { jobs }
    }

    // Whether neither arrival nor deadline of a job is below that of the last job.
    fn follows(&self, job: Job) -> bool
        ensures { result ≡ follows (last_of (jobs_of self.now)) job }
    {
        self.jobs.last().is_none_or(|last| {
            last.arrival <= job.arrival && last.deadline <= job.deadline
        })
    }

    // Whether a job may stand at the end, or why not.
    pub fn admits(&self, job: Job) -> Result<(), Refusal>
        ensures { outcome result ≡ first_of (push_lines (jobs_of self.now) job) }
    {
        if self.jobs.len() >= 256 {
            return Err(Refusal::Full);
        }
        if job.arrival >= job.deadline || job.deadline > 200_000 {
            return Err(Refusal::Times);
        }
        if job.work < 1 || job.work > 1_000_000 {
            return Err(Refusal::Work);
        }
        if job.account < 1 || job.account > 64 {
            return Err(Refusal::Account);
        }
        if !self.follows(job) {
            return Err(Refusal::Order);
        }
        Ok(())
    }

    // Puts a job at the end, or says why it may not stand there.
    pub fn push(&mut self, job: Job) -> Result<(), Refusal>
        ensures answer { outcome result ≡ first_of (push_lines (jobs_of self.old) job) }
        ensures after { jobs_of self.new ≡ (if is_ok result then jobs_of self.old ++ (job ∷ []) else jobs_of self.old) }
    {
        self.admits(job)?;
        self.jobs.push_reserved(job);
        Ok(())
    }

    // Removes the last job, if any.
    pub fn pop(&mut self)
        ensures { jobs_of self.new ≡ take (length (jobs_of self.old) - 1) (jobs_of self.old) }
    {
        let _ = self.jobs.pop();
    }

    // Removes all jobs.
    pub fn clear(&mut self)
        ensures { jobs_of self.new ≡ [] }
    {
        self.jobs.clear();
    }
}
