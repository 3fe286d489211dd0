// The jobs that are behind a time.
ghost use Rattle.std.specs.Prelude.{◌≡◌};
ghost use Rattle.survey.specs.Fronts.{time_of};
ghost use Rattle.survey.specs.Moments.{is_arrival};

use model::job::Job;

// When a wall counts a job: the upper one at its arrival, the lower one at its deadline.
#[derive(Clone, Copy, PartialEq, Eq, Debug)]
pub(crate) enum Moment {
    Arrival,
    Deadline,
}

impl Moment {
    // That time of a job.
    pub(crate) fn of(self, job: &Job) -> u64
        ensures { result ≡ time_of (is_arrival self) job.now }
    {
        match self {
            Moment::Arrival => job.arrival,
            Moment::Deadline => job.deadline,
        }
    }
}

// How many of the first jobs one wall has counted, and the sum of their works.
#[derive(Clone, Copy, Default, PartialEq, Eq, Debug)]
pub struct Front {
    pub(crate) count: usize,
    pub(crate) work: u32,
}

// Both walls at one time: the jobs that have come, and those that were due.
#[derive(Clone, Copy, Default, PartialEq, Eq, Debug)]
pub struct Fronts {
    pub(crate) came: Front,
    pub(crate) due: Front,
}
