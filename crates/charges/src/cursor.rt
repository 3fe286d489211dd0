// A place in the work of the jobs.

// A cursor: job number `job`, and `grain` grains past that job's first.
#[derive(Clone, Copy)]
pub struct Cursor {
    pub job: usize,
    pub grain: u64,
}
