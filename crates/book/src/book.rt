// The book itself.
ghost use Rattle.std.specs.Prelude.{◌≡◌, ◌≤◌, true, slice_index};
ghost use Rattle.book.specs.Waits.{may_wait};
ghost use Rattle.charges.specs.Rows.{rows_of};
ghost use Rattle.model.specs.Sums.{sum_to};
ghost use Rattle.queue.specs.Meaning.{jobs_of};

use charges::charges::Charges;
use model::job::Job;
use queue::queue::Queue;

// A book: its number, the standing jobs, the job of the open hold, if any, and the charges. A held job may always be put last,
// and all charges together are within their limit.
#[derive(Drop)]
pub struct Book {
    pub(crate) number: u16,
    pub(crate) queue: Queue,
    pub(crate) held: Option<Job>,
    pub(crate) charges: Charges,
    ghost waits: { may_wait (jobs_of queue) held ≡ true },
    ghost within: { sum_to 65 (λ a. slice_index (rows_of charges) a) ≤ 4000000000000000000 },
}
