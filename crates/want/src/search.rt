// The search for the first job that ends an overfull run.
ghost use Rattle.std.specs.Prelude.{◌≡◌};
ghost use Rattle.model.specs.Steps.{top_speed};
ghost use Rattle.want.specs.Wanted.{wanted};

use processor::processor::Processor;
use queue::standing::Standing;

// The speed of the last step.
fn top_speed<P: Processor>(processor: &P) -> u64
    ensures { result ≡ top_speed (P.Processor.steps processor.now) }
{
    processor.speed(processor.count() - 1)
}

// The first job that ends a run with more work than top speed × (its deadline − the first arrival of the run), if one does.
// Each end is tried with the runs to it from the shortest on, so that each adds one work to the load.
pub fn want_of_speed<P: Processor>(processor: &P, standing: Standing<'_>) -> Option<usize>
    ensures { result ≡ wanted (P.Processor.steps processor.now) standing.entry.jobs.now }
{
    let top = top_speed(processor);
    let mut found = None;
    'search: for (j, last) in standing.jobs.iter().enumerate() {
        let mut load = 0;
        for first in standing.jobs[..j + 1].iter().rev() {
            load += first.work;
            if top * (last.deadline - first.arrival) < load {
                found = Some(j);
                break 'search;
            }
        }
    }
    found
}
