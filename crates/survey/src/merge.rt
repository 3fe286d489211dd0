// The merge of the arrivals and the deadlines, both of which rise along the jobs.
ghost use Rattle.std.specs.Prelude.{◌≡◌, ◌+◌, ◌*◌, ◌<◌, ◌≤◌, length};
ghost use Rattle.arrayvec.specs.ArrayVec.{array_vec_len};
ghost use Rattle.model.specs.Jobs.{span};
ghost use Rattle.survey.specs.Fronts.{Before, Both, soonest};
ghost use Rattle.survey.specs.Moments.{is_arrival};
ghost use Rattle.theory.specs.Survey.{cut_of, survey};

use crate::front::{Front, Fronts, Moment};
use arrayvec::ArrayVec;
use model::cut::Cut;
use queue::standing::Standing;

impl Front {
    // The jobs that a wall counts before time `t`, led on to those that it counts up to `t`.
    fn advance(self, moment: Moment, standing: Standing<'_>, t: u64) -> Front
        requires { Before (is_arrival moment) standing.jobs.now t self }
        ensures { Before (is_arrival moment) standing.entry.jobs.now (t + 1) result }
    {
        let mut front = self;
        for job in &standing.jobs[self.count..] {
            if moment.of(job) > t {
                return front;
            }
            front.count += 1;
            front.work += job.work as u32;
        }
        front
    }
}

impl Fronts {
    // The same at both walls.
    fn advance(self, standing: Standing<'_>, t: u64) -> Fronts
        requires { Both standing.jobs.now t self }
        ensures { Both standing.entry.jobs.now (t + 1) result }
    {
        Fronts {
            came: self.came.advance(Moment::Arrival, standing, t),
            due: self.due.advance(Moment::Deadline, standing, t),
        }
    }

    // The first arrival or deadline that is still ahead, where some deadline is.
    fn next_time(self, standing: Standing<'_>) -> u64
        requires { self.due.count < length standing.jobs.now }
        ensures { result ≡ soonest standing.entry.jobs.now self }
    {
        let due = standing.jobs[self.due.count].deadline;
        match standing.jobs.get(self.came.count) {
            Some(job) => due.min(job.arrival),
            None => due,
        }
    }
}

// The cut at time `t`, from the jobs before it and those up to it.
fn cut_at(standing: Standing<'_>, before: Fronts, after: Fronts, t: u64) -> Cut
    requires within { t ≤ span standing.jobs.now }
    requires held { Both standing.jobs.now t before }
    requires led { Both standing.jobs.now (t + 1) after }
    ensures { result ≡ cut_of standing.entry.jobs.now t }
{
    Cut {
        time: t as u32,
        upper: before.came.work,
        lower: after.due.work,
        rises: before.came.count < after.came.count || after.due.count == standing.jobs.len(),
        falls: before.due.count < after.due.count,
    }
}

// All cuts of standing jobs, in order, in a lent table, in place of what stands there.
pub fn survey(standing: Standing<'_>, cuts: &mut ArrayVec<Cut, 513>)
    ensures cuts { cuts.new.items ≡ survey standing.entry.jobs.now }
    ensures most { array_vec_len cuts.new ≤ 513 }
    ensures each { array_vec_len cuts.new ≤ 2 * length standing.entry.jobs.now + 1 }
{
    cuts.clear();
    let mut before = Fronts::default();
    let mut t = 0;
    loop {
        let after = before.advance(standing, t);
        cuts.push(cut_at(standing, before, after, t));
        if after.due.count == standing.jobs.len() {
            return;
        }
        t = after.next_time(standing);
        before = after;
    }
}
