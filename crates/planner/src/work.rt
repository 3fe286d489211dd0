// Working out the plan of a queue.
ghost use Rattle.std.specs.Prelude.{◌≡◌, [], ◌∷◌, MatchResult};
ghost use Rattle.model.specs.Charges.{cost};
ghost use Rattle.model.specs.Plan.{plan};
ghost use Rattle.planner.specs.Drafts.{segments_of};
ghost use Rattle.planner.specs.Planning.{want_line, Worth};
ghost use Rattle.queue.specs.Meaning.{jobs_of};
ghost use Rattle.refusal.specs.Refusals.{outcome, first_of};

use crate::draft::Draft;
use arrayvec::ArrayVec;
use draw::draw::draw;
use draw::drawing::Drawing;
use model::segment::Segment;
use processor::processor::Processor;
use queue::queue::Queue;
use refusal::refusal::Refusal;
use survey::merge::survey;
use sweep::sweep::sweep;
use sweep::way::Way;
use want::search::want_of_speed;

impl Draft {
    // A draft without segments.
    pub fn blank() -> Draft
        ensures made { segments_of result ≡ [] }
        ensures figure { result.drawing.energy ≡ 0 }
    {
        Draft {
            drawing: Drawing {
                segments: [Segment { step: 0, ticks: 0 }; 1024],
                count: 0,
                energy: 0,
            },
        }
    }

    // Works out the plan of the queue on a processor, or says for which job speed is wanting; the draft is then as it was.
    pub fn work_out<P: Processor>(&mut self, queue: &Queue, processor: &P) -> Result<(), Refusal>
        ensures answer { outcome result ≡ first_of (want_line (P.Processor.steps processor.now) (jobs_of queue.now) ∷ []) }
        ensures made { MatchResult result (λ _. (segments_of self.new ≡ plan (P.Processor.steps processor.now) (jobs_of queue.now)) × (self.new.drawing.energy ≡ cost (P.Processor.steps processor.now) (jobs_of queue.now))) (λ _. self.new ≡ self.old) }
        ensures worth { Worth (P.Processor.steps processor.now) (jobs_of queue.now) }
    {
        let standing = queue.standing();
        if let Some(job) = want_of_speed(processor, standing) {
            return Err(Refusal::Want { job: job + 1 });
        }
        let mut cuts = ArrayVec::new();
        survey(standing, &mut cuts);
        let mut way = Way::new();
        sweep(&cuts, &mut way);
        draw(
            processor,
            standing.jobs,
            &cuts,
            way.corners.points(),
            &mut self.drawing,
        );
        Ok(())
    }

    // The segments in order.
    pub fn segments(&self) -> &[Segment]
        ensures { result.now ≡ segments_of self.now }
    {
        let count = self.drawing.count;
        &self.drawing.segments[..count]
    }

    // The energy of the plan.
    pub fn energy(&self) -> u64
        ensures { result ≡ self.now.drawing.energy }
    {
        self.drawing.energy
    }
}
