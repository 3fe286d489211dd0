// Drawing the plan from the corners of the path.
ghost use Rattle.std.specs.Prelude.{◌≡◌, ◌≤◌, length};
ghost use Rattle.draw.specs.Gathered.{listed};
ghost use Rattle.model.specs.Jobs.{span, total};
ghost use Rattle.model.specs.Plan.{energy};
ghost use Rattle.theory.proofs.Drawn.{Drawable, drawn};
ghost use Rattle.theory.specs.Survey.{survey};

use crate::drawing::Drawing;
use crate::lane::Lane;
use model::cut::Cut;
use model::job::Job;
use model::point::Point;
use processor::processor::Processor;

// Draws the plan anew, in a lent drawing, from the cuts and the corners of the path of these jobs.
pub fn draw<P: Processor>(
    processor: &P,
    jobs: &[Job],
    cuts: &[Cut],
    corners: &[Point],
    drawing: &mut Drawing,
)
    requires cuts { cuts.now ≡ survey jobs.now }
    requires drawable { Drawable (P.Processor.steps processor.now) jobs.now corners.now }
    requires short { span jobs.now ≤ 200000 }
    requires light { total jobs.now ≤ 256000000 }
    requires few { length cuts.now ≤ 513 }
    ensures plan { listed drawing.new ≡ drawn (P.Processor.steps processor.now) jobs.now corners.now }
    ensures few { drawing.new.count ≤ 1024 }
    ensures spent { drawing.new.energy ≡ energy (P.Processor.steps processor.now) (drawn (P.Processor.steps processor.now) jobs.now corners.now) }
{
    drawing.clear();
    if jobs.is_empty() {
        return;
    }
    let mut lane = Lane::at(processor, corners, 0);
    for pair in cuts.windows(2) {
        let (s, t) = (pair[0].time, pair[1].time);
        lane.advance(processor, corners, s);
        drawing.stretch(processor, &lane, s, t);
    }
}
