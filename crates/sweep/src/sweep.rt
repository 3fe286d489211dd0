// The sweep along the cuts.
ghost use Rattle.std.specs.Prelude.{◌≡◌, ◌+◌, ◌-◌, ◌<◌, ◌≤◌, true, false, length, IfSome};
ghost use Rattle.sweep.specs.Ready.{Ready};
ghost use Rattle.sweep.specs.Swept.{reached, cross, swept, stake_at, Rising};
ghost use Rattle.sweep.specs.Leaves.{Leaves};
ghost use Rattle.sweep.specs.Views.{view, end};
ghost use Rattle.theory.specs.Sweep.{inner, take_in};

use crate::chain::Chain;
use crate::pass::pass;
use crate::wall::{Ceiling, Floor, Wall};
use crate::way::Way;
use model::cut::Cut;
use model::point::Point;

// A wall's point comes in: its chain is tightened, and where it is then alone, the other wall's chain is passed.
fn take_in<W: Wall>(wall: &W, x: Point, own: &mut Chain, other: &mut Chain, way: &mut Way)
    requires room { end own.old < 1025 }
    requires bent { Ready W.Wall.upper way.old.apex (view own.old) x }
    requires free { end way.old.corners + (end other.old - other.old.start) ≤ 1025 }
    ensures leaves { Leaves (take_in (inner W.Wall.upper) way.old.apex (view own.old) (view other.old) x) own.new other.new way.old way.new }
    ensures places { (own.new.start ≡ own.old.start) × (end own.new ≤ end own.old + 1) × (end other.new ≡ end other.old) × (way.new.corners.start ≡ way.old.corners.start) × (end way.new.corners + other.old.start ≡ end way.old.corners + other.new.start) }
{
    if own.admit(wall, way.apex, x) {
        pass(wall, x, other, way);
    }
}

// A wall's point comes in, if there is one.
fn reach<W: Wall>(wall: &W, x: Option<Point>, own: &mut Chain, other: &mut Chain, way: &mut Way)
    requires room { end own.old < 1025 }
    requires bent { IfSome x (Ready W.Wall.upper way.old.apex (view own.old)) }
    requires free { end way.old.corners + (end other.old - other.old.start) ≤ 1025 }
    ensures leaves { Leaves (reached (inner W.Wall.upper) x way.old.apex (view own.old) (view other.old)) own.new other.new way.old way.new }
    ensures places { (own.new.start ≡ own.old.start) × (end own.new ≤ end own.old + 1) × (end other.new ≡ end other.old) × (way.new.corners.start ≡ way.old.corners.start) × (end way.new.corners + other.old.start ≡ end way.old.corners + other.new.start) }
{
    if let Some(x) = x {
        take_in(wall, x, own, other, way);
    }
}

// One cut: the floor's point comes in, if it puts one, and then the ceiling's.
fn cross(cut: &Cut, upper: &mut Chain, lower: &mut Chain, way: &mut Way)
    requires room { (end upper.old < 512) × (end lower.old < 512) }
    requires tally { end way.old.corners ≡ upper.old.start + lower.old.start }
    requires bent { Ready true way.old.apex (view upper.old) (stake_at true cut.now) × Ready false way.old.apex (view lower.old) (stake_at false cut.now) }
    ensures leaves { Leaves (cross cut.now way.old.apex (view upper.old) (view lower.old)) upper.new lower.new way.old way.new }
    ensures places { (end upper.new ≤ end upper.old + 1) × (end lower.new ≤ end lower.old + 1) × (way.new.corners.start ≡ way.old.corners.start) × (end way.new.corners ≡ upper.new.start + lower.new.start) }
{
    let below = Point {
        time: cut.time,
        height: cut.lower,
    };
    let above = Point {
        time: cut.time,
        height: cut.upper,
    };
    reach(&Floor, cut.falls.then_some(below), lower, upper, way);
    reach(&Ceiling, cut.rises.then_some(above), upper, lower, way);
}

// Leads a lent way anew, along the corners of the path between the walls of these cuts.
pub fn sweep(cuts: &[Cut], way: &mut Way)
    requires few { length cuts.now ≤ 513 }
    requires rising { Rising cuts.now }
    ensures { view way.new.corners ≡ swept cuts.now }
{
    way.apex = Point::default();
    way.corners.clear();
    let [_, .., last] = cuts else {
        return;
    };
    let mut upper = Chain::new();
    let mut lower = Chain::new();
    for cut in &cuts[1..] {
        cross(cut, &mut upper, &mut lower, way);
    }
    way.corners.put(Point {
        time: last.time,
        height: last.upper,
    });
}
