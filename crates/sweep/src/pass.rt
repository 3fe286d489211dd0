// What a wall's new point finds of the other wall's chain.
ghost use Rattle.std.specs.Prelude.{◌≡◌, ◌+◌, ◌-◌, ◌≤◌, ◌++◌};
ghost use Rattle.sweep.specs.Views.{view, end};
ghost use Rattle.theory.specs.Sweep.{inner, pass};

use crate::chain::Chain;
use crate::tighten::inward;
use crate::wall::Wall;
use crate::way::Way;
use model::point::Point;

// From the apex, makes the points of the other chain corners as long as the way to `x` would cut across them.
pub(crate) fn pass<W: Wall>(wall: &W, x: Point, other: &mut Chain, way: &mut Way)
    requires { end way.old.corners + (end other.old - other.old.start) ≤ 1025 }
    ensures apex { way.new.apex ≡ (pass (inner W.Wall.upper) x way.old.apex (view other.old)).apex }
    ensures other { view other.new ≡ (pass (inner W.Wall.upper) x way.old.apex (view other.old)).rest }
    ensures out { view way.new.corners ≡ view way.old.corners ++ (pass (inner W.Wall.upper) x way.old.apex (view other.old)).out }
    ensures places { (end other.new ≡ end other.old) × (way.new.corners.start ≡ way.old.corners.start) × (end way.new.corners + other.old.start ≡ end way.old.corners + other.new.start) }
{
    while let Some(c) = other.first() {
        if !inward(wall, way.apex, x, c) {
            return;
        }
        way.corners.put(c);
        way.apex = c;
        other.advance();
    }
}
