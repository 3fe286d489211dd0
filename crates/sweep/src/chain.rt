// A row of points that grows at its end and is taken from at both ends.
ghost use Rattle.std.specs.Prelude.{◌≤◌, length};

use crate::tighten::tighten;
use crate::wall::Wall;
use arrayvec::ArrayVec;
use model::point::Point;

// A chain: the points from place `start` on.
#[derive(Drop)]
pub struct Chain {
    pub(crate) points: ArrayVec<Point, 1025>,
    pub(crate) start: usize,
    ghost forward: { start ≤ length points.items },
    ghost within: { length points.items ≤ 1025 },
}

impl Chain {
    ghost use Rattle.std.specs.Prelude.{◌≡◌, ◌+◌, ◌<◌, [], ◌∷◌, ◌++◌, drop, slice_get};
    ghost use Rattle.sweep.specs.Ready.{Ready};
    ghost use Rattle.sweep.specs.Views.{view, end};
    ghost use Rattle.theory.specs.Sweep.{alone, inner, tighten};

    // A chain without points.
    pub fn new() -> Chain
        ensures points { view result ≡ [] }
        ensures places { (result.start ≡ 0) × (end result ≡ 0) }
    {
        Chain {
            points: ArrayVec::new(),
            start: 0,
        }
    }

    // Takes all points off.
    pub(crate) fn clear(&mut self)
        ensures points { view self.new ≡ [] }
        ensures places { (self.new.start ≡ 0) × (end self.new ≡ 0) }
    {
        self.points.clear();
        self.start = 0;
    }

    // The points in order.
    pub fn points(&self) -> &[Point]
        ensures { result.now ≡ view self.now }
    {
        &self.points[self.start..]
    }

    // The first point, if there is one.
    pub(crate) fn first(&self) -> Option<Point>
        ensures { result ≡ slice_get (view self.now) 0 }
    {
        self.points().first().copied()
    }

    // Drops the first point.
    pub(crate) fn advance(&mut self)
        requires { self.old.start < end self.old }
        ensures points { view self.new ≡ drop 1 (view self.old) }
        ensures places { (self.new.start ≡ self.old.start + 1) × (end self.new ≡ end self.old) }
    {
        self.start += 1;
    }

    // Puts a point at the end.
    pub(crate) fn put(&mut self, p: Point)
        requires { end self.old < 1025 }
        ensures points { view self.new ≡ view self.old ++ (p ∷ []) }
        ensures places { (self.new.start ≡ self.old.start) × (end self.new ≡ end self.old + 1) }
    {
        self.points.push(p);
    }

    // Puts a wall's point at the end, drops what that makes needless, and answers whether it is now alone.
    pub(crate) fn admit<W: Wall>(&mut self, wall: &W, apex: Point, x: Point) -> bool
        requires room { end self.old < 1025 }
        requires bent { Ready W.Wall.upper apex (view self.old) x }
        ensures points { view self.new ≡ tighten (inner W.Wall.upper) apex (view self.old) x }
        ensures places { (self.new.start ≡ self.old.start) × (end self.new ≤ end self.old + 1) }
        ensures single { result ≡ alone (tighten (inner W.Wall.upper) apex (view self.old) x) }
    {
        self.points.push(x);
        let n = tighten(wall, apex, &mut self.points[self.start..]);
        self.points.truncate(self.start + n);
        n == 1
    }
}
