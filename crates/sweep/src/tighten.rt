// The tightening of a chain: one text for both walls.
ghost use Rattle.std.specs.Prelude.{◌≡◌, ℕ, suc, ◌*◌, ◌^◌, ◌<◌, ◌≤◌, true, false, ◌∷◌, length, take, slice_index_or};
ghost use Rattle.model.specs.Path.{run, start};
ghost use Rattle.sweep.specs.Ready.{Ready};
ghost use Rattle.sweep.specs.Views.{older, newest};
ghost use Rattle.theory.specs.Sweep.{inner, inward, tighten};

use crate::wall::Wall;
use model::point::Point;

// The time from one point to another.
fn run(p: Point, q: Point) -> u32
    ensures { result ≡ run p q }
{
    q.time.saturating_sub(p.time)
}

// A product that cannot overflow.
fn times(a: u32, b: u32) -> u128
    ensures value { result ≡ a * b }
    ensures small { result < 2 ^ 64 }
{
    u128::from(a) * u128::from(b)
}

// Whether, seen from `p`, the point `q` lies strictly inward of `r`.
pub(crate) fn inward<W: Wall>(wall: &W, p: Point, q: Point, r: Point) -> bool
    ensures { result ≡ inward (inner W.Wall.upper) p q r }
{
    let near = run(p, q);
    let far = run(p, r);
    let at_q = times(q.height, far) + times(p.height, near);
    let at_r = times(r.height, near) + times(p.height, far);
    wall.inner(at_q, at_r)
}

// The point before the next of a chain: the last, or the apex of a chain without points.
fn before(apex: Point, chain: &[Point]) -> Point
    ensures { result ≡ slice_index_or (apex ∷ chain.now) (length chain.now) start }
{
    chain.last().copied().unwrap_or(apex)
}

// How many points of a chain stay when `x` is put at its end: from the back, those are dropped that are not inward of `x`,
// seen from the one before.
fn kept<W: Wall>(wall: &W, apex: Point, chain: &[Point], x: Point) -> usize
    ensures few { result ≤ length chain.now }
    ensures stays { (i : ℕ) → result ≡ suc i → inward (inner W.Wall.upper) (slice_index_or (apex ∷ chain.now) i start) (slice_index_or chain.now i start) x ≡ true }
    ensures goes { result < length chain.now → inward (inner W.Wall.upper) (slice_index_or (apex ∷ chain.now) result start) (slice_index_or chain.now result start) x ≡ false }
{
    let mut front = chain;
    while let [rest @ .., last] = front {
        if inward(wall, before(apex, rest), *last, x) {
            return front.len();
        }
        front = rest;
    }
    0
}

// Drops from a chain what its last point makes needless, seen from the apex: afterwards the chain is the first points, and
// the answer is how many.
pub fn tighten<W: Wall>(wall: &W, apex: Point, chain: &mut [Point]) -> usize
    requires some { 0 < length chain.old }
    requires bent { Ready W.Wall.upper apex (older chain.old) (newest chain.old) }
    ensures after { take result chain.new ≡ tighten (inner W.Wall.upper) apex (older chain.old) (newest chain.old) }
    ensures few { (0 < result) × (result ≤ length chain.old) }
{
    let last = chain.len() - 1;
    let x = chain[last];
    let k = kept(wall, apex, &chain[..last], x);
    chain[k] = x;
    k + 1
}
