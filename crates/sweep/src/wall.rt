// The two walls, which differ only in which of two heights is the inner one.
ghost use Rattle.std.specs.Prelude.{◌≡◌, Bool, true, false};
ghost use Rattle.theory.specs.Sweep.{inner};

// A wall keeps one side: whether it is the upper one says which of two heights is inner.
pub trait Wall {
    ghost upper: { Bool };

    // Whether the first height is strictly inward of the second.
    fn inner(&self, a: u128, b: u128) -> bool
        ensures { result ≡ inner upper a b };
}

// The ceiling: the lower height is inner.
#[derive(Clone, Copy)]
pub struct Ceiling;

// The floor: the higher height is inner.
#[derive(Clone, Copy)]
pub struct Floor;

impl Wall for Ceiling {
    ghost upper = { true };

    fn inner(&self, a: u128, b: u128) -> bool {
        a < b
    }
}

impl Wall for Floor {
    ghost upper = { false };

    fn inner(&self, a: u128, b: u128) -> bool {
        b < a
    }
}
