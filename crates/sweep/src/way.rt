// The way found so far.
ghost use Rattle.std.specs.Prelude.{◌≡◌, []};
ghost use Rattle.model.specs.Path.{start};
ghost use Rattle.sweep.specs.Views.{view};

use crate::chain::Chain;
use model::point::Point;

// A way: its corners, and the apex that it leads on from.
#[derive(Drop)]
pub struct Way {
    pub apex: Point,
    pub corners: Chain,
}

impl Way {
    // A way that has led nowhere yet.
    pub fn new() -> Way
        ensures { (result.apex ≡ start) × (view result.corners ≡ []) }
    {
        Way {
            apex: Point::default(),
            corners: Chain::new(),
        }
    }
}
