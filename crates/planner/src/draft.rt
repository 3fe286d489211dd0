// A plan as it was worked out.
use draw::drawing::Drawing;

// A draft: the drawing of a plan, its segments and their energy.
#[derive(Clone, Copy, PartialEq, Eq, Debug)]
pub struct Draft {
    pub(crate) drawing: Drawing,
}
