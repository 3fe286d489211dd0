// One time at which something changes.

// A cut: the heights of the ceiling and of the floor at time `time`, and whether each wall puts a point there.
#[derive(Clone, Copy, Default, PartialEq, Eq, Debug)]
pub struct Cut {
    pub time: u32,
    pub upper: u32,
    pub lower: u32,
    pub rises: bool,
    pub falls: bool,
}
