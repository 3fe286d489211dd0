// One corner of a wall or of a path.

// A point: at time `time`, `height` units of work. Times are at most 200,000 and heights at most 256,000,000.
#[derive(Clone, Copy, Default, PartialEq, Eq, Debug)]
pub struct Point {
    pub time: u32,
    pub height: u32,
}
