// One clock setting of a processor.

// A step: `speed` grains of work in a tick, for `power` units of energy in a tick.
#[derive(Clone, Copy, Default, PartialEq, Eq, Debug)]
pub struct Step {
    pub speed: u64,
    pub power: u64,
}
