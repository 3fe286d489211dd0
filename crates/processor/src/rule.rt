// The rules that are tried step by step.

// A rule on the steps of a processor: on speeds, on powers, on the gaps between speeds, on the bend of power over speed.
#[derive(Clone, Copy)]
pub enum Rule {
    Speeds,
    Powers,
    Gaps,
    Bends,
}
