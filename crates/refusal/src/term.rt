// The coefficients of a formula.

// A term of the formula for power: the constant, the one in the step's number, the one in its cube.
#[derive(Clone, Copy, PartialEq, Eq, Debug)]
pub enum Term {
    Constant,
    Linear,
    Cubic,
}
