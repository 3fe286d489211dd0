// The calls that a list can hold.
use model::job::Job;
use processor::formula::Formula;
use processor::ladder::Ladder;
use refusal::refusal::Refusal;

// The figures of a formula.
#[derive(Clone, Copy)]
pub struct Figures {
    pub count: usize,
    pub stride: u64,
    pub constant: u64,
    pub linear: u64,
    pub cubic: u64,
}

impl Figures {
    // The formula of these figures, or why there is none.
    pub fn formula(self) -> Result<Formula, Refusal> {
        Formula::new(
            self.count,
            self.stride,
            self.constant,
            self.linear,
            self.cubic,
        )
    }
}

// A call, with what it is given. A slip stands as the number of the book that gave it out.
#[derive(Clone, Copy)]
pub enum Call {
    // a new book of this number
    Book(u16),
    // the ladder of some steps as the processor of later calls, or why there is none
    Ladder(Result<Ladder, Refusal>),
    // a formula of these figures as the processor of later calls
    Formula(Figures),
    Enter(Job),
    Hold(Job),
    Take(u16),
    Release(u16),
    Strike,
    // a plan into a buffer of this length
    Plan(usize),
    Close,
    Charge(usize),
    Count,
}
