// The worked cases.
use model::job::Job;
use model::step::Step;

// A case: a name that says what it shows, a ladder, jobs, whether a buffer of three segments is tried first, and jobs
// whose price is asked.
#[derive(Clone, Copy)]
pub struct Case {
    pub name: &'static str,
    pub steps: &'static [Step],
    pub jobs: &'static [Job],
    pub short: bool,
    pub held: &'static [Job],
}

// Idle, and one working speed.
const TWO: [Step; 2] = [Step { speed: 0, power: 0 }, Step { speed: 2, power: 4 }];

// Three working speeds, and power drawn when idle.
const FOUR: [Step; 4] = [
    Step {
        speed: 0,
        power: 10,
    },
    Step {
        speed: 1,
        power: 12,
    },
    Step {
        speed: 2,
        power: 20,
    },
    Step {
        speed: 4,
        power: 60,
    },
];

// Speeds that share no divisor.
const ODD: [Step; 3] = [
    Step { speed: 0, power: 0 },
    Step { speed: 7, power: 7 },
    Step {
        speed: 11,
        power: 19,
    },
];

// A gap that does not divide 5,040.
pub const GAP: [Step; 2] = [
    Step { speed: 0, power: 0 },
    Step {
        speed: 11,
        power: 0,
    },
];

// A bend the wrong way.
pub const BEND: [Step; 3] = [
    Step { speed: 0, power: 0 },
    Step { speed: 1, power: 5 },
    Step { speed: 2, power: 6 },
];

const INNER: [Job; 2] = [
    Job {
        arrival: 0,
        deadline: 2,
        work: 2,
        account: 1,
    },
    Job {
        arrival: 0,
        deadline: 4,
        work: 2,
        account: 2,
    },
];

const BETWEEN: [Job; 1] = [Job {
    arrival: 0,
    deadline: 2,
    work: 3,
    account: 1,
}];

const ONE_MORE: [Job; 1] = [Job {
    arrival: 0,
    deadline: 2,
    work: 1,
    account: 2,
}];

const LATE: [Job; 1] = [Job {
    arrival: 3,
    deadline: 4,
    work: 4,
    account: 1,
}];

const TOO_MUCH: [Job; 1] = [Job {
    arrival: 3,
    deadline: 4,
    work: 5,
    account: 1,
}];

const URGENT: [Job; 2] = [
    Job {
        arrival: 0,
        deadline: 1,
        work: 2,
        account: 1,
    },
    Job {
        arrival: 0,
        deadline: 3,
        work: 1,
        account: 2,
    },
];

const ROUNDED: [Job; 2] = [
    Job {
        arrival: 0,
        deadline: 11,
        work: 1,
        account: 1,
    },
    Job {
        arrival: 1,
        deadline: 11,
        work: 1,
        account: 2,
    },
];

const SHARED: [Job; 2] = [
    Job {
        arrival: 0,
        deadline: 1,
        work: 1,
        account: 1,
    },
    Job {
        arrival: 0,
        deadline: 1,
        work: 10,
        account: 2,
    },
];

pub const CASES: [Case; 8] = [
    Case {
        name: "no jobs",
        steps: &FOUR,
        jobs: &[],
        short: false,
        held: &[],
    },
    Case {
        name: "a deadline inside a straight piece",
        steps: &TWO,
        jobs: &INNER,
        short: true,
        held: &[],
    },
    Case {
        name: "a slope between two speeds",
        steps: &FOUR,
        jobs: &BETWEEN,
        short: false,
        held: &ONE_MORE,
    },
    Case {
        name: "a late arrival",
        steps: &FOUR,
        jobs: &LATE,
        short: false,
        held: &[],
    },
    Case {
        name: "more work than the top speed can do",
        steps: &FOUR,
        jobs: &TOO_MUCH,
        short: false,
        held: &[],
    },
    Case {
        name: "an urgent job first",
        steps: &FOUR,
        jobs: &URGENT,
        short: false,
        held: &[],
    },
    Case {
        name: "a cut at no whole number of grains",
        steps: &TWO,
        jobs: &ROUNDED,
        short: false,
        held: &[],
    },
    Case {
        name: "a tick that spans two jobs",
        steps: &ODD,
        jobs: &SHARED,
        short: false,
        held: &[],
    },
];
