// The theorems over the definitions of `model`. Each function here does nothing: its contract is a theorem, so that the
// check of this crate demands the proof.
#![tactic(auto)]

ghost use Rattle.theory.specs.Rows.{AllHold, rows, AllBend, bends};
ghost use Rattle.theory.specs.Theorems.{PathExists, PathIsOne, PlanServes, PlanIsLeast, WantIsNoWay, ChargesAddUp};

// Every list of jobs in book order has a path.
pub fn path_exists()
    ensures { PathExists }
{}

// Any two paths of the same jobs have the same heights.
pub fn path_is_one()
    ensures { PathIsOne }
{}

// Without want of speed the plan serves exactly the jobs.
pub fn plan_serves()
    ensures { PlanServes }
{}

// Without want of speed no way of running the jobs costs less than the plan.
pub fn plan_is_least()
    ensures { PlanIsLeast }
{}

// Speed is wanting exactly when no way of running the jobs exists.
pub fn want_is_no_way()
    ensures { WantIsNoWay }
{}

// The charges of the house and the accounts add up to the energy.
pub fn charges_add_up()
    ensures { ChargesAddUp }
{}

// The worked rows come out as written.
pub fn rows_hold()
    ensures plans { AllHold rows }
    ensures paths { AllBend bends }
{}
