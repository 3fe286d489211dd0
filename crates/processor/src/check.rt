// The rules tried on steps, rule by rule.
ghost use Rattle.std.specs.Prelude.{◌≡◌};
ghost use Rattle.processor.specs.Rules.{odd_last, odd_step, rule_number, rule_lines};
ghost use Rattle.processor.specs.declared.rule.Rule.TheVariants.{Speeds, Powers, Gaps, Bends};
ghost use Rattle.refusal.specs.Refusals.{told, told_of, outcome, first_of};

use crate::rule::Rule;
use model::step::Step;
use refusal::refusal::Refusal;

// Whether the last speed is at odds: above 4,000, or not above the one before, or, as the first, not 0.
#[tactic(auto, using(std::proofs::lemmas::Bool::Decides::nat_tests), unfolding(crate::specs::Rules::odd_at, model::specs::Steps::speed_at))]
fn odd_speed(front: &[Step]) -> bool
    ensures { result ≡ odd_last Speeds front.now }
{
    match front {
        [.., before, last] => last.speed > 4000 || last.speed <= before.speed,
        [first] => first.speed > 0,
        [] => false,
    }
}

// Whether the last power is at odds: above 1,000,000, or below the one before.
#[tactic(auto, using(std::proofs::lemmas::Bool::Decides::nat_tests), unfolding(crate::specs::Rules::odd_at, model::specs::Steps::power_at))]
fn odd_power(front: &[Step]) -> bool
    ensures { result ≡ odd_last Powers front.now }
{
    match front {
        [.., before, last] => last.power > 1_000_000 || last.power < before.power,
        [first] => first.power > 1_000_000,
        [] => false,
    }
}

// Whether the last gap between speeds does not divide 5,040.
#[tactic(auto, using(std::proofs::lemmas::Bool::Decides::nat_tests), unfolding(crate::specs::Rules::odd_at, model::specs::Steps::gap, model::specs::Steps::speed_at))]
fn odd_gap(front: &[Step]) -> bool
    ensures { result ≡ odd_last Gaps front.now }
{
    let [.., before, last] = front else {
        return false;
    };
    let gap = last.speed.saturating_sub(before.speed);
    gap == 0 || 5040 % gap != 0
}

// Whether power rises less for its speed up to the last step than up to the one before.
#[tactic(auto, using(std::proofs::lemmas::Bool::Decides::nat_tests), unfolding(crate::specs::Rules::odd_at, model::specs::Steps::gap, model::specs::Steps::climb, model::specs::Steps::speed_at, model::specs::Steps::power_at))]
fn odd_bend(front: &[Step]) -> bool
    ensures { result ≡ odd_last Bends front.now }
{
    let [.., first, middle, last] = front else {
        return false;
    };
    let slower = middle.speed.saturating_sub(first.speed);
    let faster = last.speed.saturating_sub(middle.speed);
    let less = middle.power.saturating_sub(first.power);
    let more = last.power.saturating_sub(middle.power);
    u128::from(more) * u128::from(slower) < u128::from(less) * u128::from(faster)
}

impl Rule {
    // Whether the last of these steps is at odds with those before it.
    fn odd_last(self, front: &[Step]) -> bool
        ensures { result ≡ odd_last self front.now }
    {
        match self {
            Rule::Speeds => odd_speed(front),
            Rule::Powers => odd_power(front),
            Rule::Gaps => odd_gap(front),
            Rule::Bends => odd_bend(front),
        }
    }

    // The first step at odds with the rule.
    fn first_odd(self, steps: &[Step]) -> Option<usize>
        ensures { result ≡ odd_step self steps.now }
    {
        (0..steps.len()).find(|i| self.odd_last(&steps[..*i + 1]))
    }

    // The refusal of steps of which this one is at odds with the rule.
    fn refusal(self, step: usize) -> Refusal
        ensures { told_of result ≡ told (rule_number self) step }
    {
        match self {
            Rule::Speeds => Refusal::Speed { step },
            Rule::Powers => Refusal::Power { step },
            Rule::Gaps => Refusal::Gap { step },
            Rule::Bends => Refusal::Bend { step },
        }
    }
}

// The first rule that steps break, by the first step at odds with it.
pub(crate) fn check(steps: &[Step]) -> Result<(), Refusal>
    ensures { outcome result ≡ first_of (rule_lines steps.now) }
{
    for rule in [Rule::Speeds, Rule::Powers, Rule::Gaps, Rule::Bends] {
        if let Some(step) = rule.first_odd(steps) {
            return Err(rule.refusal(step));
        }
    }
    Ok(())
}
