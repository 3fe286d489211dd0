// Making ladders and formulas.
ghost use Rattle.std.specs.Prelude.{◌≡◌, ◌≤◌, true, [], ◌∷◌, length, is_ok, IfOk, MatchResult};
ghost use Rattle.processor.specs.Rules.{paired, listed, ladder_refusal, step_lines};
ghost use Rattle.processor.specs.Formulas.{formula_refusal, formula_steps};
ghost use Rattle.processor.specs.Meanings.{ladder_steps, steps_of};
ghost use Rattle.model.specs.Steps.{no_step, Lawful};
ghost use Rattle.refusal.specs.Refusals.{outcome, first_of};

use crate::check::check;
use crate::formula::Formula;
use crate::ladder::Ladder;
use model::step::Step;
use refusal::refusal::Refusal;
use refusal::term::Term;
use std::array;

// What stands in the places past a ladder's steps, and its first step.
const IDLE: Step = Step { speed: 0, power: 0 };

// A step for each place of two arrays.
fn pair(speeds: [u64; 16], powers: [u64; 16]) -> [Step; 16]
    ensures value { result ≡ paired speeds powers }
    ensures len { length result ≡ 16 }
{
    array::from_fn(|i| Step {
        speed: speeds[i],
        power: powers[i],
    })
}

impl Ladder {
    // The smallest ladder: idle, and one grain in a tick, for no power at all.
    pub fn smallest() -> Ladder
        ensures { ladder_steps result ≡ no_step ∷ (record { speed = 1; power = 0 } ∷ []) }
    {
        let mut steps = [IDLE; 16];
        steps[1] = Step { speed: 1, power: 0 };
        Ladder { steps, count: 2 }
    }

    // The ladder of these steps, or the first rule that they break.
    pub fn of(steps: &[Step]) -> Result<Ladder, Refusal>
        ensures answer { outcome result ≡ first_of (step_lines steps.now (length steps.now)) }
        ensures exact { (is_ok result ≡ true → Lawful steps.now) × (Lawful steps.now → is_ok result ≡ true) }
        ensures made { IfOk result (λ l. ladder_steps l ≡ steps.now) }
    {
        let count = steps.len();
        if count < 2 || count > 16 {
            return Err(Refusal::Count);
        }
        let mut places = [IDLE; 16];
        places[..count].copy_from_slice(steps);
        check(&places[..count])?;
        Ok(Ladder {
            steps: places,
            count,
        })
    }

    // Fills the ladder with the first `count` places of the two arrays, or says which rule they break.
    pub fn fill(
        &mut self,
        speeds: [u64; 16],
        powers: [u64; 16],
        count: usize,
    ) -> Result<(), Refusal>
        ensures answer { outcome result ≡ ladder_refusal speeds powers count }
        ensures exact { (is_ok result ≡ true → Lawful (listed speeds powers count)) × (count ≤ 16 → Lawful (listed speeds powers count) → is_ok result ≡ true) }
        ensures after { MatchResult result (λ _. ladder_steps self.new ≡ listed speeds powers count) (λ _. self.new ≡ self.old) }
    {
        if count < 2 || count > 16 {
            return Err(Refusal::Count);
        }
        let steps = pair(speeds, powers);
        check(&steps[..count])?;
        *self = Ladder { steps, count };
        Ok(())
    }
}

impl Formula {
    // The formula of these figures, or why there is none.
    pub fn new(
        count: usize,
        stride: u64,
        constant: u64,
        linear: u64,
        cubic: u64,
    ) -> Result<Formula, Refusal>
        ensures answer { outcome result ≡ formula_refusal count stride constant linear cubic }
        ensures made { IfOk result (λ f. steps_of f ≡ formula_steps count stride constant linear cubic) }
    {
        if count < 2 || count > 16 {
            return Err(Refusal::Count);
        }
        if stride == 0 || stride > 252 || 5040 % stride != 0 {
            return Err(Refusal::Stride);
        }
        if constant > 100_000 {
            return Err(Refusal::Coefficient {
                term: Term::Constant,
            });
        }
        if linear > 10_000 {
            return Err(Refusal::Coefficient { term: Term::Linear });
        }
        if cubic > 200 {
            return Err(Refusal::Coefficient { term: Term::Cubic });
        }
        Ok(Formula {
            count,
            stride,
            constant,
            linear,
            cubic,
        })
    }
}
