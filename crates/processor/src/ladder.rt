// A processor whose steps are written out.
ghost use Rattle.std.specs.Prelude.{◌≡◌, false, length, take, is_some};
ghost use Rattle.processor.specs.Rules.{step_lines};
ghost use Rattle.refusal.specs.Refusals.{first_of};

use model::step::Step;

// A ladder: its first `count` steps. No ladder exists whose steps break a rule.
#[derive(Clone, Copy)]
pub struct Ladder {
    pub(crate) steps: [Step; 16],
    pub(crate) count: usize,
    ghost full: { length steps ≡ 16 },
    ghost lawful: { is_some (first_of (step_lines (take count steps) count)) ≡ false },
}
