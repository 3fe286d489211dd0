// The ladder as a processor.
ghost use Rattle.std.specs.Prelude.{◌≡◌, slice_index_or};
ghost use Rattle.model.specs.Steps.{no_step};
ghost use Rattle.processor.specs.Meanings.{ladder_steps};
ghost use Rattle.processor.specs.Held.{ladder_lawful};
ghost use Rattle.std.proofs.Common.{rules};

use crate::ladder::Ladder;
use crate::processor::Processor;
use model::step::Step;

impl Ladder {
    // A step, of no speed and no power where it is lacking.
    fn step(&self, step: usize) -> Step
        ensures { result ≡ slice_index_or (ladder_steps self.now) step no_step }
    {
        self.steps[..self.count]
            .get(step)
            .copied()
            .unwrap_or_default()
    }
}

impl Processor for Ladder {
    const KIND: u8 = 1;

    ghost steps = { ladder_steps };

    ghost bears = { 1 };

    ghost lawful = { λ p. ladder_lawful p.steps p.count p.full p.lawful };

    ghost known = { Prim.search rules };

    fn count(&self) -> usize {
        self.count
    }

    #[tactic(auto, unfolding(model::specs::Steps::speed_at))]
    fn speed(&self, step: usize) -> u64 {
        self.step(step).speed
    }

    #[tactic(auto, unfolding(model::specs::Steps::power_at))]
    fn power(&self, step: usize) -> u64 {
        self.step(step).power
    }

    fn kind_number(&self) -> u8 {
        Self::KIND
    }
}
