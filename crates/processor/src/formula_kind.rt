// The formula as a processor.
ghost use Rattle.processor.specs.Meanings.{steps_of};
ghost use Rattle.processor.specs.Held.{formula_lawful};
ghost use Rattle.std.proofs.Common.{rules};

use crate::formula::Formula;
use crate::processor::Processor;

impl Processor for Formula {
    const KIND: u8 = 2;

    ghost steps = { steps_of };

    ghost bears = { 2 };

    ghost lawful = { λ p. formula_lawful p.count p.stride p.constant p.linear p.cubic p.lawful };

    ghost known = { Prim.search rules };

    fn count(&self) -> usize {
        self.count
    }

    fn speed(&self, step: usize) -> u64 {
        if step < self.count {
            self.stride * step as u64
        } else {
            0
        }
    }

    fn power(&self, step: usize) -> u64 {
        if step >= self.count {
            return 0;
        }
        let i = step as u64;
        self.constant + self.linear * i + self.cubic * i * i * i
    }

    fn kind_number(&self) -> u8 {
        Self::KIND
    }
}
