// The interface through which every planner call sees a processor.
ghost use Rattle.std.specs.Prelude.{◌≡◌, ℕ, ◌≤◌, List, length};
ghost use Rattle.model.specs.Steps.{Lawful, speed_at, power_at};
ghost use Rattle.model.specs.declared.step.Step.{Step};

// A processor means a fixed list of steps that keeps five rules, and bears a fixed kind number.
pub trait Processor {
    // the number of this kind of processor, from 1 to 127
    const KIND: u8;

    ghost steps: { Self → List Step };

    ghost bears: { ℕ };

    // How many steps there are.
    fn count(&self) -> usize
        ensures { result ≡ length (steps self.now) };

    // The speed of a step, 0 for one that is lacking.
    fn speed(&self, step: usize) -> u64
        ensures { result ≡ speed_at (steps self.now) step };

    // The power of a step, 0 for one that is lacking.
    fn power(&self, step: usize) -> u64
        ensures { result ≡ power_at (steps self.now) step };

    // The kind number.
    fn kind_number(&self) -> u8
        ensures { result ≡ bears };

    ghost lawful: { (p : Self) → Lawful (steps p) };

    ghost known: { (1 ≤ bears) × (bears ≤ 127) };
}
