// Holding a job at a price, and spending the slip.
ghost use Rattle.std.specs.Prelude.{◌≡◌, true, false, [], ◌∷◌, ◌++◌, is_some, is_ok, Some, IfOk, IfErr};
ghost use Rattle.book.specs.Books.{state, said_price, said_back, handed_back, SoundWith};
ghost use Rattle.book.specs.Calls.{answer, after, slip_line, with_job};
ghost use Rattle.book.specs.Spending.{Spends};
ghost use Rattle.book.specs.Calls.Call.{holds, takes, releases};
ghost use Rattle.model.specs.Charges.{cost};
ghost use Rattle.planner.specs.Planning.{want_line};
ghost use Rattle.queue.specs.Meaning.{jobs_of};
ghost use Rattle.queue.specs.Queues.{push_lines};
ghost use Rattle.refusal.specs.Refusals.{outcome, first_of, told};
ghost use Rattle.refusal.specs.declared.refusal.Refusal.TheVariants.{Slip as OtherSlip};

use crate::book::Book;
use crate::slip::Slip;
use model::job::Job;
use planner::plan::least_energy;
use processor::processor::Processor;
use refusal::refusal::Refusal;

impl Book {
    // The energy of the plan with one job more at the end; the jobs stand as before.
    fn energy_with<P: Processor>(&mut self, job: Job, processor: &P) -> Result<u64, Refusal>
        requires { is_some self.old.held ≡ false }
        ensures answer { outcome result ≡ first_of (push_lines (jobs_of self.old.queue) job ++ (want_line (P.Processor.steps processor.now) (with_job (jobs_of self.old.queue) job) ∷ [])) }
        ensures figure { IfOk result (λ e. e ≡ cost (P.Processor.steps processor.now) (with_job (jobs_of self.old.queue) job)) }
        ensures same { state self.new ≡ state self.old }
    {
        self.queue.push(job)?;
        let energy = least_energy(&self.queue, processor);
        self.queue.pop();
        energy
    }

    // Sets a job aside as the open hold, and gives out a slip with its price.
    pub fn hold<P: Processor>(&mut self, job: Job, processor: &P) -> Result<Slip, Refusal>
        ensures answer { said_price result ≡ answer (state self.old) (holds job (P.Processor.steps processor.now)) }
        ensures state { state self.new ≡ after (state self.old) (holds job (P.Processor.steps processor.now)) }
        ensures opens { IfOk result (λ s. (s.book ≡ (state self.new).number) × (is_some (state self.new).held ≡ true)) }
        ensures sound { SoundWith (state self.old) (state self.new) (holds job (P.Processor.steps processor.now)) }
    {
        if self.held.is_some() {
            return Err(Refusal::Held);
        }
        let with = self.energy_with(job, processor)?;
        let without = least_energy(&self.queue, processor)?;
        if with < without {
            return Err(Refusal::Price);
        }
        self.held = Some(job);
        Ok(Slip {
            book: self.number,
            price: with - without,
        })
    }

    // Spends the slip and closes the hold, and answers its job; a refused one hands the slip back.
    fn spend(&mut self, slip: Slip) -> Result<Job, (Slip, Refusal)>
        ensures spent { IfOk result (λ j. Spends (state self.old) slip.book j (state self.new)) }
        ensures stopped { IfErr result (λ e. (e ≡ (slip, OtherSlip)) × (self.new ≡ self.old) × (first_of (slip_line (state self.old) slip.book ∷ []) ≡ Some (told 15 0))) }
    {
        if slip.book != self.number {
            return Err((slip, Refusal::Slip));
        }
        let Some(job) = self.held.take() else {
            return Err((slip, Refusal::Slip));
        };
        let Slip { book: _, price: _ } = slip;
        Ok(job)
    }

    // Spends the slip and puts the held job at the end; a refused one hands the slip back.
    pub fn take(&mut self, slip: Slip) -> Result<(), (Slip, Refusal)>
        ensures answer { said_back result ≡ answer (state self.old) (takes slip.book) }
        ensures back { handed_back slip result }
        ensures state { state self.new ≡ after (state self.old) (takes slip.book) }
        ensures spends { is_some (state self.old).held ≡ true → slip.book ≡ (state self.old).number → is_ok result ≡ true }
        ensures sound { SoundWith (state self.old) (state self.new) (takes slip.book) }
    {
        let job = self.spend(slip)?;
        match self.queue.push(job) {
            Ok(()) => Ok(()),
            Err(_) => unreachable(),
        }
    }

    // Spends the slip and lets the held job go; a refused one hands the slip back.
    pub fn release(&mut self, slip: Slip) -> Result<(), (Slip, Refusal)>
        ensures answer { said_back result ≡ answer (state self.old) (releases slip.book) }
        ensures back { handed_back slip result }
        ensures state { state self.new ≡ after (state self.old) (releases slip.book) }
        ensures spends { is_some (state self.old).held ≡ true → slip.book ≡ (state self.old).number → is_ok result ≡ true }
        ensures sound { SoundWith (state self.old) (state self.new) (releases slip.book) }
    {
        self.spend(slip)?;
        Ok(())
    }
}
