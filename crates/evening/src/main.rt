// One evening from beginning to end: jobs are entered, held, taken, released and struck; then the plan, the close and the
// charges.
#![tactic(auto)]

ghost use Rattle.std.specs.Prelude.{◌≡◌, true, is_some, is_ok};
ghost use Rattle.book.specs.Books.{state};
ghost use Rattle.book.specs.declared.slip.Slip.{Slip};

use book::book::Book;
use book::slip::Slip;
use model::job::Job;
use model::segment::Segment;
use model::step::Step;
use processor::ladder::Ladder;
use processor::processor::Processor;
use refusal::refusal::Refusal;

// A clock with four working speeds.
const CLOCK: [Step; 5] = [
    Step {
        speed: 0,
        power: 40,
    },
    Step {
        speed: 630,
        power: 170,
    },
    Step {
        speed: 1050,
        power: 400,
    },
    Step {
        speed: 1610,
        power: 900,
    },
    Step {
        speed: 2030,
        power: 1600,
    },
];

// A job is entered.
fn enter(rt: &impl Print, book: &mut Book, job: Job) -> anyhow::Result<()> {
    let arrival = job.arrival;
    let deadline = job.deadline;
    let work = job.work;
    let account = job.account;
    match book.enter(job) {
        Ok(()) => println!(rt;
            "enter: data in at {arrival}, due at {deadline}, work {work}, account {account}"
        )?,
        Err(why) => println!(rt; "enter: refused {why}")?,
    }
    Ok(())
}

// A job is held; its price is shown, and its slip is spent.
fn hold<F: FnOnce(&mut Book, Slip) -> Result<(), (Slip, Refusal)>>(
    rt: &impl Print,
    book: &mut Book,
    ladder: &Ladder,
    job: Job,
    spend: F,
    what: &str,
) -> anyhow::Result<()>
    requires callable { F.IsAlwaysCallable spend }
    requires spends { (b : _) (s : Slip) (r : _) (a : _) → F.post spend b s r a → is_some (state b.now).held ≡ true → s.book ≡ (state b.now).number → is_ok r ≡ true }
{
    match book.hold(job, ladder) {
        Ok(slip) => {
            let price = slip.price();
            match spend(book, slip) {
                Ok(()) => {}
                Err((_slip, _why)) => unreachable(),
            }
            println!(rt; "hold: one job more would cost {price}; {what}")?;
        }
        Err(why) => println!(rt; "hold: refused {why}")?,
    }
    Ok(())
}

// The plan of the standing jobs, in a lent buffer.
fn plan(
    rt: &impl Print,
    book: &Book,
    ladder: &Ladder,
    buffer: &mut [Segment],
) -> anyhow::Result<()> {
    match book.plan(ladder, buffer) {
        Ok(planned) => {
            for segment in buffer.iter().take(planned.segments) {
                let step = segment.step;
                let ticks = segment.ticks;
                println!(rt; "plan: step {step} for {ticks:>6} ticks")?;
            }
            let energy = planned.energy;
            println!(rt; "plan: energy {energy}")?;
        }
        Err(why) => println!(rt; "plan: refused {why}")?,
    }
    Ok(())
}

// The charges of the house and of each account that pays, and their sum.
fn charges(rt: &impl Print, book: &Book) -> anyhow::Result<()> {
    let mut sum = 0u64;
    for account in 0..65 {
        if let Ok(energy) = book.charge(account) {
            sum = sum.saturating_add(energy);
            if energy > 0 {
                println!(rt; "charge: account {account:>2} owes {energy:>9}")?;
            }
        }
    }
    println!(rt; "charge: all together {sum:>9}")?;
    Ok(())
}

// The whole evening on one book.
fn evening(rt: &impl Print, book: &mut Book, ladder: &Ladder) -> anyhow::Result<()> {
    enter(
        rt,
        book,
        Job {
            arrival: 0,
            deadline: 30,
            work: 24000,
            account: 1,
        },
    )?;
    enter(
        rt,
        book,
        Job {
            arrival: 10,
            deadline: 45,
            work: 30000,
            account: 2,
        },
    )?;
    hold(
        rt,
        book,
        ladder,
        Job {
            arrival: 20,
            deadline: 60,
            work: 20000,
            account: 1,
        },
        Book::take,
        "taken",
    )?;
    hold(
        rt,
        book,
        ladder,
        Job {
            arrival: 20,
            deadline: 60,
            work: 9000,
            account: 3,
        },
        Book::release,
        "released",
    )?;
    enter(
        rt,
        book,
        Job {
            arrival: 40,
            deadline: 90,
            work: 30000,
            account: 3,
        },
    )?;
    enter(
        rt,
        book,
        Job {
            arrival: 50,
            deadline: 95,
            work: 5000,
            account: 4,
        },
    )?;
    match book.strike() {
        Ok(()) => println!(rt; "strike: the last job is gone")?,
        Err(why) => println!(rt; "strike: refused {why}")?,
    }
    hold(
        rt,
        book,
        ladder,
        Job {
            arrival: 80,
            deadline: 90,
            work: 30000,
            account: 2,
        },
        Book::take,
        "taken",
    )?;
    plan(rt, book, ladder, &mut [Segment::default(); 4])?;
    plan(rt, book, ladder, &mut [Segment::default(); 32])?;
    match book.close(ladder) {
        Ok(energy) => println!(rt; "close: energy {energy}")?,
        Err(why) => println!(rt; "close: refused {why}")?,
    }
    let count = book.count();
    println!(rt; "jobs left: {count}")?;
    charges(rt, book)
}

fn main(rt: HostRuntime) -> anyhow::Result<()> {
    let mut book = Book::new(rt.alloc(), 7)?;
    match Ladder::of(&CLOCK) {
        Ok(ladder) => evening(&rt, &mut book, &ladder)?,
        Err(why) => println!(rt; "ladder: refused {why}")?,
    }
    Ok(())
}
