// Tries the worked cases on the code, one by one, and prints what came out.
#![tactic(auto)]

mod cases;

use crate::cases::{BEND, CASES, Case, GAP};
use book::book::Book;
use model::job::Job;
use model::segment::Segment;
use model::step::Step;
use processor::ladder::Ladder;

// A ladder that is tried on its own.
fn try_ladder(rt: &impl Print, name: &str, steps: &[Step]) -> anyhow::Result<()> {
    println!(rt; "{name}")?;
    match Ladder::of(steps) {
        Ok(_) => println!(rt; "  ladder: made")?,
        Err(why) => println!(rt; "  ladder: refused {why}")?,
    }
    Ok(())
}

// Deadlines at the limit and past it.
fn try_deadlines(rt: &HostRuntime) -> anyhow::Result<()> {
    println!(rt; "deadlines at the limit")?;
    let mut book = Book::new(rt.alloc(), 0)?;
    for deadline in 200_000..200_002 {
        match book.enter(Job {
            arrival: 0,
            deadline,
            work: 1,
            account: 1,
        }) {
            Ok(()) => println!(rt; "  deadline {deadline}: taken")?,
            Err(why) => println!(rt; "  deadline past it: refused {why}")?,
        }
    }
    Ok(())
}

// The plan of the standing jobs in a lent buffer.
fn show_plan(
    rt: &impl Print,
    book: &Book,
    ladder: &Ladder,
    buffer: &mut [Segment],
) -> anyhow::Result<()> {
    match book.plan(ladder, buffer) {
        Ok(planned) => {
            for segment in buffer.iter().take(planned.segments) {
                println!(rt; "  {segment}")?;
            }
            let energy = planned.energy;
            println!(rt; "  energy {energy}")?;
        }
        Err(why) => println!(rt; "  plan: refused {why}")?,
    }
    Ok(())
}

// The price of one job more, which is then let go.
fn show_price(rt: &impl Print, book: &mut Book, ladder: &Ladder, job: Job) -> anyhow::Result<()> {
    match book.hold(job, ladder) {
        Ok(slip) => {
            let price = slip.price();
            match book.release(slip) {
                Ok(()) => {}
                Err((_slip, _why)) => unreachable(),
            }
            println!(rt; "  price of one job more {price}")?;
        }
        Err(why) => println!(rt; "  hold: refused {why}")?,
    }
    Ok(())
}

// The close, with the charges of the house and of accounts 1 and 2.
fn show_close(rt: &impl Print, book: &mut Book, ladder: &Ladder) -> anyhow::Result<()> {
    match book.close(ladder) {
        Ok(_) => {
            for account in 0..3 {
                if let Ok(energy) = book.charge(account) {
                    println!(rt; "  charge of {account}: {energy}")?;
                }
            }
        }
        Err(why) => println!(rt; "  close: refused {why}")?,
    }
    Ok(())
}

// One case of the table.
fn try_case(rt: &HostRuntime, case: &Case) -> anyhow::Result<()> {
    let name = case.name;
    println!(rt; "{name}")?;
    let mut book = Book::new(rt.alloc(), 1)?;
    for job in case.jobs {
        if let Err(why) = book.enter(*job) {
            println!(rt; "  enter: refused {why}")?;
        }
    }
    match Ladder::of(case.steps) {
        Ok(ladder) => {
            if case.short {
                show_plan(rt, &book, &ladder, &mut [Segment::default(); 3])?;
            }
            show_plan(rt, &book, &ladder, &mut [Segment::default(); 8])?;
            for job in case.held {
                show_price(rt, &mut book, &ladder, *job)?;
            }
            show_close(rt, &mut book, &ladder)?;
        }
        Err(why) => println!(rt; "  ladder: refused {why}")?,
    }
    Ok(())
}

fn main(rt: HostRuntime) -> anyhow::Result<()> {
    try_ladder(&rt, "a gap that does not divide 5,040", &GAP)?;
    try_ladder(&rt, "a bend the wrong way", &BEND)?;
    try_deadlines(&rt)?;
    for case in CASES.iter() {
        try_case(&rt, case)?;
    }
    Ok(())
}
