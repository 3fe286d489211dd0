// Replays lists of calls on books, and compares each answer with the one that is expected.
//
// Each line of the input is a call, an equals sign and its answer. The word `book` begins a new book; a processor stays for the books
// after it.
#![tactic(auto)]

mod answer;
mod call;
mod desk;
mod keeper;
mod machine;
mod read;
mod slips;
mod tally;

use crate::answer::text;
use crate::desk::Desk;
use crate::read::{first_word, read};
use crate::tally::Tally;
use anyhow::anyhow;
use std::io::{BufRead, BufReader};

// How many calls that are answered otherwise are shown in full.
const SHOWN: u64 = 10;

// A call that is answered otherwise than expected.
fn show_miss(rt: &impl Print, line: &str, answer: &str) -> anyhow::Result<()> {
    println!(rt; "{line}, but the answer is {answer}")?;
    Ok(())
}

// Replays one line.
fn replay_line(
    rt: &HostRuntime,
    desk: &mut Desk,
    tally: &mut Tally,
    line: &str,
) -> anyhow::Result<()> {
    let Some((told, expected)) = line.split_once(" = ") else {
        return Err(anyhow!("a line has no answer"));
    };
    let call = read(rt.alloc(), told)?;
    let answer = desk.answer(call)?;
    let text = text(&answer, rt.alloc())?;
    let met = text.as_str() == expected;
    if !met && tally.missed() < SHOWN {
        show_miss(rt, line, text.as_str())?;
    }
    tally.note(first_word(told), answer.is_err(), met);
    Ok(())
}

// Replays every line of the input.
fn replay(rt: &HostRuntime, desk: &mut Desk, tally: &mut Tally) -> anyhow::Result<()> {
    for line in BufReader::new(rt.alloc(), rt.stdin())?.lines(rt.alloc()) {
        let line = line?;
        if let Err(why) = replay_line(rt, desk, tally, line.as_str()) {
            let _ = eprintln!(rt; "stopped at: {line}");
            return Err(why);
        }
    }
    Ok(())
}

// Shows the table, and is an error where an answer was not as expected.
fn sum_up(rt: &HostRuntime, tally: &Tally) -> anyhow::Result<()> {
    tally.show(rt)?;
    if tally.missed() > 0 {
        return Err(anyhow!("not every answer is as expected"));
    }
    Ok(())
}

// Replays the input, and says why where it stops.
fn run(rt: &HostRuntime, desk: &mut Desk) -> anyhow::Result<()> {
    let mut tally = Tally::new();
    replay(rt, desk, &mut tally)?;
    sum_up(rt, &tally)
}

fn main(rt: HostRuntime) -> anyhow::Result<()> {
    let mut desk = Desk::new(rt.alloc())?;
    let ran = run(&rt, &mut desk);
    desk.leave();
    ran
}
