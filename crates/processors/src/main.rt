// Shows a ladder and a formula step by step, and what a ladder that breaks a rule is refused with.
#![tactic(auto)]

use processor::formula::Formula;
use processor::ladder::Ladder;
use processor::processor::Processor;
use refusal::refusal::Refusal;
use std::io;

// A processor, a line for each step.
fn show<P: Processor>(rt: &impl Print, name: &str, processor: &P) -> io::Result<()> {
    let kind = processor.kind_number();
    println!(rt; "{name}, kind {kind}")?;
    println!(rt; "  step  speed  power")?;
    for step in 0..processor.count() {
        let speed = processor.speed(step);
        let power = processor.power(step);
        println!(rt; "  {step:>4} {speed:>6} {power:>6}")?;
    }
    Ok(())
}

// A processor that was made, or why it was not.
fn show_made<P: Processor + Drop>(
    rt: &impl Print,
    name: &str,
    made: Result<P, Refusal>,
) -> io::Result<()> {
    match made {
        Ok(processor) => show(rt, name, &processor),
        Err(why) => println!(rt; "{name} is refused: {why}"),
    }
}

// A clock with four working speeds.
fn figures() -> ([u64; 16], [u64; 16]) {
    (
        [0, 630, 1050, 1610, 2030, 0, 0, 0, 0, 0, 0, 0, 0, 0, 0, 0],
        [40, 170, 400, 900, 1600, 0, 0, 0, 0, 0, 0, 0, 0, 0, 0, 0],
    )
}

fn main(rt: HostRuntime) -> io::Result<()> {
    let mut ladder = Ladder::smallest();
    let (speeds, powers) = figures();
    let filled = ladder.fill(speeds, powers, 5);
    show_made(&rt, "ladder", filled.map(|()| ladder))?;
    show_made(&rt, "formula", Formula::new(8, 252, 90, 20, 12))?;
    let mut speeds = [0; 16];
    speeds[1] = 11;
    let filled = ladder.fill(speeds, [0; 16], 2);
    show_made(&rt, "a ladder of speeds 0 and 11", filled.map(|()| ladder))?;
    show(&rt, "the lent ladder is as it was", &ladder)
}
