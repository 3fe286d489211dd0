// Plans one evening of jobs on two processors, and shows the path, the segments and the energy.
#![tactic(auto)]

use model::job::Job;
use model::segment::Segment;
use model::step::Step;
use planner::path::path;
use planner::plan::plan;
use processor::formula::Formula;
use processor::ladder::Ladder;
use processor::processor::Processor;
use queue::queue::Queue;

// The jobs of the evening.
const JOBS: [Job; 5] = [
    Job {
        arrival: 0,
        deadline: 30,
        work: 24000,
        account: 1,
    },
    Job {
        arrival: 10,
        deadline: 45,
        work: 30000,
        account: 2,
    },
    Job {
        arrival: 20,
        deadline: 60,
        work: 20000,
        account: 1,
    },
    Job {
        arrival: 40,
        deadline: 90,
        work: 30000,
        account: 3,
    },
    Job {
        arrival: 75,
        deadline: 120,
        work: 12000,
        account: 2,
    },
];

// A clock with four working speeds.
const CLOCK: [Step; 5] = [
    Step {
        speed: 0,
        power: 40,
    },
    Step {
        speed: 630,
        power: 170,
    },
    Step {
        speed: 1050,
        power: 400,
    },
    Step {
        speed: 1610,
        power: 900,
    },
    Step {
        speed: 2030,
        power: 1600,
    },
];

// The corners of the path.
fn show_path(rt: &impl Print, queue: &Queue) -> anyhow::Result<()> {
    println!(rt; "path")?;
    let corners = path(queue);
    for corner in corners.points() {
        let time = corner.time;
        let height = corner.height;
        println!(rt; "  by time {time:>3}, {height:>6} units of work")?;
    }
    Ok(())
}

// The plan on one processor.
fn show_plan<P: Processor>(
    rt: &impl Print,
    name: &str,
    queue: &Queue,
    processor: &P,
) -> anyhow::Result<()> {
    println!(rt; "plan on the {name}")?;
    let mut buffer = [Segment::default(); 64];
    match plan(queue, processor, &mut buffer) {
        Ok(planned) => {
            for segment in buffer.iter().take(planned.segments) {
                let step = segment.step;
                let ticks = segment.ticks;
                println!(rt; "  step {step} for {ticks:>5} ticks")?;
            }
            let energy = planned.energy;
            println!(rt; "  energy {energy}")?;
        }
        Err(why) => println!(rt; "refused: {why}")?,
    }
    Ok(())
}

fn main(rt: HostRuntime) -> anyhow::Result<()> {
    let mut queue = Queue::new(rt.alloc())?;
    for job in JOBS {
        if let Err(why) = queue.push(job) {
            println!(rt; "refused: {why}")?;
        }
    }
    show_path(&rt, &queue)?;
    match Ladder::of(&CLOCK) {
        Ok(ladder) => show_plan(&rt, "ladder", &queue, &ladder)?,
        Err(why) => println!(rt; "refused: {why}")?,
    }
    match Formula::new(8, 252, 90, 20, 12) {
        Ok(formula) => show_plan(&rt, "formula", &queue, &formula)?,
        Err(why) => println!(rt; "refused: {why}")?,
    }
    Ok(())
}
