// Draws a sheet: reads one from standard input, and prints the two walls, the path between them and the plan as an SVG picture.
#![tactic(auto)]

mod canvas;
mod rows;

use crate::canvas::Canvas;
use crate::rows::Evening;
use model::job::Job;
use model::segment::Segment;
use planner::path::path;
use planner::plan::plan;
use processor::processor::Processor;
use std::io::Read;

// One wall: it steps up by each job's work, at a time of the job.
fn draw_wall<F: Fn(&Job) -> u64>(
    rt: &impl Print,
    canvas: &Canvas,
    evening: &Evening,
    class: &str,
    time: F,
) -> anyhow::Result<()>
    requires { F.IsAlwaysCallable time }
{
    print!(rt; "  <polyline class=\"{class}\" points=\"")?;
    canvas.point(rt, 0, 0)?;
    let mut height = 0u64;
    for job in evening.queue.jobs() {
        let at = time(job);
        canvas.point(rt, at, height)?;
        height = height.saturating_add(job.work);
        canvas.point(rt, at, height)?;
    }
    canvas.point(rt, canvas.span, height)?;
    println!(rt; "\"/>")?;
    Ok(())
}

// The path, corner by corner.
fn draw_path(rt: &impl Print, canvas: &Canvas, evening: &Evening) -> anyhow::Result<()> {
    print!(rt; "  <polyline class=\"path\" points=\"")?;
    canvas.point(rt, 0, 0)?;
    let corners = path(&evening.queue);
    for corner in corners.points() {
        canvas.point(rt, u64::from(corner.time), u64::from(corner.height))?;
    }
    println!(rt; "\"/>")?;
    Ok(())
}

// The plan: a bar for each segment, as wide as its ticks and as high as its speed.
fn draw_plan(rt: &impl Print, canvas: &Canvas, evening: &Evening) -> anyhow::Result<()> {
    let mut buffer = [Segment::default(); 1024];
    let Ok(planned) = plan(&evening.queue, &evening.ladder, &mut buffer) else {
        return Ok(());
    };
    let mut tick = 0u64;
    for segment in buffer.iter().take(planned.segments) {
        let end = tick.saturating_add(segment.ticks);
        let speed = evening.ladder.speed(segment.step);
        canvas.bar(rt, tick, end, speed)?;
        tick = end;
    }
    let energy = planned.energy;
    println!(rt; "  <text x=\"60\" y=\"500\">speeds over time; energy {energy}</text>")?;
    Ok(())
}

// The whole picture.
fn draw(rt: &impl Print, evening: &Evening) -> anyhow::Result<()> {
    let canvas = Canvas::over(evening);
    canvas.open(rt)?;
    draw_wall(rt, &canvas, evening, "ceiling", |job| job.arrival)?;
    draw_wall(rt, &canvas, evening, "floor", |job| job.deadline)?;
    draw_path(rt, &canvas, evening)?;
    draw_plan(rt, &canvas, evening)?;
    println!(rt; "</svg>")?;
    Ok(())
}

fn run(rt: &HostRuntime) -> anyhow::Result<()> {
    let mut sheet = Vec::new(rt.alloc());
    rt.stdin().read_to_end(&mut sheet)?;
    match Evening::read(rt.alloc(), sheet.as_slice())? {
        Some(evening) => draw(rt, &evening),
        None => {
            println!(rt; "this sheet is refused: the plan program says why")?;
            Ok(())
        }
    }
}

fn main(rt: HostRuntime) -> anyhow::Result<()> {
    run(&rt)
}
