// Times, heights and speeds as places in a picture.
use crate::rows::Evening;
use processor::processor::Processor;

// The ends of the axes: the last deadline, the work of all jobs, and the top speed. None is 0.
#[derive(Drop)]
pub(crate) struct Canvas {
    pub(crate) span: u64,
    total: u64,
    top: u64,
}

// `n` of `whole`, on an axis of this length.
fn scaled(n: u64, whole: u64, length: u64) -> u64 {
    if whole == 0 {
        return 0;
    }
    n.saturating_mul(length) / whole
}

impl Canvas {
    // Axes on which all jobs of an evening and the speeds of its ladder have room.
    pub(crate) fn over(evening: &Evening) -> Canvas {
        let jobs = evening.queue.jobs();
        let last = evening.ladder.count().saturating_sub(1);
        Canvas {
            span: jobs.iter().map(|job| job.deadline).max().unwrap_or(1),
            total: jobs
                .iter()
                .fold(0u64, |sum, job| sum.saturating_add(job.work)),
            top: evening.ladder.speed(last),
        }
    }

    // The head of the picture: its size, its colours and its axes.
    pub(crate) fn open(&self, rt: &impl Print) -> anyhow::Result<()> {
        println!(rt;
            "<svg xmlns=\"http://www.w3.org/2000/svg\" width=\"900\" height=\"520\" viewBox=\"0 0 900 520\">"
        )?;
        println!(rt;
            "  <style>polyline {{ fill: none; stroke-width: 2 }} .ceiling {{ stroke: #b33 }} .floor {{ stroke: #36c }} .path {{ stroke: #2a2; stroke-width: 3 }} rect {{ fill: #999; stroke: #fff }} text {{ font: 13px sans-serif }}</style>"
        )?;
        println!(rt;
            "  <text x=\"60\" y=\"20\">work over time: ceiling red, floor blue, path green</text>"
        )?;
        let span = self.span;
        let total = self.total;
        println!(rt;
            "  <text x=\"860\" y=\"350\" text-anchor=\"end\">time {span}, work {total}</text>"
        )?;
        Ok(())
    }

    // A point of a line: a time and a height.
    pub(crate) fn point(&self, rt: &impl Print, time: u64, height: u64) -> anyhow::Result<()> {
        let x = scaled(time, self.span, 800).saturating_add(60);
        let y = 330u64.saturating_sub(scaled(height, self.total, 300));
        print!(rt; "{x},{y} ")?;
        Ok(())
    }

    // A bar from one tick to another, as high as a speed.
    pub(crate) fn bar(
        &self,
        rt: &impl Print,
        from: u64,
        to: u64,
        speed: u64,
    ) -> anyhow::Result<()> {
        let ticks = self.span.saturating_mul(5040);
        let x = scaled(from, ticks, 800);
        let width = scaled(to, ticks, 800).saturating_sub(x);
        let left = x.saturating_add(60);
        let height = scaled(speed, self.top, 110);
        let y = 480u64.saturating_sub(height);
        println!(rt; "  <rect x=\"{left}\" y=\"{y}\" width=\"{width}\" height=\"{height}\"/>")?;
        Ok(())
    }
}
