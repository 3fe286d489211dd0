// Paths on which a sweep that keeps its apex too long goes wrong.
use model::job::Job;
use model::point::Point;
use planner::path::path;
use queue::queue::Queue;
use std::test::*;

// A failure where something does not hold.
fn check(holds: bool, otherwise: &str) -> Result<(), Fail> {
    if holds {
        Ok(())
    } else {
        Err(Fail::new(otherwise))
    }
}

// The queue of these jobs.
fn queue_of(rt: &HostRuntime, jobs: &[Job]) -> Result<Queue, Fail> {
    let mut queue = Queue::new(rt.alloc())?;
    for job in jobs {
        check(queue.push(*job).is_ok(), "a job is refused")?;
    }
    Ok(queue)
}

// Whether the path of the jobs has these corners.
fn bends_at(rt: &HostRuntime, jobs: &[Job], corners: &[Point]) -> Result<(), Fail> {
    let queue = queue_of(rt, jobs)?;
    let path = path(&queue);
    check(path.points() == corners, "other corners")
}

// A corner at this time and this height.
fn corner(time: u32, height: u32) -> Point {
    Point { time, height }
}

#[test]
fn one_rise(rt: HostRuntime) -> Result<(), Fail> {
    let jobs = [
        Job {
            arrival: 3,
            deadline: 11,
            work: 4,
            account: 1,
        },
        Job {
            arrival: 6,
            deadline: 11,
            work: 5,
            account: 2,
        },
    ];
    bends_at(&rt, &jobs, &[corner(3, 0), corner(11, 9)])
}

#[test]
fn two_falls(rt: HostRuntime) -> Result<(), Fail> {
    let jobs = [
        Job {
            arrival: 0,
            deadline: 1,
            work: 10,
            account: 1,
        },
        Job {
            arrival: 0,
            deadline: 2,
            work: 1,
            account: 2,
        },
        Job {
            arrival: 0,
            deadline: 12,
            work: 29,
            account: 1,
        },
        Job {
            arrival: 10,
            deadline: 14,
            work: 1,
            account: 2,
        },
    ];
    bends_at(&rt, &jobs, &[corner(1, 10), corner(12, 40), corner(14, 41)])
}
