// Ladders that are taken and ladders that are refused: each limit met, and passed by one.
use crate::answers::told;
use model::step::Step;
use processor::ladder::Ladder;
use processor::processor::Processor;
use std::test::*;

// A step of this speed and this power.
fn step(speed: u64, power: u64) -> Step {
    Step { speed, power }
}

// What a ladder of exactly these steps is answered.
fn made(steps: &[Step]) -> (u32, usize) {
    told(Ladder::of(steps))
}

// What a ladder of these first steps and this count is answered.
fn tried(steps: &[(u64, u64)], count: usize) -> (u32, usize) {
    let mut speeds = [0; 16];
    let mut powers = [0; 16];
    for (i, (speed, power)) in steps.iter().enumerate().take(16) {
        speeds[i] = *speed;
        powers[i] = *power;
    }
    let mut ladder = Ladder::smallest();
    told(ladder.fill(speeds, powers, count))
}

const EVEN: [(u64, u64); 16] = [
    (0, 0),
    (1, 1),
    (2, 2),
    (3, 3),
    (4, 4),
    (5, 5),
    (6, 6),
    (7, 7),
    (8, 8),
    (9, 9),
    (10, 10),
    (11, 11),
    (12, 12),
    (13, 13),
    (14, 14),
    (15, 15),
];

#[test]
fn counts(rt: HostRuntime) -> Result<(), Fail> {
    assert_eq!(rt; tried(&EVEN, 0), (1, 0));
    assert_eq!(rt; tried(&EVEN, 1), (1, 0));
    assert_eq!(rt; tried(&EVEN, 2), (0, 0));
    assert_eq!(rt; tried(&EVEN, 16), (0, 0));
    assert_eq!(rt; tried(&EVEN, 17), (1, 0));
    assert_eq!(rt; tried(&EVEN, usize::MAX), (1, 0));
    Ok(())
}

#[test]
fn speeds(rt: HostRuntime) -> Result<(), Fail> {
    assert_eq!(rt; tried(&[(1, 0), (2, 0)], 2), (2, 0), "step 0 is idle");
    assert_eq!(rt; tried(&[(0, 0), (0, 0)], 2), (2, 1), "speeds rise");
    assert_eq!(rt;
        tried(&[(0, 0), (2, 0), (1, 0)], 3),
        (2, 2),
        "speeds rise later too"
    );
    assert_eq!(rt;
        tried(&[(0, 0), (1680, 0), (3360, 0), (4000, 0)], 4),
        (4, 3),
        "4,000 is no speed too high"
    );
    assert_eq!(rt;
        tried(&[(0, 0), (1680, 0), (3360, 0), (3990, 0)], 4),
        (0, 0),
        "630 divides 5,040, and 640 does not"
    );
    assert_eq!(rt;
        tried(&[(0, 0), (1680, 0), (3360, 0), (4001, 0)], 4),
        (2, 3),
        "4,001 is too high"
    );
    assert_eq!(rt;
        tried(&[(0, 0), (u64::MAX, u64::MAX)], 2),
        (2, 1),
        "the largest number"
    );
    Ok(())
}

#[test]
fn powers(rt: HostRuntime) -> Result<(), Fail> {
    assert_eq!(rt;
        tried(&[(0, 1_000_000), (1, 1_000_000)], 2),
        (0, 0),
        "1,000,000 is no power too high"
    );
    assert_eq!(rt;
        tried(&[(0, 0), (1, 1_000_001)], 2),
        (3, 1),
        "1,000,001 is too high"
    );
    assert_eq!(rt;
        tried(&[(0, 1_000_001), (1, 1_000_002)], 2),
        (3, 0),
        "at idle too"
    );
    assert_eq!(rt; tried(&[(0, 5), (1, 4)], 2), (3, 1), "powers do not fall");
    Ok(())
}

#[test]
fn gaps_and_bends(rt: HostRuntime) -> Result<(), Fail> {
    assert_eq!(rt;
        tried(&[(0, 0), (11, 0)], 2),
        (4, 1),
        "11 does not divide 5,040"
    );
    assert_eq!(rt; tried(&[(0, 0), (2520, 0)], 2), (0, 0), "2,520 does");
    assert_eq!(rt;
        tried(&[(0, 0), (1, 5), (2, 6)], 3),
        (5, 2),
        "power rises by 5, then by 1"
    );
    assert_eq!(rt;
        tried(&[(0, 0), (1, 1), (2, 2)], 3),
        (0, 0),
        "a straight line is lawful"
    );
    assert_eq!(rt;
        tried(&[(0, 0), (2, 4), (3, 6), (5, 9)], 4),
        (5, 3),
        "3 for 2 after 2 for 1"
    );
    Ok(())
}

#[test]
fn a_refused_ladder_is_unchanged(rt: HostRuntime) -> Result<(), Fail> {
    let mut ladder = Ladder::smallest();
    let mut speeds = [0; 16];
    speeds[1] = 8;
    assert_eq!(rt; told(ladder.fill(speeds, [3; 16], 2)), (0, 0));
    speeds[1] = 11;
    assert_eq!(rt; told(ladder.fill(speeds, [0; 16], 2)), (4, 1));
    assert_eq!(rt; ladder.speed(1), 8);
    assert_eq!(rt; ladder.power(1), 3);
    assert_eq!(rt; ladder.speed(2), 0, "a step that it lacks");
    Ok(())
}

#[test]
fn slices_of_steps(rt: HostRuntime) -> Result<(), Fail> {
    let idle = step(0, 0);
    assert_eq!(rt; made(&[]), (1, 0));
    assert_eq!(rt; made(&[idle]), (1, 0));
    assert_eq!(rt; made(&[idle, step(1, 1)]), (0, 0));
    assert_eq!(rt;
        made(&EVEN.map(|(speed, power)| step(speed, power))),
        (0, 0)
    );
    assert_eq!(rt; made(&[idle; 17]), (1, 0));
    assert_eq!(rt; made(&[step(1, 0), step(2, 0)]), (2, 0));
    assert_eq!(rt; made(&[idle, step(2, 0), step(1, 0)]), (2, 2));
    assert_eq!(rt; made(&[idle, step(1, 1_000_001)]), (3, 1));
    assert_eq!(rt; made(&[idle, step(11, 0)]), (4, 1));
    assert_eq!(rt; made(&[idle, step(1, 5), step(2, 6)]), (5, 2));
    Ok(())
}

#[test]
fn a_ladder_has_its_steps(rt: HostRuntime) -> Result<(), Fail> {
    let made = Ladder::of(&[step(0, 10), step(1, 12), step(2, 20), step(4, 60)]);
    let ladder = made.map_err(|why| Fail::new(why.number()))?;
    assert_eq!(rt; ladder.count(), 4);
    assert_eq!(rt; ladder.speed(3), 4);
    assert_eq!(rt; ladder.power(3), 60);
    assert_eq!(rt; ladder.speed(4), 0, "a step that it lacks");
    Ok(())
}
