// Formulas that are taken and formulas that are refused: each limit met, and passed by one.
use crate::answers::told;
use processor::formula::Formula;
use processor::processor::Processor;
use std::test::*;

// What a formula of these figures is answered, 0 and 0 where it was accepted.
fn tried(count: usize, stride: u64, constant: u64, linear: u64, cubic: u64) -> (u32, usize) {
    told(Formula::new(count, stride, constant, linear, cubic))
}

#[test]
fn limits(rt: HostRuntime) -> Result<(), Fail> {
    assert_eq!(rt;
        tried(16, 252, 100_000, 10_000, 200),
        (0, 0),
        "every limit met"
    );
    assert_eq!(rt; tried(1, 0, 100_001, 0, 0), (1, 0), "the count comes first");
    assert_eq!(rt; tried(0, 1, 0, 0, 0), (1, 0));
    assert_eq!(rt; tried(17, 1, 0, 0, 0), (1, 0));
    assert_eq!(rt; tried(2, 0, 100_001, 0, 0), (6, 0), "then the stride");
    assert_eq!(rt; tried(2, 11, 0, 0, 0), (6, 0), "11 does not divide 5,040");
    assert_eq!(rt;
        tried(2, 280, 0, 0, 0),
        (6, 0),
        "280 does, but is above 252"
    );
    assert_eq!(rt; tried(2, 253, 0, 0, 0), (6, 0), "one above the limit");
    assert_eq!(rt; tried(2, 1, 100_001, 10_001, 201), (7, 0));
    assert_eq!(rt; tried(2, 1, 100_000, 10_001, 201), (7, 1));
    assert_eq!(rt; tried(2, 1, 100_000, 10_000, 201), (7, 3));
    Ok(())
}

#[test]
fn steps(rt: HostRuntime) -> Result<(), Fail> {
    let formula = Formula::new(4, 5, 1, 5, 2).map_err(|why| Fail::new(why.number()))?;
    assert_eq!(rt; formula.count(), 4);
    assert_eq!(rt; formula.speed(3), 15);
    assert_eq!(rt; formula.power(3), 70);
    assert_eq!(rt; formula.speed(4), 0);
    assert_eq!(rt; formula.power(4), 0);
    Ok(())
}
