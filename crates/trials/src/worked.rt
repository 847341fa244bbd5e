use crate::bench::{minutes, worked};
use scale::minutes::Minutes;
use std::test::Fail;

#[test]
fn settles_and_answers(rt: HostRuntime) -> Result<(), Fail> {
    let mut b = worked()?;
    let report = b.settle(100)?;
    assert_eq!(rt; report.steps, 8);
    assert_eq!(rt; report.raises, 4);
    assert!(rt; report.settled);
    let questions: [(usize, &[u8], Option<u32>); 4] = [
        (0, &[0, 2], Some(10)),
        (1, &[0, 2], None),
        (0, &[], None),
        (0, &[2], Some(0)),
    ];
    for (control, word, count) in questions {
        let answer = b.ask(control, word)?;
        assert_eq!(rt; answer.weight.map(Minutes::count), count);
        assert!(rt; answer.settled);
    }
    Ok(())
}

#[test]
fn stops_at_its_budget(rt: HostRuntime) -> Result<(), Fail> {
    let mut b = worked()?;
    let report = b.settle(5)?;
    assert_eq!(rt; report.steps, 5);
    assert_eq!(rt; report.raises, 3);
    assert!(rt; !report.settled);
    let answer = b.ask(0, &[0, 2])?;
    assert_eq!(rt; answer.weight.map(Minutes::count), Some(10));
    assert!(rt; !answer.settled);
    Ok(())
}

#[test]
fn goes_on_after_an_addition(rt: HostRuntime) -> Result<(), Fail> {
    let mut b = worked()?;
    b.settle(100)?;
    assert_eq!(rt; b.rule((0, 0), 0, &[], minutes(4))?, 4);
    let report = b.settle(100)?;
    assert_eq!(rt; report.steps, 2);
    assert_eq!(rt; report.raises, 1);
    assert!(rt; report.settled);
    assert_eq!(rt; b.ask(0, &[0, 2])?.weight.map(Minutes::count), Some(4));
    Ok(())
}
