use crate::bench::worked;
use checker::refusals::Refusal;
use runs::replay::BrokenAt;
use scale::minutes::Minutes;
use std::test::Fail;

#[test]
fn runs_to_the_target(rt: HostRuntime) -> Result<(), Fail> {
    let b = worked()?;
    let mut buffer = [2, 0, 9];
    let run = b.record.replay(&b.weights, &[0, 1, 2], 0, &mut buffer, 2)?;
    assert_eq!(rt; run.control, 0);
    assert_eq!(rt; run.length, 1);
    assert_eq!(rt; run.weight.map(Minutes::count), Some(10));
    // The places that the run has emptied keep their bytes.
    assert!(rt; buffer == [2, 1, 0]);
    Ok(())
}

#[test]
fn stops_where_a_symbol_has_no_place(rt: HostRuntime) -> Result<(), Fail> {
    let b = worked()?;
    let mut buffer = [2, 0];
    let answer = b.record.replay(&b.weights, &[0, 1, 2], 0, &mut buffer, 2);
    let at = BrokenAt {
        place: 0,
        control: 0,
        length: 2,
    };
    assert_eq!(rt; answer.err(), Some(Refusal::NoRoom(at)));
    assert!(rt; buffer == [2, 0]);
    Ok(())
}

#[test]
fn stops_where_a_rule_does_not_fit(rt: HostRuntime) -> Result<(), Fail> {
    let b = worked()?;
    let stops: [(&[usize], usize, usize, usize); 4] = [
        (&[3], 0, 0, 2),
        (&[0, 0], 1, 1, 3),
        (&[0, 1, 2, 7], 3, 0, 1),
        (&[0, 1, 2, 3], 3, 0, 1),
    ];
    for (numbers, place, control, length) in stops {
        let mut buffer = [2, 0, 9];
        let answer = b.record.replay(&b.weights, numbers, 0, &mut buffer, 2);
        let at = BrokenAt {
            place,
            control,
            length,
        };
        assert_eq!(rt; answer.err(), Some(Refusal::Misfit(at)));
    }
    Ok(())
}

#[test]
fn refused_before_the_first_entry(rt: HostRuntime) -> Result<(), Fail> {
    let b = worked()?;
    let refused = [
        ([2, 0], 3, 0, 2),
        ([2, 0], 3, 2, 2),
        ([2, 3], 2, 2, 5),
        ([2, 3], 2, 1, 6),
        ([2, 3], 1, 1, 0),
    ];
    for (mut buffer, height, control, expected) in refused {
        match b
            .record
            .replay(&b.weights, &[], control, &mut buffer, height)
        {
            Ok(run) => {
                assert_eq!(rt; expected, 0);
                assert_eq!(rt; run.length, height);
            }
            Err(refusal) => assert_eq!(rt; refusal.number(), expected),
        }
    }
    Ok(())
}
