use crate::bench::{SIZES, minutes, number};
use checker::passes::HandedBack;
use checker::record::Record;
use scale::minutes::Minutes;
use std::test::Fail;
use worklist::mark_table::MarkTable;

// The number of the refusal, and the pass that came with it.
fn handed_back<T: Drop, P>(answer: Result<T, HandedBack<P>>) -> Result<(u8, P), Fail> {
    match answer {
        Ok(_) => Err(Fail::new("accepted")),
        Err(HandedBack { pass, refusal }) => Ok((refusal.number(), pass)),
    }
}

// The new answer of a call that takes a pass.
fn accepted<T, P: Drop>(answer: Result<T, HandedBack<P>>) -> Result<T, Fail> {
    answer.map_err(|_| Fail::new("refused"))
}

#[test]
fn a_session_from_open_to_tally(rt: HostRuntime) -> Result<(), Fail> {
    let f = minutes(4);
    let mut edges = [f; 27];
    let mut weights = [f; 8];
    let mut scratch = [f; 6];
    let mut list = MarkTable::new();
    let mut record = Record::new();
    let pass = record.open(SIZES, &mut edges, &mut list)?;
    record.rule(&pass, &mut weights, &mut list, 0, 0, 1, &[], f)?;
    record.mark_final(&pass, 1)?;

    let (waiting, pass) = handed_back(record.release(pass, &list))?;
    assert_eq!(rt; waiting, 10);
    record.settle(&pass, &mut edges, &weights, &mut list, 100)?;
    let released = accepted(record.release(pass, &list))?;
    assert_eq!(rt;
        record
            .released_question(&released, &edges, &mut scratch, 0, &[0])?
            .map(Minutes::count),
        Some(4)
    );
    assert_eq!(rt;
        record
            .question(&edges, &list, &mut scratch, 0, &[0])?
            .weight
            .map(Minutes::count),
        Some(4)
    );

    let editing = accepted(record.withdraw(released))?;
    record.rule(&editing, &mut weights, &mut list, 0, 0, 1, &[], minutes(3))?;
    record.settle(&editing, &mut edges, &weights, &mut list, 100)?;
    let released = accepted(record.release(editing, &list))?;
    assert_eq!(rt;
        record
            .released_question(&released, &edges, &mut scratch, 0, &[0])?
            .map(Minutes::count),
        Some(3)
    );
    assert_eq!(rt; accepted(record.tally(released))?, 2);
    assert!(rt;
        record
            .question(&edges, &list, &mut scratch, 0, &[0])
            .is_err()
    );
    Ok(())
}

#[test]
fn passes_shown_with_another_record(rt: HostRuntime) -> Result<(), Fail> {
    let f = minutes(1);
    let mut edges = [f; 27];
    let mut scratch = [f; 6];
    let mut list = MarkTable::new();
    let mut record = Record::new();
    let mut other = Record::new();
    let pass = record.open(SIZES, &mut edges, &mut list)?;
    let (refused, pass) = handed_back(other.release(pass, &list))?;
    assert_eq!(rt; refused, 4);
    let released = accepted(record.release(pass, &list))?;
    let (refused, released) = handed_back(other.withdraw(released))?;
    assert_eq!(rt; refused, 4);
    let (refused, released) = handed_back(other.tally(released))?;
    assert_eq!(rt; refused, 4);
    let answer = other.released_question(&released, &edges, &mut scratch, 0, &[]);
    assert_eq!(rt; number(answer), 4);
    Ok(())
}
