use crate::bench::{SIZES, flags, minutes};
use checker::record::Record;
use checker::refusals::Refusal;
use scale::Scale;
use scale::flags::Flags;
use scale::presemiring::Presemiring;
use scale::yes_no::YesNo;
use std::test::Fail;
use worklist::Worklist;
use worklist::mark_table::MarkTable;
use worklist::ring::Ring;

// What the calls of a session are lent.
#[derive(Drop)]
struct Lent<'a, S, K> {
    edges: &'a mut [S],
    weights: &'a mut [S],
    scratch: &'a mut [S],
    list: &'a mut K,
}

// The arrays of a session of these sizes, full of a weight. A macro, since a generic function that made them would have to
// require that they fit in memory.
macro_rules! lent {
    ($weight:expr, $list:expr) => {
        Lent {
            edges: &mut [$weight; 27],
            weights: &mut [$weight; 8],
            scratch: &mut [$weight; 6],
            list: &mut $list,
        }
    };
}

// The worked table with the weights of its four rules: whether the settled answers for a survey and a purge are the sixth
// and the seventh weight, before and after a rule of the fifth that skips the survey. Not by the fixture, which holds arrays: a
// generic function over it was tried, and would have to require that it fits in memory.
fn worked<S: Scale, K: Worklist>(lent: Lent<'_, S, K>, given: [S; 7]) -> Result<bool, Refusal> {
    let Lent {
        edges,
        weights,
        scratch,
        list,
    } = lent;
    let [f0, f1, f2, f3, skip, before, after] = given;
    let mut record = Record::new();
    let pass = record.open(SIZES, edges, list)?;
    record.rule(&pass, weights, list, 0, 0, 1, &[0, 1], f0)?;
    record.rule(&pass, weights, list, 1, 0, 1, &[], f1)?;
    record.rule(&pass, weights, list, 1, 1, 0, &[], f2)?;
    record.rule(&pass, weights, list, 0, 1, 0, &[], f3)?;
    record.edge(&pass, edges, list, 0, 2, 2, S::one())?;
    record.mark_final(&pass, 2)?;
    record.settle(&pass, edges, weights, list, 100)?;
    let first = record.question(edges, list, scratch, 0, &[0, 2])?;
    record.rule(&pass, weights, list, 0, 0, 0, &[], skip)?;
    record.settle(&pass, edges, weights, list, 100)?;
    let second = record.question(edges, list, scratch, 0, &[0, 2])?;
    Ok(first.weight.same(before) && second.weight.same(after))
}

// Jobs that call themselves, to any depth: the settled answers for four words from each control.
fn recursive<S: Scale, K: Worklist>(
    lent: Lent<'_, S, K>,
    given: [S; 4],
    answers: &mut [S],
) -> Result<(), Refusal> {
    let Lent {
        edges,
        weights,
        scratch,
        list,
    } = lent;
    let [f0, f1, f2, f3] = given;
    let mut record = Record::new();
    let pass = record.open(SIZES, edges, list)?;
    record.rule(&pass, weights, list, 0, 0, 0, &[0, 1], f0)?;
    record.rule(&pass, weights, list, 0, 0, 1, &[1], f1)?;
    record.rule(&pass, weights, list, 1, 1, 1, &[], f2)?;
    record.rule(&pass, weights, list, 1, 1, 0, &[1, 0], f3)?;
    record.rule(&pass, weights, list, 0, 1, 1, &[0, 0], f1)?;
    record.rule(&pass, weights, list, 1, 0, 0, &[], f2)?;
    record.edge(&pass, edges, list, 0, 2, 2, S::one())?;
    record.edge(&pass, edges, list, 2, 0, 2, f0)?;
    record.mark_final(&pass, 2)?;
    record.settle(&pass, edges, weights, list, 4_000)?;
    let words: [&[u8]; 4] = [&[2], &[0, 2], &[1, 0, 2], &[0, 1, 0, 2]];
    for (place, answer) in answers.iter_mut().enumerate() {
        let control = place / words.len();
        let word = words[place % words.len()];
        *answer = record.question(edges, list, scratch, control, word)?.weight;
    }
    Ok(())
}

#[test]
fn worked_over_each_scale_and_worklist(rt: HostRuntime) -> Result<(), Fail> {
    let times = [5, 2, 3, 1, 4, 10, 4].map(minutes);
    assert!(rt; worked(lent!(None, MarkTable::new()), times)?);
    assert!(rt; worked(lent!(None, Ring::new(&mut [7; 9])), times)?);
    let yes = [YesNo::one(); 7];
    assert!(rt; worked(lent!(YesNo::none(), MarkTable::new()), yes)?);
    assert!(rt; worked(lent!(YesNo::none(), Ring::new(&mut [7; 9])), yes)?);
    let one = Some(Flags::one());
    let sets = flags(0xffff_ffff, 1);
    let clears = flags(0xffff_fffe, 0);
    let words = [sets, one, clears, one, sets, clears, sets];
    assert!(rt; worked(lent!(None, MarkTable::new()), words)?);
    assert!(rt; worked(lent!(None, Ring::new(&mut [7; 9])), words)?);
    Ok(())
}

#[test]
fn equal_answers_over_both_worklists(rt: HostRuntime) -> Result<(), Fail> {
    let given = [
        flags(0xffff_ffff, 1),
        flags(0xffff_fffd, 0),
        flags(0xffff_ffff, 4),
        flags(0xffff_fffe, 2),
    ];
    let mut slots = [0; 8];
    let mut list = MarkTable::new();
    let mut ring = Ring::new(&mut slots);
    let mut by_marks = [None; 8];
    let mut by_ring = [Some(Flags::one()); 8];
    recursive(lent!(None, list), given, &mut by_marks)?;
    recursive(lent!(None, ring), given, &mut by_ring)?;
    for (one, other) in by_marks.iter().zip(by_ring.iter()) {
        assert!(rt; one.same(*other));
    }
    assert!(rt; !by_marks[1].same(None));
    Ok(())
}

#[test]
fn a_ring_gives_numbers_in_the_order_in_which_they_came(rt: HostRuntime) {
    let mut slots = [9; 3];
    let mut ring = Ring::new(&mut slots);
    assert_eq!(rt; ring.capacity(), 3);
    assert!(rt; ring.is_empty());
    assert_eq!(rt; ring.put(3), Err(3));
    assert_eq!(rt; ring.put(2), Ok(()));
    assert_eq!(rt; ring.put(0), Ok(()));
    assert_eq!(rt; ring.put(2), Ok(()));
    assert_eq!(rt; ring.take(), Some(2));
    assert_eq!(rt; ring.put(1), Ok(()));
    assert_eq!(rt; ring.put(2), Ok(()));
    assert_eq!(rt; ring.take(), Some(0));
    assert_eq!(rt; ring.take(), Some(1));
    assert_eq!(rt; ring.take(), Some(2));
    assert_eq!(rt; ring.take(), None);
}
