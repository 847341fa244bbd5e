use crate::bench::{Bench, SIZES, minutes, number};
use crate::single::Single;
use checker::record::Record;
use checker::refusals::Refusal;
use runs::replay::BrokenAt;
use scale::minutes::Minutes;
use scale::presemiring::Presemiring;
use std::test::Fail;
use worklist::mark_table::MarkTable;

fn bench() -> Result<Bench<Option<Minutes>, MarkTable>, Refusal> {
    Bench::open(MarkTable::new())
}

#[test]
fn rules(rt: HostRuntime) -> Result<(), Fail> {
    let mut b = bench()?;
    let f = minutes(1);
    let long: [u8; 3] = [0, 1, 2];
    let bad: [u8; 3] = [0, 1, 3];
    let cases: [(usize, u8, usize, &[u8], u8); 9] = [
        (2, 0, 0, &[], 5),
        (0, 0, 2, &[], 5),
        (0, 3, 0, &[], 6),
        (0, 0, 0, &[3], 6),
        (0, 0, 0, &[0, 3], 6),
        (0, 0, 0, &long, 7),
        (0, 0, 0, &bad, 6),
        (2, 3, 0, &bad, 5),
        (1, 2, 1, &[2, 2], 0),
    ];
    for (control, symbol, target, word, expected) in cases {
        assert_eq!(rt;
            number(b.rule((control, symbol), target, word, f)),
            expected
        );
    }
    Ok(())
}

#[test]
fn the_ninth_rule(rt: HostRuntime) -> Result<(), Fail> {
    let mut b = bench()?;
    for n in 0..8 {
        assert_eq!(rt; b.rule((0, 0), 0, &[], minutes(1))?, n);
    }
    assert_eq!(rt; number(b.rule((0, 0), 0, &[], minutes(1))), 9);
    assert_eq!(rt; number(b.rule((0, 0), 0, &[0, 1, 2], minutes(1))), 7);
    Ok(())
}

#[test]
fn edges(rt: HostRuntime) -> Result<(), Fail> {
    let mut b = bench()?;
    let cases = [
        (3, 0, 2, 5),
        (0, 0, 3, 5),
        (0, 3, 2, 6),
        (0, 0, 1, 8),
        (0, 3, 1, 6),
        (3, 3, 1, 5),
        (2, 2, 2, 0),
    ];
    for (from, symbol, to, expected) in cases {
        assert_eq!(rt;
            number(b.edge(from, symbol, to, Some(Minutes::one()))),
            expected
        );
    }
    assert_eq!(rt; b.edge(2, 2, 2, Some(Minutes::one()))?, false);
    Ok(())
}

#[test]
fn finals_and_questions(rt: HostRuntime) -> Result<(), Fail> {
    let mut b = bench()?;
    assert_eq!(rt; number(b.mark_final(3)), 5);
    assert_eq!(rt; number(b.mark_final(2)), 0);
    assert_eq!(rt; number(b.mark_final(2)), 0);
    assert_eq!(rt; number(b.ask(2, &[])), 5);
    assert_eq!(rt; number(b.ask(2, &[3])), 5);
    assert_eq!(rt; number(b.ask(1, &[0, 3])), 6);
    assert_eq!(rt; number(b.ask(1, &[0, 2])), 0);
    Ok(())
}

#[test]
fn too_short(rt: HostRuntime) -> Result<(), Fail> {
    let f = minutes(1);
    let mut all = [f; 27];
    let mut edges = [f; 26];
    let mut limit = [f; 8];
    let mut weights = [f; 7];
    let mut row = [f; 6];
    let mut scratch = [f; 5];
    let mut list = MarkTable::new();
    let mut record = Record::new();
    assert_eq!(rt; number(record.open(SIZES, &mut edges, &mut list)), 2);
    let pass = record.open(SIZES, &mut all, &mut list)?;
    assert_eq!(rt;
        number(record.rule(&pass, &mut weights, &mut list, 2, 0, 0, &[], f)),
        2
    );
    assert_eq!(rt;
        number(record.rule(&pass, &mut limit, &mut list, 1, 0, 0, &[], f)),
        0
    );
    assert_eq!(rt;
        number(record.edge(&pass, &mut edges, &mut list, 3, 0, 2, f)),
        2
    );
    assert_eq!(rt;
        number(record.settle(&pass, &mut edges, &limit, &mut list, 1)),
        2
    );
    assert_eq!(rt;
        number(record.settle(&pass, &mut all, &weights, &mut list, 1)),
        2
    );
    assert_eq!(rt; number(record.question(&edges, &list, &mut row, 2, &[])), 2);
    assert_eq!(rt;
        number(record.question(&all, &list, &mut scratch, 2, &[])),
        2
    );
    assert_eq!(rt; number(record.question(&all, &list, &mut row, 1, &[])), 0);
    Ok(())
}

#[test]
fn small_worklists(rt: HostRuntime) -> Result<(), Fail> {
    let f = minutes(1);
    let mut edges = [f; 27];
    let mut weights = [f; 8];
    let mut list = MarkTable::new();
    let mut single = Single::new();
    let mut record = Record::new();
    assert_eq!(rt; number(record.open(SIZES, &mut edges, &mut single)), 3);
    let pass = record.open(SIZES, &mut edges, &mut list)?;
    assert_eq!(rt;
        number(record.rule(&pass, &mut weights, &mut single, 2, 0, 0, &[], f)),
        3
    );
    assert_eq!(rt;
        number(record.edge(&pass, &mut edges, &mut single, 3, 0, 2, f)),
        3
    );
    assert_eq!(rt;
        number(record.settle(&pass, &mut edges, &weights, &mut single, 1)),
        3
    );
    Ok(())
}

#[test]
fn blank_records(rt: HostRuntime) -> Result<(), Fail> {
    let f = minutes(1);
    let mut all = [f; 27];
    let mut edges = [f; 0];
    let mut weights = [f; 0];
    let mut scratch = [f; 0];
    let mut list = MarkTable::new();
    let pass = Record::new().open(SIZES, &mut all, &mut list)?;
    let mut blank = Record::new();
    assert_eq!(rt;
        number(blank.rule(&pass, &mut weights, &mut list, 9, 0, 0, &[], f)),
        4
    );
    assert_eq!(rt;
        number(blank.edge(&pass, &mut edges, &mut list, 9, 0, 2, f)),
        4
    );
    assert_eq!(rt; number(blank.mark_final(&pass, 9)), 4);
    assert_eq!(rt;
        number(blank.settle(&pass, &mut edges, &weights, &mut list, 1)),
        4
    );
    assert_eq!(rt;
        number(blank.question(&edges, &list, &mut scratch, 9, &[])),
        4
    );
    Ok(())
}

#[test]
fn say_why(rt: HostRuntime) -> Result<(), Fail> {
    let at = BrokenAt {
        place: 3,
        control: 0,
        length: 1,
    };
    let texts = [
        (Refusal::Full, "there are as many rules as may be"),
        (
            Refusal::Misfit(at),
            "no rule fits at entry 3, in control 0 with a stack of 1",
        ),
    ];
    for (refusal, text) in texts {
        let said = format!(in rt.alloc(); "{refusal}")?;
        assert_eq!(rt; said.as_str(), text);
    }
    Ok(())
}
