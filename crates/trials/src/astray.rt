use crate::bench::{Bench, flags, minutes};
use scale::flags::Flags;
use scale::minutes::Minutes;
use scale::presemiring::Presemiring;
use std::test::Fail;
use worklist::mark_table::MarkTable;

#[test]
fn extends_forwards(rt: HostRuntime) -> Result<(), Fail> {
    let mut b = Bench::open(MarkTable::new())?;
    let one = Some(Flags::one());
    b.add_worked([flags(0xffff_ffff, 1), one, flags(0xffff_fffe, 0), one])?;
    b.settle(100)?;
    let answer = b.ask(0, &[0, 2])?;
    assert!(rt; answer.settled);
    assert_eq!(rt; answer.weight.map(Flags::keep), Some(0xffff_fffe));
    assert_eq!(rt; answer.weight.map(Flags::set), Some(0));
    Ok(())
}

// The last rule opens a way to control 1 and, only when it is looked at again, one from there back to control 0.
#[test]
fn puts_a_rule_again_that_reads_its_own_symbol(rt: HostRuntime) -> Result<(), Fail> {
    let mut b = Bench::open(MarkTable::new())?;
    let one = Some(Flags::one());
    b.rule((0, 0), 0, &[], one)?;
    b.rule((0, 1), 1, &[], flags(0xffff_ffff, 1))?;
    b.rule((1, 1), 0, &[], flags(0xffff_ffff, 2))?;
    b.rule((0, 0), 0, &[0, 1], one)?;
    b.edge(0, 2, 2, one)?;
    b.mark_final(2)?;
    b.settle(100)?;
    let answer = b.ask(0, &[0, 2])?;
    assert!(rt; answer.settled);
    assert_eq!(rt; answer.weight.map(Flags::keep), Some(0xffff_ffff));
    assert_eq!(rt; answer.weight.map(Flags::set), Some(3));
    Ok(())
}

#[test]
fn a_final_control_accepts_the_empty_word(rt: HostRuntime) -> Result<(), Fail> {
    let mut b = Bench::open(MarkTable::new())?;
    b.rule((0, 0), 1, &[], minutes(3))?;
    b.mark_final(1)?;
    b.settle(100)?;
    assert_eq!(rt; b.ask(1, &[])?.weight.map(Minutes::count), Some(0));
    assert_eq!(rt; b.ask(0, &[])?.weight.map(Minutes::count), None);
    assert_eq!(rt; b.ask(0, &[0])?.weight.map(Minutes::count), Some(3));
    Ok(())
}
