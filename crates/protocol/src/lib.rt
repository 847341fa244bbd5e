#![tactic(auto)]

use checker::passes::{Editing, HandedBack, Released};
use checker::record::Record;
use scale::Scale;
use worklist::Worklist;

// A rule added just before release, with the pass that release then takes.
fn add_and_release<S: Scale, K: Worklist>(
    record: &mut Record,
    pass: Editing,
    weights: &mut [S],
    worklist: &mut K,
) -> Result<Released, HandedBack<Editing>> {
    let _ = record.rule(&pass, weights, worklist, 0, 0, 0, &[], S::one());
    record.release(pass, worklist)
}

// Two released questions in a row, with the pass that withdraw then takes.
fn ask_twice<S: Scale>(
    record: &mut Record,
    pass: Released,
    edges: &[S],
    scratch: &mut [S],
) -> Result<Editing, HandedBack<Released>> {
    let _ = record.released_question(&pass, edges, scratch, 0, &[0]);
    let _ = record.released_question(&pass, edges, scratch, 0, &[0]);
    record.withdraw(pass)
}

// A released question, with the pass that tally then takes.
fn ask_and_tally<S: Scale>(
    record: &mut Record,
    pass: Released,
    edges: &[S],
    scratch: &mut [S],
) -> Result<u64, HandedBack<Released>> {
    let _ = record.released_question(&pass, edges, scratch, 0, &[0]);
    record.tally(pass)
}
