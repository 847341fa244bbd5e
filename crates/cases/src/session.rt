use crate::lines::Line;
use automaton::sizes::Sizes;
use checker::passes::Editing;
use checker::record::Record;
use checker::refusals::Refusal;
use scale::minutes::Minutes;
use scale::presemiring::Presemiring;
use worklist::mark_table::MarkTable;

const SURVEY: u8 = 0;

const POST: u8 = 1;

const PURGE: u8 = 2;

// The jobs: a survey is posted in control 0, and control 1 means that it is not posted yet.
fn add_jobs(
    record: &mut Record,
    pass: &Editing,
    weights: &mut [Option<Minutes>],
    worklist: &mut MarkTable,
) -> Result<(), Refusal> {
    let jobs: [(usize, u8, usize, &[u8], u32); 4] = [
        (0, SURVEY, 1, &[SURVEY, POST], 5),
        (1, SURVEY, 1, &[], 2),
        (1, POST, 0, &[], 3),
        (0, POST, 0, &[], 1),
    ];
    for (control, symbol, target, word, minutes) in jobs {
        let weight = Some(Minutes::new(minutes));
        record.rule(
            pass, weights, worklist, control, symbol, target, word, weight,
        )?;
    }
    Ok(())
}

// In how few minutes a purge comes after a survey; and again, once a job may skip the survey.
pub(crate) fn run() -> Result<[Line; 4], Refusal> {
    let sizes = Sizes {
        controls: 2,
        states: 3,
        symbols: 3,
        limit: 8,
    };
    let mut edges = [None; 27];
    let mut weights = [None; 8];
    let mut scratch = [None; 6];
    let mut worklist = MarkTable::new();
    let mut record = Record::new();
    let pass = record.open(sizes, &mut edges, &mut worklist)?;
    add_jobs(&mut record, &pass, &mut weights, &mut worklist)?;
    let at_once = Some(Minutes::one());
    record.edge(&pass, &mut edges, &mut worklist, 0, PURGE, 2, at_once)?;
    record.mark_final(&pass, 2)?;

    let word = [SURVEY, PURGE];
    let settled = record.settle(&pass, &mut edges, &weights, &mut worklist, 100)?;
    let posted = record.question(&edges, &worklist, &mut scratch, 0, &word)?;
    let skip = Some(Minutes::new(4));
    record.rule(&pass, &mut weights, &mut worklist, 0, SURVEY, 0, &[], skip)?;
    let again = record.settle(&pass, &mut edges, &weights, &mut worklist, 100)?;
    let skipped = record.question(&edges, &worklist, &mut scratch, 0, &word)?;
    Ok([
        Line::Settle(settled),
        Line::Query(posted),
        Line::Settle(again),
        Line::Query(skipped),
    ])
}
