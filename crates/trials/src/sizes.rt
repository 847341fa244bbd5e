use crate::bench::number;
use automaton::sizes::Sizes;
use checker::record::Record;
use scale::Scale;
use scale::yes_no::YesNo;
use worklist::mark_table::MarkTable;

// The number of the refusal of an open with these sizes over 4,096 edge weights, or 0.
fn opened(controls: usize, states: usize, symbols: usize, limit: usize) -> u8 {
    let mut edges = [YesNo::none(); 4096];
    let mut worklist = MarkTable::new();
    let mut record = Record::new();
    let sizes = Sizes {
        controls,
        states,
        symbols,
        limit,
    };
    number(record.open(sizes, &mut edges, &mut worklist))
}

#[test]
fn sizes_at_their_edges(rt: HostRuntime) {
    let cases = [
        (1, 1, 1, 1, 0),
        (32, 64, 1, 512, 0),
        (1, 8, 64, 1, 0),
        (1, 64, 1, 1, 0),
        (1, 65, 1, 1, 1),
        (0, 1, 1, 1, 1),
        (33, 64, 1, 1, 1),
        (2, 1, 1, 1, 1),
        (1, 1, 0, 1, 1),
        (1, 1, 65, 1, 1),
        (1, 1, 1, 0, 1),
        (1, 1, 1, 513, 1),
        (1, 64, 2, 1, 2),
        (18_446_744_073_709_551_615, 64, 1, 1, 1),
    ];
    for (controls, states, symbols, limit, number) in cases {
        assert_eq!(rt; opened(controls, states, symbols, limit), number);
    }
}
