ghost use Rattle.std.specs.Prelude.{◌≡◌, true, List, map, length, drop, OnErr};
ghost use Rattle.automaton.specs.Limits.{sizes_allowed, edge_count};
ghost use Rattle.checker.specs.Refusals.{outcome};
ghost use Rattle.checker.specs.Session.{bare, blank};
ghost use Rattle.checker.specs.Checks.{left_or, open_refusal};
ghost use Rattle.checker.specs.Calls.{opened};
ghost use Rattle.checker.specs.Views.{table_of, session_of};

use crate::passes::Editing;
use crate::record::Record;
use crate::refusals::Refusal;
use crate::stages::Stage;
use automaton::edges::clear_edges;
use automaton::rules::{Rule, Word};
use automaton::sizes::Sizes;
use scale::Scale;
use worklist::Worklist;

// Whether an open may be done, or why it may not.
fn check_open<S: Scale, K: Worklist>(sizes: Sizes, edges: &[S], worklist: &K) -> Result<(), Refusal>
    ensures { outcome result ≡ open_refusal sizes (length edges.now) (K.room worklist.now) }
{
    if !sizes.are_allowed() {
        Err(Refusal::Sizes)
    } else if !sizes.fit_edges(edges.len()) {
        Err(Refusal::TooShort)
    } else if worklist.capacity() < sizes.limit {
        Err(Refusal::SmallWorklist)
    } else {
        Ok(())
    }
}

impl Record {
    // A record with no rules and no final states.
    fn bare(stage: Stage, sizes: Sizes) -> Record
        requires { sizes_allowed sizes ≡ true }
        ensures { table_of result ≡ bare stage sizes }
    {
        let unused = Rule {
            control: 0,
            symbol: 0,
            target: 0,
            word: Word::Pop,
        };
        Record {
            stage,
            sizes,
            count: 0,
            rules: [unused; 512],
            finals: [false; 64],
            total: 0,
        }
    }

    // A blank record.
    pub fn new() -> Record
        ensures { table_of result ≡ blank }
    {
        Record::bare(
            Stage::Blank,
            Sizes {
                controls: 1,
                states: 1,
                symbols: 1,
                limit: 1,
            },
        )
    }

    // Begins a session over lent edges and a lent worklist, which it empties.
    pub fn open<S: Scale, K: Worklist>(
        &mut self,
        sizes: Sizes,
        edges: &mut [S],
        worklist: &mut K,
    ) -> Result<Editing, Refusal>
        ensures answer { outcome result ≡ open_refusal sizes (length edges.old) (K.room worklist.old) }
        ensures after { (ws : List S.Value) →
            session_of self.new (map S.value edges.new) ws (K.waiting worklist.new) (K.room worklist.new)
            ≡ left_or
            (open_refusal sizes (length edges.old) (K.room worklist.old))
            (session_of self.old
            (map S.value edges.old) ws
            (K.waiting worklist.old)
            (K.room worklist.old))
            (opened S.values sizes (map S.value edges.old) ws (K.room worklist.old)) }
        ensures refused { OnErr result
            ((self.new ≡ self.old) × (edges.new ≡ edges.old) × (worklist.new ≡ worklist.old)) }
        ensures rest { drop (edge_count sizes) edges.new ≡ drop (edge_count sizes) edges.old }
    {
        check_open(sizes, edges, worklist)?;
        clear_edges(sizes, edges).unwrap();
        worklist.clear();
        *self = Record::bare(Stage::Editing, sizes);
        Ok(Editing::new())
    }
}
