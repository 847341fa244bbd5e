use automaton::sizes::Sizes;
use checker::answers::{Answer, Report};
use checker::passes::Editing;
use checker::record::Record;
use checker::refusals::Refusal;
use scale::Scale;
use scale::flags::Flags;
use scale::minutes::Minutes;
use worklist::Worklist;
use worklist::mark_table::MarkTable;

pub const SIZES: Sizes = Sizes {
    controls: 2,
    states: 3,
    symbols: 3,
    limit: 8,
};

// So many minutes, as a weight.
pub fn minutes(count: u32) -> Option<Minutes> {
    Some(Minutes::new(count))
}

// The flags that are kept and those that are set, as a weight.
pub fn flags(keep: u32, set: u32) -> Option<Flags> {
    Some(Flags::new(keep, set))
}

// The number of the refusal, or 0. By numbers, since these are what is promised.
pub fn number<T: Drop>(answer: Result<T, Refusal>) -> u8 {
    answer.err().map_or(0, |refusal| refusal.number())
}

// A session of two controls, three states, three symbols and at most eight rules, with what its calls are lent.
#[derive(Drop)]
pub struct Bench<S, K> {
    pub record: Record,
    pub pass: Editing,
    pub edges: [S; 27],
    pub weights: [S; 8],
    pub scratch: [S; 6],
    pub worklist: K,
}

impl<S: Scale, K: Worklist + Drop> Bench<S, K> {
    pub fn open(mut worklist: K) -> Result<Bench<S, K>, Refusal> {
        let mut edges = [S::none(); 27];
        let mut record = Record::new();
        let pass = record.open(SIZES, &mut edges, &mut worklist)?;
        Ok(Bench {
            record,
            pass,
            edges,
            weights: [S::none(); 8],
            scratch: [S::none(); 6],
            worklist,
        })
    }

    pub fn rule(
        &mut self,
        from: (usize, u8),
        target: usize,
        word: &[u8],
        weight: S,
    ) -> Result<usize, Refusal> {
        self.record.rule(
            &self.pass,
            &mut self.weights,
            &mut self.worklist,
            from.0,
            from.1,
            target,
            word,
            weight,
        )
    }

    pub fn edge(&mut self, from: usize, symbol: u8, to: usize, weight: S) -> Result<bool, Refusal> {
        self.record.edge(
            &self.pass,
            &mut self.edges,
            &mut self.worklist,
            from,
            symbol,
            to,
            weight,
        )
    }

    pub fn mark_final(&mut self, state: usize) -> Result<(), Refusal> {
        self.record.mark_final(&self.pass, state)
    }

    pub fn settle(&mut self, budget: u32) -> Result<Report, Refusal> {
        self.record.settle(
            &self.pass,
            &mut self.edges,
            &self.weights,
            &mut self.worklist,
            budget,
        )
    }

    pub fn ask(&mut self, control: usize, word: &[u8]) -> Result<Answer<S>, Refusal> {
        self.record.question(
            &self.edges,
            &self.worklist,
            &mut self.scratch,
            control,
            word,
        )
    }

    // The four rules of the worked table by their weights, its target edge and its final state.
    pub fn add_worked(&mut self, weights: [S; 4]) -> Result<(), Refusal> {
        self.rule((0, 0), 1, &[0, 1], weights[0])?;
        self.rule((1, 0), 1, &[], weights[1])?;
        self.rule((1, 1), 0, &[], weights[2])?;
        self.rule((0, 1), 0, &[], weights[3])?;
        self.edge(0, 2, 2, S::one())?;
        self.mark_final(2)
    }
}

// The worked table with its minutes, over the mark table.
pub fn worked() -> Result<Bench<Option<Minutes>, MarkTable>, Refusal> {
    let mut b = Bench::open(MarkTable::new())?;
    b.add_worked([minutes(5), minutes(2), minutes(3), minutes(1)])?;
    Ok(b)
}
