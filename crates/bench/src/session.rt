use crate::numbers::Numbers;
use crate::samples::Sample;
use automaton::sizes::Sizes;
use checker::answers::Report;
use checker::passes::Editing;
use checker::record::Record;
use checker::refusals::Refusal;
use std::alloc::Global;
use worklist::Worklist;

// Room for the largest session.
const EDGES: usize = 28_800;

const RULES: usize = 512;

const SCRATCH: usize = 120;

// How many target edges a session is given.
const TARGETS: usize = 200;

// A session over vectors and a lent worklist, with the numbers that fill it.
#[derive(Drop)]
pub(crate) struct Session<'a, S, K> {
    numbers: Numbers,
    sizes: Sizes,
    record: Record,
    pass: Editing,
    edges: Vec<S>,
    weights: Vec<S>,
    scratch: Vec<S>,
    worklist: &'a mut K,
}

impl<'a, S: Sample + Clone, K: Worklist> Session<'a, S, K> {
    pub(crate) fn open(
        heap: Global,
        sizes: Sizes,
        worklist: &'a mut K,
    ) -> anyhow::Result<Session<'a, S, K>> {
        let mut edges = vec![in heap; S::none(); EDGES]?;
        let weights = vec![in heap; S::none(); RULES]?;
        let scratch = vec![in heap; S::none(); SCRATCH]?;
        let mut record = Record::new();
        let pass = record.open(sizes, &mut edges, worklist)?;
        Ok(Session {
            numbers: Numbers::new(7),
            sizes,
            record,
            pass,
            edges,
            weights,
            scratch,
            worklist,
        })
    }

    fn symbol(&mut self) -> u8 {
        (self.numbers.below(self.sizes.symbols) & 0xff) as u8
    }

    // As many rules as the sizes allow; half of them leave two symbols.
    fn add_rules(&mut self) -> Result<(), Refusal> {
        for _ in 0..self.sizes.limit {
            let control = self.numbers.below(self.sizes.controls);
            let top = self.symbol();
            let target = self.numbers.below(self.sizes.controls);
            let word = [self.symbol(), self.symbol()];
            let length = match self.numbers.below(8) {
                0..=2 => 0,
                3 => 1,
                _ => 2,
            };
            let weight = S::sample(self.numbers.next());
            self.record.rule(
                &self.pass,
                &mut self.weights,
                self.worklist,
                control,
                top,
                target,
                &word[..length],
                weight,
            )?;
        }
        Ok(())
    }

    // Edges from any state to states that are no controls.
    fn add_edges(&mut self) -> Result<(), Refusal> {
        for _ in 0..TARGETS {
            let from = self.numbers.below(self.sizes.states);
            let by = self.symbol();
            let others = self.sizes.states.saturating_sub(self.sizes.controls);
            let to = self
                .sizes
                .controls
                .saturating_add(self.numbers.below(others));
            let weight = S::sample(self.numbers.next());
            self.record.edge(
                &self.pass,
                &mut self.edges,
                self.worklist,
                from,
                by,
                to,
                weight,
            )?;
        }
        Ok(())
    }

    // Gives the session rules and edges, and marks the last third of its states final.
    pub(crate) fn fill(&mut self) -> Result<(), Refusal> {
        self.add_rules()?;
        self.add_edges()?;
        let states = self.sizes.states;
        for state in (states - states / 3)..states {
            self.record.mark_final(&self.pass, state)?;
        }
        Ok(())
    }

    pub(crate) fn settle(&mut self) -> Result<Report, Refusal> {
        self.record.settle(
            &self.pass,
            &mut self.edges,
            &self.weights,
            self.worklist,
            u32::MAX,
        )
    }

    // One number of the answers for a word of three symbols from every control.
    pub(crate) fn digest(&mut self) -> Result<u64, Refusal> {
        let mut joined: u64 = 0;
        for control in 0..self.sizes.controls {
            let word = [self.symbol(), self.symbol(), self.symbol()];
            let answer = self.record.question(
                &self.edges,
                self.worklist,
                &mut self.scratch,
                control,
                &word,
            )?;
            joined = joined.wrapping_mul(31).wrapping_add(answer.weight.digest());
        }
        Ok(joined)
    }
}
