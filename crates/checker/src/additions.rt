ghost use Rattle.std.specs.Prelude.{◌≡◌, ◌<◌, ◌≤◌, true, List, map, length, drop, slice_set, OnErr};
ghost use Rattle.worklist.specs.Sets.{Set};
ghost use Rattle.automaton.specs.Limits.{edge_count, rule_fits};
ghost use Rattle.checker.specs.Refusals.{outcome, told};
ghost use Rattle.checker.specs.Checks.{refused_or, rule_refusal, edge_refusal};
ghost use Rattle.checker.specs.Calls.{new_rule, with_rule};
ghost use Rattle.checker.specs.Did.{Did, rule, edge};
ghost use Rattle.checker.specs.Views.{table_of, session_of, written};

use crate::passes::Editing;
use crate::readers::put_readers;
use crate::record::Record;
use crate::refusals::Refusal;
use automaton::edges::combine_into;
use automaton::reading::all_below;
use automaton::rules::{Rule, Word};
use scale::Scale;
use worklist::Worklist;

impl Record {
    // The rules that there are.
    pub(crate) fn live_rules(&self) -> &[Rule]
        ensures is { result.now ≡ (table_of self.now).rules }
        ensures count { length (table_of self.now).rules ≡ self.now.count }
    {
        &self.rules[..self.count]
    }

    // The rule that a call may add, or why it may not.
    #[tactic(auto, using(crate::proofs::Refusing::lent_tests))]
    fn admit_rule<S: Scale, K: Worklist>(
        &self,
        weights: &[S],
        worklist: &K,
        control: usize,
        symbol: u8,
        target: usize,
        word: &[u8],
    ) -> Result<Rule, Refusal>
        ensures { (es : List S.Value) (w : Set) →
            told result
            ≡ refused_or
            (rule_refusal (session_of self.now es (map S.value weights.now) w (K.room worklist.now))
            control symbol target word.now)
            (new_rule control symbol target word.now) }
    {
        let sizes = self.sizes;
        self.check_editing(weights.len() >= sizes.limit, worklist)?;
        if control >= sizes.controls || target >= sizes.controls {
            return Err(Refusal::NoState);
        }
        if symbol as usize >= sizes.symbols || !all_below(sizes.symbols, word) {
            return Err(Refusal::NoSymbol);
        }
        let word = Word::try_from(word)?;
        if self.live_rules().len() >= sizes.limit {
            return Err(Refusal::Full);
        }
        Ok(Rule {
            control,
            symbol,
            target,
            word,
        })
    }

    // Appends a rule with its weight; its number.
    fn append<S: Scale>(&mut self, weights: &mut [S], rule: Rule, weight: S) -> usize
        requires fits { rule_fits self.old.sizes rule ≡ true }
        requires room { length (table_of self.old).rules < self.old.sizes.limit }
        requires weights { self.old.sizes.limit ≤ length weights.old }
        ensures number { result ≡ length (table_of self.old).rules }
        ensures table { table_of self.new ≡ with_rule (table_of self.old) rule }
        ensures weights { weights.new ≡ slice_set weights.old result weight }
    {
        let number = self.count;
        self.rules[number] = rule;
        self.count = number + 1;
        weights[number] = weight;
        number
    }

    // Adds a rule with its weight, and has it wait; its number. Its parts are no `Rule` yet, since the word may be too long.
    // Put into its callers where it can be: a call of it took up to a quarter longer.
    #[inline]
    pub fn rule<S: Scale, K: Worklist>(
        &mut self,
        _pass: &Editing,
        weights: &mut [S],
        worklist: &mut K,
        control: usize,
        symbol: u8,
        target: usize,
        word: &[u8],
        weight: S,
    ) -> Result<usize, Refusal>
        ensures did { (es : List S.Value) →
            Did S.values
            (session_of self.old es
            (map S.value weights.old)
            (K.waiting worklist.old)
            (K.room worklist.old))
            (rule control symbol target word.now (S.value weight) (told result))
            (session_of self.new es
            (map S.value weights.new)
            (K.waiting worklist.new)
            (K.room worklist.new)) }
        ensures weights { weights.new ≡ written result weights.old weight }
        ensures refused { OnErr result ((self.new ≡ self.old) × (worklist.new ≡ worklist.old)) }
    {
        let added = self.admit_rule(weights, worklist, control, symbol, target, word)?;
        let number = self.append(weights, added, weight);
        worklist.put(number).unwrap();
        Ok(number)
    }

    // Whether a weight may be combined into an edge, or why it may not.
    #[tactic(auto, using(crate::proofs::Refusing::lent_tests))]
    fn check_edge<S: Scale, K: Worklist>(
        &self,
        edges: &[S],
        worklist: &K,
        from: usize,
        symbol: u8,
        to: usize,
    ) -> Result<(), Refusal>
        ensures { (ws : List S.Value) (w : Set) →
            outcome result
            ≡ edge_refusal (session_of self.now (map S.value edges.now) ws w (K.room worklist.now))
            from symbol to }
    {
        let sizes = self.sizes;
        self.check_editing(sizes.fit_edges(edges.len()), worklist)?;
        if from >= sizes.states || to >= sizes.states {
            return Err(Refusal::NoState);
        }
        if symbol as usize >= sizes.symbols {
            return Err(Refusal::NoSymbol);
        }
        if to < sizes.controls {
            return Err(Refusal::IntoControl);
        }
        Ok(())
    }

    // Combines a weight into an edge; whether that changed it. An edge goes by its three numbers here and below: a struct would be
    // made at each call only to be taken apart.
    pub fn edge<S: Scale, K: Worklist>(
        &self,
        _pass: &Editing,
        edges: &mut [S],
        worklist: &mut K,
        from: usize,
        symbol: u8,
        to: usize,
        weight: S,
    ) -> Result<bool, Refusal>
        ensures did { (ws : List S.Value) →
            Did S.values
            (session_of self.now (map S.value edges.old) ws (K.waiting worklist.old) (K.room worklist.old))
            (edge from symbol to (S.value weight) (told result))
            (session_of self.now (map S.value edges.new) ws (K.waiting worklist.new) (K.room worklist.new)) }
        ensures refused { OnErr result ((edges.new ≡ edges.old) × (worklist.new ≡ worklist.old)) }
        ensures rest { drop (edge_count (table_of self.now).sizes) edges.new ≡ drop (edge_count (table_of self.now).sizes) edges.old }
    {
        self.check_edge(edges, worklist, from, symbol, to)?;
        let changed = combine_into(self.sizes, edges, from, symbol, to, weight).unwrap();
        if changed {
            put_readers(self.live_rules(), symbol, worklist);
        }
        Ok(changed)
    }
}
