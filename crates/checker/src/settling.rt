ghost use Rattle.std.specs.Prelude.{◌≡◌, ◌≤◌, drop, IfSome, OnErr};
ghost use Rattle.automaton.specs.Limits.{edge_count};
ghost use Rattle.checker.specs.Refusals.{outcome, told};
ghost use Rattle.checker.specs.Checks.{settle_refusal, CanStep};
ghost use Rattle.checker.specs.Calls.{looked, OneStep, Ran};
ghost use Rattle.checker.specs.Did.{Did, settle};
ghost use Rattle.checker.specs.Views.{table_of, lent};

use crate::answers::Report;
use crate::passes::Editing;
use crate::readers::put_readers;
use crate::record::Record;
use crate::refusals::Refusal;
use automaton::saturation::saturate;
use scale::Scale;
use worklist::Worklist;

impl Record {
    // Whether a settle may be done, or why it may not.
    #[tactic(auto, using(crate::proofs::Refusing::lent_tests))]
    fn check_settle<S: Scale, K: Worklist>(
        &self,
        edges: &[S],
        weights: &[S],
        worklist: &K,
    ) -> Result<(), Refusal>
        ensures { outcome result
            ≡ settle_refusal (lent S.value K.waiting K.room self.now edges.now weights.now worklist.now) }
    {
        let sizes = self.sizes;
        self.check_editing(
            sizes.fit_edges(edges.len()) && weights.len() >= sizes.limit,
            worklist,
        )
    }

    // Makes the step of the rule of that number, if there is one; how many edges changed. It and its two callers take what the
    // settle is lent one by one: each method of a struct of them would have to say that its four parts stay.
    fn look<S: Scale, K: Worklist>(
        &self,
        number: usize,
        edges: &mut [S],
        weights: &[S],
        worklist: &mut K,
    ) -> u64
        requires { CanStep (lent S.value K.waiting K.room self.now edges.old weights.now worklist.old) }
        ensures after { lent S.value K.waiting K.room self.now edges.new weights.now worklist.new
            ≡ (looked S.values (lent S.value K.waiting K.room self.now edges.old weights.now worklist.old) number).0 }
        ensures raises { result
            ≡ (looked S.values (lent S.value K.waiting K.room self.now edges.old weights.now worklist.old) number).1 }
        ensures few { result ≤ 64 }
        ensures kept { K.room worklist.new ≡ K.room worklist.old }
        ensures rest { drop (edge_count self.now.sizes) edges.new ≡ drop (edge_count self.now.sizes) edges.old }
    {
        let Some(&rule) = self.live_rules().get(number) else {
            return 0;
        };
        let raises = saturate(self.sizes, edges, rule, weights[number]).unwrap();
        if raises > 0 {
            put_readers(self.live_rules(), rule.symbol, worklist);
        }
        raises
    }

    // Takes a number and makes its step; how many edges changed, or nothing where no number waits.
    fn step<S: Scale, K: Worklist>(
        &self,
        edges: &mut [S],
        weights: &[S],
        worklist: &mut K,
    ) -> Option<u64>
        requires { CanStep (lent S.value K.waiting K.room self.now edges.old weights.now worklist.old) }
        ensures made { OneStep S.values
            (lent S.value K.waiting K.room self.now edges.old weights.now worklist.old) result
            (lent S.value K.waiting K.room self.now edges.new weights.now worklist.new) }
        ensures few { IfSome result (λ k. k ≤ 64) }
        ensures kept { K.room worklist.new ≡ K.room worklist.old }
        ensures rest { drop (edge_count self.now.sizes) edges.new ≡ drop (edge_count self.now.sizes) edges.old }
    {
        let number = worklist.take()?;
        Some(self.look(number, edges, weights, worklist))
    }

    // Makes steps to the end of the worklist or of the budget.
    #[tactic(auto, using(crate::proofs::Stepping::made_none, crate::proofs::Stepping::made_more))]
    fn run<S: Scale, K: Worklist>(
        &self,
        edges: &mut [S],
        weights: &[S],
        worklist: &mut K,
        budget: u32,
    ) -> Report
        requires { CanStep (lent S.value K.waiting K.room self.now edges.old weights.now worklist.old) }
        ensures ran { Ran S.values
            (lent S.value K.waiting K.room self.now edges.old weights.now worklist.old) budget result
            (lent S.value K.waiting K.room self.now edges.new weights.now worklist.new) }
        ensures rest { drop (edge_count self.now.sizes) edges.new ≡ drop (edge_count self.now.sizes) edges.old }
    {
        let mut raises = 0;
        for steps in 0..budget {
            match self.step(edges, weights, worklist) {
                Some(more) => raises += more,
                None => return Report {
                    steps,
                    raises,
                    settled: true,
                },
            }
        }
        let settled = worklist.is_empty();
        Report {
            steps: budget,
            raises,
            settled,
        }
    }

    // Looks at waiting rules until none waits or the budget of steps is spent.
    pub fn settle<S: Scale, K: Worklist>(
        &mut self,
        _pass: &Editing,
        edges: &mut [S],
        weights: &[S],
        worklist: &mut K,
        budget: u32,
    ) -> Result<Report, Refusal>
        ensures did { Did S.values
            (lent S.value K.waiting K.room self.old edges.old weights.now worklist.old)
            (settle budget (told result))
            (lent S.value K.waiting K.room self.new edges.new weights.now worklist.new) }
        ensures refused { OnErr result
            ((self.new ≡ self.old) × (edges.new ≡ edges.old) × (worklist.new ≡ worklist.old)) }
        ensures rest { drop (edge_count (table_of self.old).sizes) edges.new ≡ drop (edge_count (table_of self.old).sizes) edges.old }
    {
        self.check_settle(edges, weights, worklist)?;
        let report = self.run(edges, weights, worklist, budget);
        self.total = self.total.saturating_add(report.raises);
        Ok(report)
    }
}
