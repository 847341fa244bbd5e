ghost use Rattle.std.specs.Prelude.{◌≡◌, ℕ, ◌<◌, ◌≤◌, false, ◌&&◌, ◌++◌, map, length, drop, replicate, IsTrue, if◌then◌else◌};
ghost use Rattle.std.specs.Bool.{then_some};
ghost use Rattle.scale.specs.Semiring.{combined};
ghost use Rattle.automaton.specs.Automaton.{below};
ghost use Rattle.automaton.specs.Limits.{edge_count, edges_fit, edge_fits, rule_fits};
ghost use Rattle.automaton.specs.Layout.{edge_changes, edge_set, value_at};
ghost use Rattle.automaton.specs.Rows.{at_place, onward};

use crate::rules::{Rule, Word};
use crate::sizes::Sizes;
use scale::Scale;

// The edges as they stand: a weight for each state, symbol and state.
#[derive(Drop)]
pub(crate) struct Edges<'a, S> {
    pub(crate) sizes: Sizes,
    pub(crate) weights: &'a [S],
    ghost fit: { IsTrue (edges_fit sizes (length weights.now)) },
}

impl<S: Scale> Edges<'_, S> {
    ghost use Rattle.automaton.specs.Edges.{edges_of};

    // The edge from one state to another by a symbol.
    pub(crate) fn weight(&self, from: usize, symbol: usize, to: usize) -> S
        requires { IsTrue (edge_fits self.now.sizes from symbol to) }
        ensures { S.value result ≡ edges_of S.values S.value self.now from symbol to }
    {
        self.weights[self.sizes.place(from, symbol, to)]
    }

    // The edges from a state by a symbol, to each state in turn.
    #[tactic(auto, using(crate::proofs::Places::part_at))]
    pub(crate) fn row(&self, from: usize, symbol: usize) -> &[S]
        requires from { from < self.now.sizes.states }
        requires symbol { symbol < self.now.sizes.symbols }
        ensures len { length result.now ≡ self.now.sizes.states }
        ensures edges { (k : ℕ) →
            k < self.now.sizes.states
            → at_place S.values (map S.value result.now) k
            ≡ edges_of S.values S.value self.now from symbol k }
    {
        let start = self.sizes.place(from, symbol, 0);
        &self.weights[start..start + self.sizes.states]
    }

    // The edges from a state by a symbol, each extended by the weight of the state where it leads, all combined.
    pub(crate) fn onward_weight(&self, state_weights: &[S], from: usize, symbol: usize) -> S
        requires from { from < self.now.sizes.states }
        requires symbol { symbol < self.now.sizes.symbols }
        requires weights { self.now.sizes.states ≤ length state_weights.now }
        ensures { S.value result
            ≡ combined S.values
            (below self.now.sizes.states
            (onward S.values
            (edges_of S.values S.value self.now)
            (at_place S.values (map S.value state_weights.now)) from symbol)) }
    {
        let mut sum = S::none();
        // By an index into the weights: a `zip` with them was tried, and the proof of its invariant did not close.
        for (to, edge) in self.row(from, symbol).iter().enumerate() {
            sum = sum.combine(edge.extend(state_weights[to]));
        }
        sum
    }

    // A weight extended by the edge to each middle state and then by the edge from there, all combined.
    fn through_middle(&self, from: usize, first: usize, second: usize, to: usize, weight: S) -> S
        requires from { from < self.now.sizes.states }
        requires first { first < self.now.sizes.symbols }
        requires second { second < self.now.sizes.symbols }
        requires to { to < self.now.sizes.states }
        ensures { S.value result
            ≡ combined S.values
            (below self.now.sizes.states
            (λ m. S.values.extend
            (S.values.extend (S.value weight) (edges_of S.values S.value self.now from first m))
            (edges_of S.values S.value self.now m second to))) }
    {
        let mut sum = S::none();
        // By number, which the second edge needs too; as compiled, a loop over the row took a fifth longer.
        for middle in 0..self.sizes.states {
            let there = self.weight(from, first, middle);
            if !there.same(S::none()) {
                let on = self.weight(middle, second, to);
                sum = sum.combine(weight.extend(there).extend(on));
            }
        }
        sum
    }

    // The value of a rule at the state `to`.
    pub(crate) fn rule_value(&self, rule: Rule, weight: S, to: usize) -> S
        requires fits { IsTrue (rule_fits self.now.sizes rule) }
        requires to { to < self.now.sizes.states }
        ensures { S.value result
            ≡ value_at S.values self.now.sizes rule (S.value weight) (map S.value self.now.weights.now) to }
    {
        match rule.word {
            Word::Pop => { if to == rule.target { weight } else { S::none() } }
            Word::Swap(only) => weight.extend(self.weight(rule.target, only as usize, to)),
            Word::Push(first, second) => {
                self.through_middle(rule.target, first as usize, second as usize, to, weight)
            }
        }
    }
}

// Combines a weight into an edge, and says whether that changed it.
// What writes takes the sizes and the slice: each method of a view with a `&mut` would have to say that both stay.
pub(crate) fn raise_edge<S: Scale>(
    sizes: Sizes,
    edges: &mut [S],
    from: usize,
    symbol: usize,
    to: usize,
    weight: S,
) -> bool
    requires room { IsTrue (edges_fit sizes (length edges.old)) }
    requires fits { IsTrue (edge_fits sizes from symbol to) }
    ensures edges { map S.value edges.new
        ≡ edge_set S.values sizes (map S.value edges.old) from symbol to (S.value weight) }
    ensures changed { result ≡ edge_changes S.values sizes (map S.value edges.old) from symbol to (S.value weight) }
    ensures rest { drop (edge_count sizes) edges.new ≡ drop (edge_count sizes) edges.old }
{
    let place = sizes.place(from, symbol, to);
    let old = edges[place];
    let new = old.combine(weight);
    edges[place] = new;
    !old.same(new)
}

// Combines a weight into an edge, and says whether that changed it; nothing where there is no such edge. The caller
// lends the slice, and no value keeps it, so each public call tests anew that it fits the sizes.
pub fn combine_into<S: Scale>(
    sizes: Sizes,
    edges: &mut [S],
    from: usize,
    symbol: u8,
    to: usize,
    weight: S,
) -> Option<bool>
    ensures changed { result
        ≡ then_some
        (edges_fit sizes (length edges.old) && edge_fits sizes from symbol to)
        (edge_changes S.values sizes (map S.value edges.old) from symbol to (S.value weight)) }
    ensures edges { map S.value edges.new
        ≡ (if edges_fit sizes (length edges.old) && edge_fits sizes from symbol to
        then edge_set S.values sizes (map S.value edges.old) from symbol to (S.value weight)
        else map S.value edges.old) }
    ensures refused { (edges_fit sizes (length edges.old) && edge_fits sizes from symbol to) ≡ false
        → edges.new ≡ edges.old }
    ensures rest { drop (edge_count sizes) edges.new ≡ drop (edge_count sizes) edges.old }
{
    if sizes.fit_edges(edges.len())
        && from < sizes.states
        && (symbol as usize) < sizes.symbols
        && to < sizes.states
    {
        Some(raise_edge(sizes, edges, from, symbol as usize, to, weight))
    } else {
        None
    }
}

// Writes none into the first places. Not by `fill`, which asks for a clone that cannot fail: no bound on `S` says so.
fn clear_places<S: Scale>(count: usize, edges: &mut [S])
    requires { count ≤ length edges.old }
    ensures cleared { map S.value edges.new ≡ replicate count S.values.none ++ drop count (map S.value edges.old) }
    ensures rest { drop count edges.new ≡ drop count edges.old }
{
    for place in edges[..count].iter_mut() {
        *place = S::none();
    }
}

// Sets every edge to none; nothing is done where the edges do not fit. An `Option` of nothing, as the other three public
// functions answer: an error type would have one case, and say no more.
pub fn clear_edges<S: Scale>(sizes: Sizes, edges: &mut [S]) -> Option<()>
    ensures done { result ≡ then_some (edges_fit sizes (length edges.old)) tt }
    ensures edges { map S.value edges.new
        ≡ (if edges_fit sizes (length edges.old)
        then replicate (edge_count sizes) S.values.none ++ drop (edge_count sizes) (map S.value edges.old)
        else map S.value edges.old) }
    ensures refused { edges_fit sizes (length edges.old) ≡ false → edges.new ≡ edges.old }
    ensures rest { drop (edge_count sizes) edges.new ≡ drop (edge_count sizes) edges.old }
{
    if sizes.fit_edges(edges.len()) {
        clear_places(sizes.edge_count(), edges);
        Some(())
    } else {
        None
    }
}
