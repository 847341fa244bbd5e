ghost use Rattle.std.specs.Prelude.{◌≡◌, ◌<◌, ◌≤◌, false, ◌&&◌, map, length, drop, IsTrue, IfSome, if◌then◌else◌};
ghost use Rattle.std.specs.Bool.{then_some};
ghost use Rattle.automaton.specs.Limits.{edge_count, edges_fit, rule_fits};
ghost use Rattle.automaton.specs.Layout.{edge_changes, edge_set, value_at, saturated};

use crate::edges::{Edges, raise_edge};
use crate::rules::Rule;
use crate::sizes::Sizes;
use scale::Scale;

// Combines the rule's value at the state `to` into its edge there, and says whether that changed it.
fn look_at<S: Scale>(sizes: Sizes, edges: &mut [S], rule: Rule, weight: S, to: usize) -> bool
    requires room { IsTrue (edges_fit sizes (length edges.old)) }
    requires fits { IsTrue (rule_fits sizes rule) }
    requires to { to < sizes.states }
    ensures edges { map S.value edges.new
        ≡ edge_set S.values sizes
        (map S.value edges.old) rule.control rule.symbol to
        (value_at S.values sizes rule (S.value weight) (map S.value edges.old) to) }
    ensures changed { result
        ≡ edge_changes S.values sizes
        (map S.value edges.old) rule.control rule.symbol to
        (value_at S.values sizes rule (S.value weight) (map S.value edges.old) to) }
    ensures rest { drop (edge_count sizes) edges.new ≡ drop (edge_count sizes) edges.old }
{
    let worth = Edges {
        sizes,
        weights: edges,
    }
    .rule_value(rule, weight, to);
    raise_edge(sizes, edges, rule.control, rule.symbol as usize, to, worth)
}

// The rule's edges to all states, in rising order; how many of them changed. Compiled by itself, since within the loop over
// the worklist it came out up to half slower.
#[inline(never)]
#[tactic(auto, using(crate::proofs::Saturated::saturated_edges, crate::proofs::Saturated::saturated_raises))]
fn look_at_all<S: Scale>(sizes: Sizes, edges: &mut [S], rule: Rule, weight: S) -> u64
    requires room { IsTrue (edges_fit sizes (length edges.old)) }
    requires fits { IsTrue (rule_fits sizes rule) }
    ensures edges { map S.value edges.new
        ≡ (saturated S.values sizes rule (S.value weight) (map S.value edges.old) sizes.states).0 }
    ensures raises { result ≡ (saturated S.values sizes rule (S.value weight) (map S.value edges.old) sizes.states).1 }
    ensures few { result ≤ sizes.states }
    ensures rest { drop (edge_count sizes) edges.new ≡ drop (edge_count sizes) edges.old }
{
    let mut raises = 0;
    // The step is defined in rising order: what it writes into an edge counts at the states after it.
    for to in 0..sizes.states {
        raises += u64::from(look_at(sizes, edges, rule, weight, to));
    }
    raises
}

// One step of a rule: its edges to all states, in rising order; how many of them changed. Nothing is done where the
// edges or the rule do not fit the sizes.
pub fn saturate<S: Scale>(sizes: Sizes, edges: &mut [S], rule: Rule, weight: S) -> Option<u64>
    ensures raises { result
        ≡ then_some
        (edges_fit sizes (length edges.old) && rule_fits sizes rule)
        (saturated S.values sizes rule (S.value weight) (map S.value edges.old) sizes.states).1 }
    ensures few { IfSome result (λ n. n ≤ sizes.states) }
    ensures edges { map S.value edges.new
        ≡ (if edges_fit sizes (length edges.old) && rule_fits sizes rule
        then (saturated S.values sizes rule (S.value weight) (map S.value edges.old) sizes.states).0
        else map S.value edges.old) }
    ensures refused { (edges_fit sizes (length edges.old) && rule_fits sizes rule) ≡ false → edges.new ≡ edges.old }
    ensures rest { drop (edge_count sizes) edges.new ≡ drop (edge_count sizes) edges.old }
{
    if sizes.fit_edges(edges.len()) && rule.fits(sizes) {
        Some(look_at_all(sizes, edges, rule, weight))
    } else {
        None
    }
}
