ghost use Rattle.std.specs.Prelude.{◌≡◌, ℕ, ◌*◌, ◌<◌, ◌≤◌, false, [], ◌∷◌, map, length, IsTrue, if◌then◌else◌, slice_index_or};
ghost use Rattle.std.specs.Bool.{then_some};
ghost use Rattle.std.specs.Option.{option_map};
ghost use Rattle.scale.specs.Semiring.{combined};
ghost use Rattle.automaton.specs.Automaton.{below, answer};
ghost use Rattle.automaton.specs.Limits.{all_below, read_fits};
ghost use Rattle.automaton.specs.Edges.{edges_of};
ghost use Rattle.automaton.specs.Layout.{edge_at};
ghost use Rattle.automaton.specs.Rows.{at_place, onward};

use crate::edges::Edges;
use crate::sizes::Sizes;
use scale::Scale;

// Whether all symbols of a word are below a number.
pub fn all_below(number: usize, word: &[u8]) -> bool
    ensures { result ≡ all_below number word.now }
{
    word.iter().all(|symbol| (*symbol as usize) < number)
}

// Writes each state's weight of the empty word into the first half of the scratch.
fn start_row<S: Scale>(states: usize, finals: &[bool], scratch: &mut [S])
    requires finals { states ≤ length finals.now }
    requires scratch { states ≤ length scratch.old }
    ensures { (k : ℕ) →
        k < states
        → at_place S.values (map S.value scratch.new) k
        ≡ combined S.values (if slice_index_or finals.now k false then S.values.one ∷ [] else []) }
{
    // By an index into the scratch: of a `zip` with its `iter_mut` a proof would know only the length.
    for (state, is_final) in finals[..states].iter().enumerate() {
        scratch[state] = if *is_final { S::one() } else { S::none() };
    }
}

// Writes into the next row each state's weight of the word with one symbol more in front.
fn extend_row<S: Scale>(edges: &Edges<'_, S>, row: &[S], next: &mut [S], symbol: usize)
    requires symbol { symbol < edges.now.sizes.symbols }
    requires row { edges.now.sizes.states ≤ length row.now }
    requires next { edges.now.sizes.states ≤ length next.old }
    ensures { (k : ℕ) →
        k < edges.now.sizes.states
        → at_place S.values (map S.value next.new) k
        ≡ combined S.values
        (below edges.now.sizes.states
        (onward S.values
        (edges_of S.values S.value edges.now)
        (at_place S.values (map S.value row.now)) k symbol)) }
{
    for (from, weight) in next[..edges.sizes.states].iter_mut().enumerate() {
        *weight = edges.onward_weight(row, from, symbol);
    }
}

// Leaves in the first half of the scratch each state's weight of the word.
fn fold_word<S: Scale>(edges: &Edges<'_, S>, finals: &[bool], scratch: &mut [S], word: &[u8])
    requires word { IsTrue (all_below edges.now.sizes.symbols word.now) }
    requires finals { edges.now.sizes.states ≤ length finals.now }
    requires scratch { 2 * edges.now.sizes.states ≤ length scratch.old }
    ensures { (k : ℕ) →
        k < edges.now.sizes.states
        → at_place S.values (map S.value scratch.new) k
        ≡ answer S.values
        (edges_of S.values S.value edges.now) edges.now.sizes.states
        (λ q. slice_index_or finals.now q false) k word.now }
{
    let states = edges.sizes.states;
    start_row(states, finals, scratch);
    for symbol in word.iter().rev() {
        let (row, next) = scratch.split_at_mut(states);
        extend_row(edges, row, next, *symbol as usize);
        row.copy_from_slice(&next[..states]);
    }
}

// Whether a word can be read from a state: all of it fits the sizes, and the rows are long enough.
fn can_read(
    sizes: Sizes,
    edges: usize,
    finals: usize,
    scratch: usize,
    from: usize,
    word: &[u8],
) -> bool
    ensures { result ≡ read_fits sizes edges finals scratch from word.now }
{
    sizes.fit_edges(edges)
        && sizes.states <= finals
        && 2 * sizes.states <= scratch
        && from < sizes.states
        && all_below(sizes.symbols, word)
}

// The combine of the weights of all paths from a state that read a word and end in a final state; nothing, and the
// scratch is left, where something does not fit the sizes.
pub fn read_word<S: Scale>(
    sizes: Sizes,
    edges: &[S],
    finals: &[bool],
    scratch: &mut [S],
    from: usize,
    word: &[u8],
) -> Option<S>
    ensures weight { option_map S.value result
        ≡ then_some
        (read_fits sizes (length edges.now) (length finals.now) (length scratch.old) from word.now)
        (answer S.values (edge_at S.values sizes (map S.value edges.now)) sizes.states
        (λ q. slice_index_or finals.now q false) from word.now) }
    ensures refused { read_fits sizes (length edges.now) (length finals.now) (length scratch.old) from word.now ≡ false
        → scratch.new ≡ scratch.old }
    ensures length { length scratch.new ≡ length scratch.old }
{
    if can_read(sizes, edges.len(), finals.len(), scratch.len(), from, word) {
        let edges = Edges {
            sizes,
            weights: edges,
        };
        fold_word(&edges, finals, scratch, word);
        Some(scratch[from])
    } else {
        None
    }
}
