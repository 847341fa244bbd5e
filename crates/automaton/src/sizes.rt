ghost use Rattle.std.specs.Prelude.{◌≡◌, ◌<◌, IsTrue};
ghost use Rattle.automaton.specs.Limits.{sizes_allowed, edge_count, edges_fit, edge_fits};
ghost use Rattle.automaton.specs.Layout.{place};

// How many controls, states, symbols and rules a session may have; the first states are the controls.
#[derive(Clone, Copy, Debug, PartialEq, Eq)]
pub struct Sizes {
    pub controls: usize,
    pub states: usize,
    pub symbols: usize,
    pub limit: usize,
}

impl Sizes {
    pub fn are_allowed(self) -> bool
        ensures { result ≡ sizes_allowed self }
    {
        (1..=32).contains(&self.controls)
            && (self.controls..=64).contains(&self.states)
            && (1..=64).contains(&self.symbols)
            && (1..=512).contains(&self.limit)
    }

    // How many edges there are.
    pub(crate) fn edge_count(self) -> usize
        requires { IsTrue (sizes_allowed self) }
        ensures { result ≡ edge_count self }
    {
        self.states * self.symbols * self.states
    }

    // Whether the sizes are allowed and so many places hold all edges.
    pub fn fit_edges(self, places: usize) -> bool
        ensures { result ≡ edges_fit self places }
    {
        self.are_allowed() && self.edge_count() <= places
    }

    // The place of the edge from one state to another by a symbol.
    #[tactic(auto, using(crate::proofs::Places::place_within))]
    pub(crate) fn place(self, from: usize, symbol: usize, to: usize) -> usize
        requires allowed { IsTrue (sizes_allowed self) }
        requires fits { IsTrue (edge_fits self from symbol to) }
        ensures is { result ≡ place self from symbol to }
        ensures within { result < edge_count self }
    {
        (from * self.symbols + symbol) * self.states + to
    }
}
