// What a settle did: the steps it made, the edges that these changed, and whether no rule waits.
#[derive(Clone, Copy, Debug, PartialEq, Eq)]
pub struct Report {
    pub steps: u32,
    pub raises: u64,
    pub settled: bool,
}

// What a question answers: a weight, and whether no rule waits.
#[derive(Clone, Copy, Debug, PartialEq, Eq)]
pub struct Answer<S> {
    pub weight: S,
    pub settled: bool,
}
