use crate::refusals::Refusal;

// Shown to the calls that edit a session. Only an accepted open or withdrawal makes one. Two types and no generic pass, which
// would need two more, one for each stage, to tell its instances apart.
#[derive(Debug, Drop)]
pub struct Editing {
    made: (),
}

// Shown to the released question. Only an accepted release makes one.
#[derive(Debug, Drop)]
pub struct Released {
    made: (),
}

// A refused call that takes a pass hands it back.
#[derive(Debug, Drop)]
pub struct HandedBack<P> {
    pub pass: P,
    pub refusal: Refusal,
}

impl Editing {
    pub(crate) fn new() -> Editing {
        Editing { made: () }
    }
}

impl Released {
    pub(crate) fn new() -> Released {
        Released { made: () }
    }
}
