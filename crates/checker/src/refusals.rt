ghost use Rattle.std.specs.Prelude.{◌≡◌};
ghost use Rattle.checker.specs.declared.refusals.Refusal.TheVariants as no;
ghost use Rattle.checker.specs.Refusals.{reason, stop_reason};

use automaton::rules::LongWord;
use runs::replay::{BrokenAt, Stop};
use thiserror::Error;

// Why a call was not done.
#[derive(Clone, Copy, Debug, PartialEq, Eq, Error)]
pub enum Refusal {
    #[error("the sizes are not allowed")]
    Sizes,
    #[error("something that the call is lent is too short")]
    TooShort,
    #[error("the worklist's capacity is below the limit of rules")]
    SmallWorklist,
    #[error("the record's stage is not the one for this call")]
    WrongStage,
    #[error("there is no such control or state")]
    NoState,
    #[error("there is no such symbol")]
    NoSymbol,
    #[error("the rule's word has more than two symbols")]
    LongWord,
    #[error("the target edge ends in a control")]
    IntoControl,
    #[error("there are as many rules as may be")]
    Full,
    #[error("a number waits")]
    Waiting,
    #[error("no rule fits at {0}")]
    Misfit(BrokenAt),
    #[error("a rule's second symbol has no place at {0}")]
    NoRoom(BrokenAt),
}

impl Refusal {
    // Its number in the table of refusals, by which others than callers in Rattle know it.
    pub fn number(self) -> u8
        ensures { result ≡ (reason self).number }
    {
        match self {
            Refusal::Sizes => 1,
            Refusal::TooShort => 2,
            Refusal::SmallWorklist => 3,
            Refusal::WrongStage => 4,
            Refusal::NoState => 5,
            Refusal::NoSymbol => 6,
            Refusal::LongWord => 7,
            Refusal::IntoControl => 8,
            Refusal::Full => 9,
            Refusal::Waiting => 10,
            Refusal::Misfit(_) => 11,
            Refusal::NoRoom(_) => 12,
        }
    }
}

impl From<LongWord> for Refusal {
    ghost from_gives = { λ _ refusal. refusal ≡ no.LongWord };

    fn from(_word: LongWord) -> Refusal {
        Refusal::LongWord
    }
}

impl From<Stop> for Refusal {
    ghost from_gives = { λ stop refusal. reason refusal ≡ stop_reason stop };

    fn from(stop: Stop) -> Refusal {
        match stop {
            Stop::TooShort => Refusal::TooShort,
            Stop::Misfit(at) => Refusal::Misfit(at),
            Stop::NoRoom(at) => Refusal::NoRoom(at),
        }
    }
}
