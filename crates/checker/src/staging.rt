ghost use Rattle.std.specs.Prelude.{◌≡◌, OnErr};
ghost use Rattle.checker.specs.Refusals.{told};
ghost use Rattle.checker.specs.Checks.{is_released};
ghost use Rattle.checker.specs.Did.{ReleasedTo, WithdrawnTo, Tallied};
ghost use Rattle.checker.specs.Views.{table_of, passed, refusal_of};

use crate::passes::{Editing, HandedBack, Released};
use crate::record::Record;
use crate::refusals::Refusal;
use crate::stages::Stage;
use worklist::Worklist;

impl Record {
    pub(crate) fn is_released(&self) -> bool
        ensures { result ≡ is_released self.now.stage }
    {
        self.stage == Stage::Released
    }

    // Ends the editing, where no number waits.
    pub fn release<K: Worklist>(
        &mut self,
        pass: Editing,
        worklist: &K,
    ) -> Result<Released, HandedBack<Editing>>
        ensures did { ReleasedTo
            (table_of self.old)
            (K.waiting worklist.now)
            (told (passed result))
            (table_of self.new) }
        ensures refused { OnErr (passed result) (self.new ≡ self.old) }
    {
        let idle = worklist.is_empty();
        if !self.is_editing() {
            return Err(HandedBack {
                pass,
                refusal: Refusal::WrongStage,
            });
        }
        if !idle {
            return Err(HandedBack {
                pass,
                refusal: Refusal::Waiting,
            });
        }
        self.stage = Stage::Released;
        Ok(Released::new())
    }

    // Goes back to editing.
    pub fn withdraw(&mut self, pass: Released) -> Result<Editing, HandedBack<Released>>
        ensures did { WithdrawnTo (table_of self.old) (told (passed result)) (table_of self.new) }
        ensures refused { OnErr (passed result) (self.new ≡ self.old) }
    {
        if !self.is_released() {
            return Err(HandedBack {
                pass,
                refusal: Refusal::WrongStage,
            });
        }
        self.stage = Stage::Editing;
        Ok(Editing::new())
    }

    // Ends the session: the total of its raises, and the record is blank.
    pub fn tally(&mut self, pass: Released) -> Result<u64, HandedBack<Released>>
        ensures did { Tallied (table_of self.old) (told (refusal_of result)) (table_of self.new) }
        ensures refused { OnErr (refusal_of result) (self.new ≡ self.old) }
    {
        if !self.is_released() {
            return Err(HandedBack {
                pass,
                refusal: Refusal::WrongStage,
            });
        }
        let total = self.total;
        *self = Record::new();
        Ok(total)
    }
}
