ghost use Rattle.std.specs.Prelude.{◌≡◌, OnErr};
ghost use Rattle.checker.specs.Refusals.{outcome, told};
ghost use Rattle.checker.specs.Checks.{first, is_editing, editing_tests};
ghost use Rattle.checker.specs.Did.{Marked};
ghost use Rattle.checker.specs.Views.{table_of};

use crate::passes::Editing;
use crate::record::Record;
use crate::refusals::Refusal;
use crate::stages::Stage;
use worklist::Worklist;

impl Record {
    pub(crate) fn is_editing(&self) -> bool
        ensures { result ≡ is_editing self.now.stage }
    {
        self.stage == Stage::Editing
    }

    // The tests with which rule, edge and settle begin; `enough` says whether the slices that they are lent are long enough.
    pub(crate) fn check_editing<K: Worklist>(
        &self,
        enough: bool,
        worklist: &K,
    ) -> Result<(), Refusal>
        ensures { outcome result ≡ first (editing_tests (table_of self.now) enough (K.room worklist.now)) }
    {
        if !self.is_editing() {
            return Err(Refusal::WrongStage);
        }
        if !enough {
            return Err(Refusal::TooShort);
        }
        if worklist.capacity() < self.sizes.limit {
            return Err(Refusal::SmallWorklist);
        }
        Ok(())
    }

    // Marks a state as final.
    pub fn mark_final(&mut self, _pass: &Editing, state: usize) -> Result<(), Refusal>
        ensures did { Marked (table_of self.old) state (told result) (table_of self.new) }
        ensures refused { OnErr result (self.new ≡ self.old) }
    {
        if !self.is_editing() {
            return Err(Refusal::WrongStage);
        }
        if state >= self.sizes.states {
            return Err(Refusal::NoState);
        }
        self.finals[state] = true;
        Ok(())
    }
}
