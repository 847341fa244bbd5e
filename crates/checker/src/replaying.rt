ghost use Rattle.std.specs.Prelude.{◌≡◌, map, length, None};
ghost use Rattle.runs.specs.Stacks.{Replays};
ghost use Rattle.runs.specs.Points.{pointed};
ghost use Rattle.checker.specs.Refusals.{outcome, told};
ghost use Rattle.checker.specs.Replay.{replay_refusal, Replayed};
ghost use Rattle.checker.specs.Views.{table_of};

use crate::record::Record;
use crate::refusals::Refusal;
use automaton::reading::all_below;
use runs::replay::{Run, replay};
use scale::Scale;

impl Record {
    // Refuses a replay before its first entry, if it is to be refused there.
    fn check_replay(
        &self,
        weights: usize,
        control: usize,
        buffer: &[u8],
        height: usize,
    ) -> Result<(), Refusal>
        ensures { outcome result
            ≡ replay_refusal (table_of self.now) weights control buffer.now height }
    {
        let sizes = self.sizes;
        if !self.is_open() {
            return Err(Refusal::WrongStage);
        }
        if weights < sizes.limit || buffer.len() < height {
            return Err(Refusal::TooShort);
        }
        if control >= sizes.controls {
            return Err(Refusal::NoState);
        }
        if !all_below(sizes.symbols, &buffer[..height]) {
            return Err(Refusal::NoSymbol);
        }
        Ok(())
    }

    // Runs rule numbers from a control and a stack of some height in a buffer, its bottom at place 0 and its top last:
    // where the run ends, and its weight. Broken off, it leaves the stack reached. The buffer is lent with the stack's
    // height, since a session asks for no memory.
    pub fn replay<S: Scale>(
        &self,
        weights: &[S],
        numbers: &[usize],
        control: usize,
        buffer: &mut [u8],
        height: usize,
    ) -> Result<Run<S>, Refusal>
        ensures did { Replayed S.values (table_of self.now) (map S.value weights.now)
            numbers.now control height buffer.old (told (pointed S.value result)) buffer.new }
        ensures run { replay_refusal (table_of self.now) (length (map S.value weights.now))
            control buffer.old height ≡ None
            → Replays S.values (table_of self.now).rules (map S.value weights.now)
            numbers.now control height buffer.old (told (pointed S.value result)) buffer.new }
    {
        self.check_replay(weights.len(), control, buffer, height)?;
        Ok(replay(self.live_rules(), weights, numbers, control, buffer, height)?)
    }
}
