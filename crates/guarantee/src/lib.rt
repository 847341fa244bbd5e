#![tactic(auto)]

ghost use Rattle.guarantee.specs.Histories.{held};
ghost use Rattle.guarantee.specs.Promises.{Promises};

use scale::Scale;
use worklist::Worklist;

// Every list of calls on a fresh session, over any scale and any worklist, keeps the promises.
pub fn promises_hold<S: Scale, K: Worklist>()
    ensures { Promises S.values (held S.value K.waiting K.room) }
{}
