ghost use Rattle.std.specs.Prelude.{◌≡◌, ℕ, ◌*◌, ◌<◌, ◌≤◌, true, List, map, length, OnErr};
ghost use Rattle.worklist.specs.Sets.{Set};
ghost use Rattle.automaton.specs.Limits.{edge_count, all_below};
ghost use Rattle.checker.specs.Refusals.{outcome, told};
ghost use Rattle.checker.specs.Checks.{refused_or, is_open, question_refusal};
ghost use Rattle.checker.specs.Calls.{asked};
ghost use Rattle.checker.specs.Did.{Did, question, released_question};
ghost use Rattle.checker.specs.Views.{session_of, answered, valued};

use crate::answers::Answer;
use crate::passes::Released;
use crate::record::Record;
use crate::refusals::Refusal;
use crate::stages::Stage;
use automaton::reading::{all_below, read_word};
use scale::Scale;
use worklist::Worklist;

impl Record {
    // Whether it is editing or released.
    pub(crate) fn is_open(&self) -> bool
        ensures { result ≡ is_open self.now.stage }
    {
        self.stage != Stage::Blank
    }

    // Whether a question may be answered, or why it may not; `staged` says whether the record's stage allows it.
    #[tactic(auto, using(crate::proofs::Refusing::lent_tests))]
    fn check_question<S: Scale>(
        &self,
        staged: bool,
        edges: &[S],
        scratch: usize,
        control: usize,
        word: &[u8],
    ) -> Result<(), Refusal>
        ensures { (ws : List S.Value) (w : Set) (m : ℕ) →
            outcome result
            ≡ question_refusal staged
            (session_of self.now (map S.value edges.now) ws w m) scratch control word.now }
    {
        let sizes = self.sizes;
        if !staged {
            Err(Refusal::WrongStage)
        } else if !sizes.fit_edges(edges.len()) || scratch < 2 * sizes.states {
            Err(Refusal::TooShort)
        } else if control >= sizes.controls {
            Err(Refusal::NoState)
        } else if !all_below(sizes.symbols, word) {
            Err(Refusal::NoSymbol)
        } else {
            Ok(())
        }
    }

    // The weight of a configuration, where it can be read.
    fn read<S: Scale>(&self, edges: &[S], scratch: &mut [S], control: usize, word: &[u8]) -> S
        requires edges { edge_count self.now.sizes ≤ length edges.now }
        requires scratch { 2 * self.now.sizes.states ≤ length scratch.old }
        requires control { control < self.now.sizes.controls }
        requires word { all_below self.now.sizes.symbols word.now ≡ true }
        ensures { (ws : List S.Value) (w : Set) (m : ℕ) →
            S.value result
            ≡ asked S.values (session_of self.now (map S.value edges.now) ws w m) control word.now }
    {
        read_word(self.sizes, edges, &self.finals, scratch, control, word).unwrap()
    }

    // The weight of a configuration, or why it is not answered; `staged` says whether the record's stage allows it.
    fn ask<S: Scale>(
        &self,
        staged: bool,
        edges: &[S],
        scratch: &mut [S],
        control: usize,
        word: &[u8],
    ) -> Result<S, Refusal>
        ensures answer { (ws : List S.Value) (w : Set) (m : ℕ) →
            told (valued S.value result)
            ≡ refused_or
            (question_refusal staged
            (session_of self.now (map S.value edges.now) ws w m)
            (length scratch.old) control word.now)
            (asked S.values (session_of self.now (map S.value edges.now) ws w m) control word.now) }
        ensures refused { OnErr result (scratch.new ≡ scratch.old) }
        ensures scratch { length scratch.new ≡ length scratch.old }
    {
        self.check_question(staged, edges, scratch.len(), control, word)?;
        Ok(self.read(edges, scratch, control, word))
    }

    // The weight of a configuration so far, and whether the session is settled. A configuration goes by its control and its word
    // here and below: a struct would be made at each call only to be taken apart.
    pub fn question<S: Scale, K: Worklist>(
        &self,
        edges: &[S],
        worklist: &K,
        scratch: &mut [S],
        control: usize,
        word: &[u8],
    ) -> Result<Answer<S>, Refusal>
        ensures did { (ws : List S.Value) →
            Did S.values
            (session_of self.now (map S.value edges.now) ws (K.waiting worklist.now) (K.room worklist.now))
            (question control word.now (length scratch.old) (told (answered S.value result)))
            (session_of self.now (map S.value edges.now) ws (K.waiting worklist.now) (K.room worklist.now)) }
        ensures refused { OnErr result (scratch.new ≡ scratch.old) }
        ensures scratch { length scratch.new ≡ length scratch.old }
    {
        let weight = self.ask(self.is_open(), edges, scratch, control, word)?;
        let settled = worklist.is_empty();
        Ok(Answer { weight, settled })
    }

    // The weight of a configuration, after the release.
    pub fn released_question<S: Scale>(
        &self,
        _pass: &Released,
        edges: &[S],
        scratch: &mut [S],
        control: usize,
        word: &[u8],
    ) -> Result<S, Refusal>
        ensures did { (ws : List S.Value) (w : Set) (m : ℕ) →
            Did S.values
            (session_of self.now (map S.value edges.now) ws w m)
            (released_question control word.now (length scratch.old) (told (valued S.value result)))
            (session_of self.now (map S.value edges.now) ws w m) }
        ensures refused { OnErr result (scratch.new ≡ scratch.old) }
        ensures scratch { length scratch.new ≡ length scratch.old }
    {
        self.ask(self.is_released(), edges, scratch, control, word)
    }
}
