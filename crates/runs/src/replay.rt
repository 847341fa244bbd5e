ghost use Rattle.std.specs.Prelude.{◌≡◌, ◌<◌, ◌≤◌, map, length, is_some, Some, Err, if◌then◌else◌, IfNone, OnErr, OnSome};
ghost use Rattle.std.specs.Bool.{OnTrue, then_some};
ghost use Rattle.runs.specs.declared.replay.Stop.TheVariants.{TooShort};
ghost use Rattle.runs.specs.Stacks.{fits_stack, fitting, replaced, entered, replayed, Replays};
ghost use Rattle.runs.specs.Points.{start, pointed, joined, standing, can_replay};

use automaton::rules::{Rule, Word};
use scale::Scale;
use std::fmt;
use thiserror::Error;

// Where a run stands: its control, the length of its stack, and its weight so far.
#[derive(Clone, Copy, Debug, PartialEq, Eq)]
pub struct Run<S> {
    pub control: usize,
    pub length: usize,
    pub weight: S,
}

// At which entry a run is broken off, and where it stands then.
#[derive(Clone, Copy, Debug, PartialEq, Eq)]
pub struct BrokenAt {
    pub place: usize,
    pub control: usize,
    pub length: usize,
}

impl fmt::Display for BrokenAt {
    fn fmt<W: fmt::Write>(&self, f: &mut fmt::Formatter<W>) -> fmt::Result {
        let BrokenAt {
            place,
            control,
            length,
        } = self;
        write!(
            f,
            "entry {place}, in control {control} with a stack of {length}"
        )
    }
}

// Why a run is not begun, or broken off.
#[derive(Clone, Copy, Debug, PartialEq, Eq, Error)]
pub enum Stop {
    #[error("a rule has no weight, or the buffer is lower than the stack")]
    TooShort,
    #[error("no rule fits at {0}")]
    Misfit(BrokenAt),
    #[error("a rule's second symbol has no place at {0}")]
    NoRoom(BrokenAt),
}

// Rules, and a weight for each, in the two slices that a caller lends: there is no memory for a list of pairs.
#[derive(Drop)]
struct Weighted<'a, S> {
    rules: &'a [Rule],
    weights: &'a [S],
    ghost each: { length rules.now ≤ length weights.now },
}

// A control, and a stack of some height in a buffer, its bottom at place 0 and its top last.
#[derive(Drop)]
struct Configuration<'a> {
    control: usize,
    buffer: &'a mut [u8],
    height: usize,
    ghost within: { height ≤ length buffer.now },
}

impl Configuration<'_> {
    fn fits(&self, rule: Rule) -> bool
        ensures { result ≡ fits_stack rule self.now.control self.now.buffer.now self.now.height }
    {
        self.height > 0
            && rule.control == self.control
            && rule.symbol == self.buffer[self.height - 1]
    }

    // The rule of a number, if there is one that fits.
    fn find_fitting(&self, rules: &[Rule], number: usize) -> Option<Rule>
        ensures is { result
            ≡ fitting rules.now number self.now.control self.now.buffer.now self.now.height }
        ensures named { OnSome result (number < length rules.now) }
    {
        let rule = *rules.get(number)?;
        self.fits(rule).then_some(rule)
    }

    // Replaces the top by a word, unless its second symbol has no place. Nothing and no error then: only the caller knows the entry.
    fn replace_top(&mut self, word: Word) -> Option<()>
        requires { 0 < self.old.height }
        ensures same { self.new.buffer.ghost_name ≡ self.old.buffer.ghost_name }
        ensures stack { then_some (is_some result) (self.new.height, self.new.buffer.now)
            ≡ replaced word self.old.buffer.now self.old.height }
        ensures full { IfNone result (self.new.buffer.now ≡ self.old.buffer.now) }
    {
        match word {
            Word::Pop => self.height -= 1,
            Word::Swap(only) => self.buffer[self.height - 1] = only,
            Word::Push(first, second) => {
                // Not by `get_mut`: after a write through it a proof knows no element of the buffer.
                if self.height >= self.buffer.len() {
                    return None;
                }
                self.buffer[self.height - 1] = second;
                self.buffer[self.height] = first;
                self.height += 1;
            }
        }
        Some(())
    }

    // Enters a rule's number at a place, and extends the weight so far.
    fn enter<S: Scale>(
        &mut self,
        weighted: &Weighted<S>,
        place: usize,
        number: usize,
        weight: S,
    ) -> Result<S, Stop>
        ensures same { self.new.buffer.ghost_name ≡ self.old.buffer.ghost_name }
        ensures run { joined S.value result self.new.control self.new.height self.new.buffer.now
            ≡ entered S.values weighted.now.rules.now (map S.value weighted.now.weights.now)
            place number (standing self.old.control self.old.height (S.value weight))
            self.old.buffer.now }
        ensures kept { OnErr result (self.new.buffer.now ≡ self.old.buffer.now) }
    {
        let at = BrokenAt {
            place,
            control: self.control,
            length: self.height,
        };
        let rule = self
            .find_fitting(weighted.rules, number)
            .ok_or(Stop::Misfit(at))?;
        self.replace_top(rule.word).ok_or(Stop::NoRoom(at))?;
        self.control = rule.target;
        Ok(weight.extend(weighted.weights[number]))
    }

    // Enters one number after another.
    fn run<S: Scale>(&mut self, weighted: &Weighted<S>, numbers: &[usize]) -> Result<Run<S>, Stop>
        ensures same { self.new.buffer.ghost_name ≡ self.old.buffer.ghost_name }
        ensures run { (pointed S.value result, self.new.buffer.now)
            ≡ replayed S.values weighted.now.rules.now (map S.value weighted.now.weights.now)
            0 numbers.now (start S.values self.old.control self.old.height)
            self.old.buffer.now }
    {
        let mut weight = S::one();
        // A `try_fold` would be no plainer: its closure would hold the configuration's `&mut`.
        for (place, number) in numbers.iter().enumerate() {
            weight = self.enter(weighted, place, *number, weight)?;
        }
        Ok(Run {
            control: self.control,
            length: self.height,
            weight,
        })
    }
}

// Runs rule numbers from a control and a stack of some height in a buffer, its bottom at place 0 and its top last. A rule
// writes only the places of the symbols that it leaves. Nothing is done where a rule has no weight or the buffer is lower
// than the stack. The buffer is lent with the stack's height, since no memory is asked for.
pub fn replay<S: Scale>(
    rules: &[Rule],
    weights: &[S],
    numbers: &[usize],
    control: usize,
    buffer: &mut [u8],
    height: usize,
) -> Result<Run<S>, Stop>
    ensures answer { pointed S.value result
        ≡ (if can_replay rules.now weights.now buffer.old height
        then (replayed S.values rules.now (map S.value weights.now)
        0 numbers.now (start S.values control height) buffer.old).0
        else Err TooShort) }
    ensures buffer { buffer.new
        ≡ (if can_replay rules.now weights.now buffer.old height
        then (replayed S.values rules.now (map S.value weights.now)
        0 numbers.now (start S.values control height) buffer.old).1
        else buffer.old) }
    ensures run { OnTrue (can_replay rules.now weights.now buffer.old height)
        (Replays S.values rules.now (map S.value weights.now)
        numbers.now control height buffer.old (pointed S.value result) buffer.new) }
{
    if rules.len() > weights.len() || height > buffer.len() {
        return Err(Stop::TooShort);
    }
    let mut configuration = Configuration {
        control,
        buffer,
        height,
    };
    configuration.run(&Weighted { rules, weights }, numbers)
}
