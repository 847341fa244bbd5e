ghost use Rattle.std.specs.Prelude.{◌≡◌, length, nat_le};
ghost use Rattle.std.specs.Bool.{then_some};
ghost use Rattle.std.specs.Result.{result_ok};
ghost use Rattle.automaton.specs.Limits.{all_below, rule_fits};
ghost use Rattle.automaton.specs.Pushdown.{symbols, word_of, has};

use crate::sizes::Sizes;
use thiserror::Error;

// The word that a rule leaves in the place of the top symbol.
#[derive(Clone, Copy, Debug, PartialEq, Eq)]
pub enum Word {
    Pop,
    Swap(u8),
    Push(u8, u8),
}

// From `control` with `symbol` on top to `target`, with the top replaced by `word`.
#[derive(Clone, Copy, Debug, PartialEq, Eq)]
pub struct Rule {
    pub control: usize,
    pub symbol: u8,
    pub target: usize,
    pub word: Word,
}

// More than two symbols, which no rule leaves.
#[derive(Clone, Copy, Debug, PartialEq, Eq, Error)]
#[error("a rule's word has more than two symbols")]
pub struct LongWord;

impl TryFrom<&[u8]> for Word {
    type Error = LongWord;

    ghost try_from_gives = { λ symbols result. result_ok result ≡ then_some (nat_le (length symbols.now) 2) (word_of symbols.now) };

    fn try_from(symbols: &[u8]) -> Result<Word, LongWord> {
        match symbols {
            [] => Ok(Word::Pop),
            [only] => Ok(Word::Swap(*only)),
            [first, second] => Ok(Word::Push(*first, *second)),
            _ => Err(LongWord),
        }
    }
}

impl Word {
    pub fn has_symbol(self, symbol: u8) -> bool
        ensures { result ≡ has (symbols self) symbol }
    {
        match self {
            Word::Pop => false,
            Word::Swap(only) => only == symbol,
            Word::Push(first, second) => first == symbol || second == symbol,
        }
    }

    // Whether its symbols are all below a number.
    pub fn is_below(self, number: usize) -> bool
        ensures { result ≡ all_below number (symbols self) }
    {
        match self {
            Word::Pop => true,
            Word::Swap(only) => (only as usize) < number,
            Word::Push(first, second) => (first as usize) < number && (second as usize) < number,
        }
    }
}

impl Rule {
    // Whether it names only controls and symbols of the sizes.
    pub fn fits(self, sizes: Sizes) -> bool
        ensures { result ≡ rule_fits sizes self }
    {
        self.control < sizes.controls
            && self.target < sizes.controls
            && (self.symbol as usize) < sizes.symbols
            && self.word.is_below(sizes.symbols)
    }
}
