ghost use Rattle.std.specs.Prelude.{◌≡◌, true, MatchOption};
ghost use Rattle.worklist.specs.Sets.{empty, without, marked, Least};
ghost use Rattle.std.proofs.Common.{rules};

use crate::{MARKS, Worklist};
use std::marker::Model;

// One mark for each number below 512; the smallest marked number is taken first.
#[derive(Debug, Drop)]
pub struct MarkTable {
    // An array and no `Vec`: nothing here is on the heap.
    marks: [bool; MARKS],
}

// Clauses see the marks.
impl Model for MarkTable {
    ghost use Rattle.std.specs.Prelude.{Bool, List};

    ghost Value = { List Bool };

    ghost view = { λ t. t.marks };
}

impl MarkTable {
    pub fn new() -> Self
        ensures { marked result ≡ empty }
    {
        MarkTable {
            marks: [false; MARKS],
        }
    }
}

impl Default for MarkTable {
    ghost is_default = { λ t. marked t ≡ empty };

    fn default() -> Self {
        MarkTable::new()
    }
}

impl Worklist for MarkTable {
    ghost room = { λ _. 512 };

    ghost waiting = { marked };

    ghost within = { Prim.search rules };

    fn capacity(&self) -> usize {
        MARKS
    }

    fn is_empty(&self) -> bool {
        !self.marks.contains(&true)
    }

    fn clear(&mut self) {
        self.marks = [false; MARKS];
    }

    fn put(&mut self, number: usize) -> Result<(), usize> {
        if number >= MARKS {
            return Err(number);
        }
        self.marks[number] = true;
        Ok(())
    }

    fn take(&mut self) -> Option<usize>
        ensures waited { MatchOption result (marked self.old ≡ empty) (λ n. marked self.old n ≡ true) }
        ensures set { marked self.new ≡ without (marked self.old) result }
        ensures smallest { Least (marked self.old) result }
    {
        let number = self.marks.iter().position(|mark| *mark)?;
        self.marks[number] = false;
        Some(number)
    }
}
