ghost use Rattle.std.specs.Prelude.{◌&&◌, ◌==◌};
ghost use Rattle.std.proofs.Common.{rules};

use std::mem;
use worklist::Worklist;

// A worklist for the number 0 alone.
#[derive(Drop)]
pub struct Single {
    waits: bool,
}

impl Single {
    pub fn new() -> Single {
        Single { waits: false }
    }
}

impl Worklist for Single {
    ghost room = { λ _. 1 };

    ghost waiting = { λ w. λ n. (n == 0) && w.waits };

    ghost within = { Prim.search rules };

    fn capacity(&self) -> usize {
        1
    }

    fn is_empty(&self) -> bool {
        !self.waits
    }

    fn clear(&mut self) {
        self.waits = false;
    }

    fn put(&mut self, number: usize) -> Result<(), usize> {
        if number > 0 {
            return Err(number);
        }
        self.waits = true;
        Ok(())
    }

    fn take(&mut self) -> Option<usize> {
        mem::take(&mut self.waits).then_some(0)
    }
}
