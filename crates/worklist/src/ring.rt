ghost use Rattle.std.specs.Prelude.{◌≡◌, ◌<◌, min, true, false, [], length, if◌then◌else◌, IsTrue, MatchOption, nat_lt};
ghost use Rattle.worklist.specs.Sets.{empty, adding, without};
ghost use Rattle.worklist.specs.Puts.{put_answer};
ghost use Rattle.worklist.specs.Members.{member_below};
ghost use Rattle.worklist.specs.Rings.{used, around, queue, member, all_below, distinct, after_put, Taken};

use crate::{MARKS, Worklist};
use std::marker::Model;

// Numbers that wait in lent slots, each with a mark; the one that came first is taken first.
#[derive(Debug, Drop)]
pub struct Ring<'a> {
    // Lent slots, an array of marks and no `VecDeque`: nothing here is on the heap.
    slots: &'a mut [usize],
    head: usize,
    len: usize,
    marks: [bool; MARKS],
    // The view has these two facts; what else is always true is the model's invariant.
    ghost low: { IsTrue (all_below (used slots.now) (queue slots.now head len)) },
    ghost once: { IsTrue (distinct (queue slots.now head len)) },
}

// Clauses see the capacity, and the numbers in the order in which they came.
impl<'a> Model for Ring<'a> {
    ghost use Rattle.worklist.specs.Members.{used_within_marks};
    ghost use Rattle.worklist.specs.Rings.{Line, IsLaid, used, queue};

    ghost Value = { Line };

    ghost view = { λ r. record {
      capacity = used r.slots.now;
      small = used_within_marks r.slots.now;
      numbers = queue r.slots.now r.head r.len;
      low = r.low;
      once = r.once;
      layout = (r.slots.now, r.head);
    } };

    ghost invariant = { λ r. IsLaid r.slots.now r.head r.len r.marks };
}

impl<'a> Ring<'a> {
    pub fn new(slots: &'a mut [usize]) -> Self
        ensures size { result.capacity ≡ min (length slots.old) 512 }
        ensures order { result.numbers ≡ [] }
    {
        Ring {
            slots,
            head: 0,
            len: 0,
            marks: [false; MARKS],
        }
    }

    // Tells whether a number waits, by its mark.
    fn waits(&self, candidate: usize) -> bool
        requires { candidate < 512 }
        ensures { result ≡ member self.now.numbers candidate }
    {
        self.marks[candidate]
    }
}

// A place that is at most one round too far, brought back.
fn around(place: usize, capacity: usize) -> usize
    ensures { result ≡ around capacity place }
{
    place.checked_sub(capacity).unwrap_or(place)
}

impl Worklist for Ring<'_> {
    ghost room = { λ r. r.capacity };

    ghost waiting = { λ r. member r.numbers };

    ghost within = { λ r n waits. member_below r.capacity r.numbers n r.low waits };

    fn capacity(&self) -> usize {
        self.slots.len().min(MARKS)
    }

    fn is_empty(&self) -> bool {
        self.len == 0
    }

    fn clear(&mut self)
        ensures kept { self.new.capacity ≡ self.old.capacity }
        ensures set { member self.new.numbers ≡ empty }
        ensures order { self.new.numbers ≡ [] }
    {
        self.len = 0;
        self.marks = [false; MARKS];
    }

    fn put(&mut self, number: usize) -> Result<(), usize>
        ensures kept { self.new.capacity ≡ self.old.capacity }
        ensures answer { result ≡ put_answer self.old.capacity number }
        ensures set { member self.new.numbers ≡ (if nat_lt number self.old.capacity
            then adding (member self.old.numbers) number
            else member self.old.numbers) }
        ensures refused { nat_lt number self.old.capacity ≡ false → self.new ≡ self.old }
        ensures order { self.new.numbers ≡ after_put self.old.capacity self.old.numbers number }
    {
        let capacity = self.capacity();
        if number >= capacity {
            return Err(number);
        }
        if !self.waits(number) {
            let end = around(self.head + self.len, capacity);
            self.slots[end] = number;
            self.len += 1;
            self.marks[number] = true;
        }
        Ok(())
    }

    fn take(&mut self) -> Option<usize>
        ensures kept { self.new.capacity ≡ self.old.capacity }
        ensures waited { MatchOption result (member self.old.numbers ≡ empty)
            (λ n. member self.old.numbers n ≡ true) }
        ensures set { member self.new.numbers ≡ without (member self.old.numbers) result }
        ensures order { Taken self.old.numbers result self.new.numbers }
    {
        if self.len == 0 {
            return None;
        }
        let capacity = self.capacity();
        let number = self.slots[self.head];
        self.head = around(self.head + 1, capacity);
        self.len -= 1;
        self.marks[number] = false;
        Some(number)
    }
}
