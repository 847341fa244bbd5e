#![tactic(auto)]

ghost use Rattle.std.specs.Prelude.{◌≡◌, ℕ, ◌<◌, ◌↔◌, true, false, if◌then◌else◌, IsTrue, MatchOption, nat_lt};
ghost use Rattle.worklist.specs.Sets.{Set, empty, adding, without};
ghost use Rattle.worklist.specs.Puts.{put_answer};

pub mod mark_table;
pub mod ring;

// How many marks a worklist here keeps: one for each number below it.
const MARKS: usize = 512;

// Numbers that wait: a finite set, all below a capacity that never changes.
pub trait Worklist {
    ghost room: { Self → ℕ };

    ghost waiting: { Self → Set };

    fn capacity(&self) -> usize
        ensures { result ≡ room self.now };

    fn is_empty(&self) -> bool
        ensures { IsTrue result ↔ (waiting self.now ≡ empty) };

    fn clear(&mut self)
        ensures kept { room self.new ≡ room self.old }
        ensures set { waiting self.new ≡ empty };

    // Adds a number; one that is not below the capacity is handed back.
    fn put(&mut self, number: usize) -> Result<(), usize>
        ensures kept { room self.new ≡ room self.old }
        ensures answer { result ≡ put_answer (room self.old) number }
        ensures set { waiting self.new ≡ (if nat_lt number (room self.old)
            then adding (waiting self.old) number
            else waiting self.old) }
        ensures refused { nat_lt number (room self.old) ≡ false → self.new ≡ self.old };

    // Gives and removes some number that waits, or gives nothing where none does.
    fn take(&mut self) -> Option<usize>
        ensures kept { room self.new ≡ room self.old }
        ensures waited { MatchOption result (waiting self.old ≡ empty) (λ n. waiting self.old n ≡ true) }
        ensures set { waiting self.new ≡ without (waiting self.old) result };

    ghost within: { (w : Self) (n : ℕ) → waiting w n ≡ true → n < room w };
}
