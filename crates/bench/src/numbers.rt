ghost use Rattle.std.specs.Prelude.{◌≡◌, ◌/◌};
ghost use Rattle.bench.specs.Generator.{following, remainder};

// Numbers that look random and are the same in every run.
#[derive(Drop)]
pub(crate) struct Numbers {
    state: u32,
}

impl Numbers {
    pub(crate) fn new(seed: u32) -> Numbers
        ensures { result.state ≡ seed }
    {
        Numbers { state: seed }
    }

    // The next number, of 16 bits.
    pub(crate) fn next(&mut self) -> u32
        ensures state { self.new.state ≡ following self.old.state }
        ensures number { result ≡ self.new.state / 65536 }
    {
        self.state = self.state.wrapping_mul(1_103_515_245).wrapping_add(12_345);
        self.state >> 16
    }

    // The next number's remainder by a bound; 0 where the bound is.
    pub(crate) fn below(&mut self, bound: usize) -> usize
        ensures { result ≡ remainder (self.new.state / 65536) bound }
    {
        (self.next() as usize).checked_rem(bound).unwrap_or(0)
    }
}
