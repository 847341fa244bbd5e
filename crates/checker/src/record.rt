ghost use Rattle.std.specs.Prelude.{◌≡◌, true, take, nat_le};
ghost use Rattle.automaton.specs.Limits.{sizes_allowed, all_fit};

use crate::stages::Stage;
use automaton::rules::Rule;
use automaton::sizes::Sizes;

// What a session keeps besides the weights and the worklist that its calls are lent. Its rules name only controls and
// symbols of its sizes, and are no more than its limit.
// Rows of its own and their count, of which its invariant speaks, and no `Vec`: no call can fail for want of memory.
#[derive(Drop)]
pub struct Record {
    pub(crate) stage: Stage,
    pub(crate) sizes: Sizes,
    pub(crate) count: usize,
    pub(crate) rules: [Rule; 512],
    pub(crate) finals: [bool; 64],
    pub(crate) total: u64,
    ghost allowed: { sizes_allowed sizes ≡ true },
    ghost counted: { nat_le count sizes.limit ≡ true },
    ghost fitting: { all_fit sizes (take count rules) ≡ true },
}
