ghost use Rattle.std.specs.Prelude.{◌≡◌, ◌≤◌, length};
ghost use Rattle.worklist.specs.Sets.{union};
ghost use Rattle.checker.specs.Session.{readers};

use automaton::rules::Rule;
use worklist::Worklist;

// Puts on the worklist the numbers of the rules whose word has the symbol.
#[tactic(auto, using(crate::proofs::Woken::readers_at, std::proofs::lemmas::Bool::Decides::nat_tests))]
pub(crate) fn put_readers<K: Worklist>(rules: &[Rule], symbol: u8, worklist: &mut K)
    requires { length rules.now ≤ K.room worklist.old }
    ensures set { K.waiting worklist.new ≡ union (K.waiting worklist.old) (readers rules.now symbol) }
    ensures kept { K.room worklist.new ≡ K.room worklist.old }
{
    for (number, rule) in rules.iter().enumerate() {
        if rule.word.has_symbol(symbol) {
            worklist.put(number).unwrap();
        }
    }
}
