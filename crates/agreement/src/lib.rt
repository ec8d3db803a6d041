// Two keepers that were given the same operations answer every order question alike, whatever they store and
// whatever layers they have.
#![tactic(auto)]

ghost use Rattle.std.specs.Prelude.{◌≡◌, true};
ghost use Rattle.agreement.specs.Agreement.{same_answer, GivenTheSame, MadeAlike};
ghost use Rattle.keepers.specs.Asking.{order};

use keepers::{Keeper, KeeperFault};

// Asks two keepers whether operation `a` is before operation `b`, and answers whether they say the same.
#[tactic(auto, using(crate::proofs::Alike::given_order, crate::proofs::Alike::made_same))]
pub fn answer_alike<K: Keeper, L: Keeper>(one: &mut K, other: &mut L, a: u16, b: u16) -> bool
    ensures answer { result ≡ same_answer (order (K.Keeper.meaning one.old) a b) (order (L.Keeper.meaning other.old) a b) }
    ensures one { K.Keeper.meaning one.new ≡ K.Keeper.meaning one.old }
    ensures other { L.Keeper.meaning other.new ≡ L.Keeper.meaning other.old }
    ensures agree { GivenTheSame (K.Keeper.meaning one.old) (L.Keeper.meaning other.old) → result ≡ true }
    ensures made { MadeAlike (K.Keeper.meaning one.old) (L.Keeper.meaning other.old) → result ≡ true }
{
    same(one.before(a, b), other.before(a, b))
}

// Are two answers the same yes or no, or the same refusal?
fn same(first: Result<bool, KeeperFault>, second: Result<bool, KeeperFault>) -> bool
    ensures { result ≡ same_answer first second }
{
    first == second
}
