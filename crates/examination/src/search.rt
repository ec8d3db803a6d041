ghost use Rattle.std.specs.Prelude.{◌≡◌, ◌<◌, ◌≤◌, length};
ghost use Rattle.keepers.specs.Meaning.{held};
ghost use Rattle.operations.specs.Events.{event, events, at};
ghost use Rattle.operations.specs.Races.{races as races_by, unordered as unordered_by, racing_partner};
ghost use Rattle.operations.specs.Rules.{pairing};
ghost use Rattle.operations.specs.Sources.{release_for};

use keepers::Keeper;
use operations::{Operation, PairingRule, may_race, paired_release};
use words::Word;

// The release that is paired with the operation which follows the first `n`.
pub(crate) fn giver<W: Word, R: PairingRule>(
    log: &[Operation<W>],
    n: u16,
    rule: &R,
    next: &Operation<W>,
) -> Option<u16>
    requires { n ≤ length log.now }
    ensures { let op = at (events W.Word.value log.now) in
        result ≡ release_for (pairing (R.PairingRule.pairs rule.now)) op n (event W.Word.value next.now) }
{
    paired_release(&log[..n as usize], rule, next).map(|release| release as u16)
}

// Is a held operation before another one? The keeper refuses no question about held operations. With `== Ok(false)` in
// place of this branch, each step of a search also checked again that both are held.
fn is_before<K: Keeper>(keeper: &mut K, a: u16, b: u16) -> bool
    requires first { a < held (K.Keeper.meaning keeper.old) }
    requires second { b < held (K.Keeper.meaning keeper.old) }
    ensures value { result ≡ (K.Keeper.meaning keeper.old).before a b }
    ensures same { K.Keeper.meaning keeper.new ≡ K.Keeper.meaning keeper.old }
{
    let Ok(answer) = keeper.before(a, b) else {
        return unreachable();
    };
    answer
}

// Is neither of two held operations before the other?
fn unordered<K: Keeper>(keeper: &mut K, a: u16, b: u16) -> bool
    requires first { a < held (K.Keeper.meaning keeper.old) }
    requires second { b < held (K.Keeper.meaning keeper.old) }
    ensures value { result ≡ unordered_by (K.Keeper.meaning keeper.old).before a b }
    ensures same { K.Keeper.meaning keeper.new ≡ K.Keeper.meaning keeper.old }
{
    !is_before(keeper, a, b) && !is_before(keeper, b, a)
}

// Is recorded operation `a` in a data race with recorded operation `b`, which is `other`, by the keeper's order?
#[tactic(auto, using(operations::proofs::Searching::at_events))]
fn races<W: Word, K: Keeper>(
    log: &[Operation<W>],
    keeper: &mut K,
    a: u16,
    b: u16,
    other: &Operation<W>,
) -> bool
    requires recorded { a < length log.now }
    requires kept { (a < held (K.Keeper.meaning keeper.old)) × (b < held (K.Keeper.meaning keeper.old)) }
    requires named { event W.Word.value other.now ≡ at (events W.Word.value log.now) b }
    ensures value { let op = at (events W.Word.value log.now) in
        result ≡ races_by (K.Keeper.meaning keeper.old).before op a b }
    ensures same { K.Keeper.meaning keeper.new ≡ K.Keeper.meaning keeper.old }
{
    may_race(&log[a as usize], other) && unordered(keeper, a, b)
}

// The latest operation earlier than number `n` in a data race with it, by the keeper's order.
#[tactic(auto, using(operations::proofs::Searching::at_events, operations::proofs::Searching::such_hit, operations::proofs::Searching::such_miss))]
pub(crate) fn partner_of<W: Word, K: Keeper>(
    log: &[Operation<W>],
    keeper: &mut K,
    n: u16,
) -> Option<u16>
    requires recorded { n < length log.now }
    requires kept { n < held (K.Keeper.meaning keeper.old) }
    ensures value { let op = at (events W.Word.value log.now) in
        result ≡ racing_partner (K.Keeper.meaning keeper.old).before op n }
    ensures same { K.Keeper.meaning keeper.new ≡ K.Keeper.meaning keeper.old }
{
    // read once, and not again for each operation that it is compared with
    let newest = log[n as usize];
    // a `for`: what a closure does to the keeper is not known once `find` has taken it
    for k in (0..n).rev() {
        if races(log, keeper, k, n, &newest) {
            return Some(k);
        }
    }
    None
}
