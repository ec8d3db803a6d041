ghost use Rattle.std.specs.Prelude.{◌≡◌, ◌<◌, ◌&&◌, length, IfSome};
ghost use Rattle.operations.specs.Events.{event, events, at};
ghost use Rattle.operations.specs.Kinds.{release_kind};
ghost use Rattle.operations.specs.Rules.{pairing};
ghost use Rattle.operations.specs.Sources.{latest_write, release_for, word_from, fits_source};

use crate::operation::Operation;
use crate::rule::PairingRule;
use words::Word;

// The latest write of any kind to a location, among the operations of a record.
pub fn latest_write<W: Word>(log: &[Operation<W>], location: u16) -> Option<usize>
    ensures value { result ≡ latest_write (at (events W.Word.value log.now)) location (length log.now) }
    ensures within { IfSome result (λ k. k < length log.now) }
{
    log.iter()
        .rposition(|operation| operation.writes_to(location))
}

// The release that is paired with an operation which follows the record; only an acquire has one.
pub fn paired_release<W: Word, R: PairingRule>(
    log: &[Operation<W>],
    rule: &R,
    next: &Operation<W>,
) -> Option<usize>
    ensures value { let pairs = pairing (R.PairingRule.pairs rule.now) in
        let op = at (events W.Word.value log.now) in
        result ≡ release_for pairs op (length log.now) (event W.Word.value next.now) }
    ensures within { IfSome result (λ k. k < length log.now) }
{
    if !next.kind.is_acquire() {
        return None;
    }
    let source = latest_write(log, next.location)?;
    gives(&log[source], rule, next).then_some(source)
}

// Is a write that an acquire read a release which the rule pairs with it?
fn gives<W: Word, R: PairingRule>(source: &Operation<W>, rule: &R, acquire: &Operation<W>) -> bool
    ensures { result ≡ (release_kind source.now.kind && pairing (R.PairingRule.pairs rule.now) source.now.class acquire.now.class) }
{
    source.kind.is_release() && rule.paired(source.class, acquire.class)
}

// The word that a read of a location which follows the record has to carry.
fn carried<W: Word>(log: &[Operation<W>], location: u16) -> W
    ensures { let op = at (events W.Word.value log.now) in
        W.Word.value result ≡ word_from W.Word.start op (latest_write op location (length log.now)) }
{
    match latest_write(log, location) {
        Some(source) => log[source].word,
        None => W::INITIAL,
    }
}

// Does an operation which follows the record carry the right word? A read carries its source's word, and the
// initial word where it has no source; a write may carry any.
pub fn word_fits<W: Word>(log: &[Operation<W>], next: &Operation<W>) -> bool
    ensures { let op = at (events W.Word.value log.now) in
        result ≡ fits_source W.Word.start op (length log.now) (event W.Word.value next.now) }
{
    !next.kind.reads() || next.word == carried(log, next.location)
}
