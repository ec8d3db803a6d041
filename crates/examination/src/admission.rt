ghost use Rattle.std.specs.Prelude.{◌≡◌, ◌<◌, length, slice_set};
ghost use Rattle.keepers.specs.Meaning.{most_held};
ghost use Rattle.laws.specs.Tally.{noted};
ghost use Rattle.operations.specs.Events.{event};
ghost use Rattle.operations.specs.Rules.{pairing};
ghost use Rattle.examination.specs.Admission.{setting, exam, tally, checks, admission, after_admission, recorded, opening, opened};
ghost use Rattle.examination.specs.Runs.{AdmissionExact};

use crate::fault::ExamFault;
use crate::open::Open;
use crate::races::{Races, RacingPair};
use crate::search::{giver, partner_of};
use keepers::Keeper;
use operations::{Operation, PairingRule, word_fits};
use words::Word;

// A class is at most this.
const HIGHEST_CLASS: u8 = 15;

// The answer to an admission: the operation's number, and its racing partner if it has one.
#[derive(Clone, Copy, PartialEq, Eq, Debug)]
pub struct Admitted {
    pub number: u16,
    pub partner: Option<u16>,
}

impl Open {
    // Opens an examination over a keeper that holds nothing.
    pub fn new<K: Keeper>(keeper: &K) -> Result<Open, ExamFault>
        ensures { opened result ≡ opening (K.Keeper.meaning keeper.now) }
    {
        if keeper.count() != 0 {
            return Err(ExamFault::CountDiffers);
        }
        Ok(Open {
            admitted: 0,
            races: None,
        })
    }

    // The checks of an admission that come before the keeper's own.
    fn check<W: Word, K: Keeper>(
        &self,
        log: &[Operation<W>],
        keeper: &K,
        next: &Operation<W>,
    ) -> Result<(), ExamFault>
        ensures { let E = exam W.Word.value log.now (K.Keeper.meaning keeper.now) self.now in
            result ≡ checks W.Word.start E (event W.Word.value next.now) }
    {
        let n = self.admitted as usize;
        if n >= log.len() {
            return Err(ExamFault::RecordShort);
        }
        if keeper.count() != self.admitted {
            return Err(ExamFault::CountDiffers);
        }
        if next.class > HIGHEST_CLASS {
            return Err(ExamFault::ClassTooHigh);
        }
        if !word_fits(&log[..n], next) {
            return Err(ExamFault::WordDiffers);
        }
        Ok(())
    }

    // Counts one operation more, with its racing partner.
    fn note(&mut self, partner: Option<u16>)
        requires { self.old.admitted < most_held }
        ensures { tally self.new ≡ noted (tally self.old) partner }
    {
        let operation = self.admitted;
        let races = match (partner, self.races) {
            (None, races) => races,
            (Some(partner), None) => Some(Races {
                count: 1,
                first: RacingPair { partner, operation },
            }),
            (Some(_), Some(races)) => Some(Races {
                count: races.count + 1,
                first: races.first,
            }),
        };
        *self = Open {
            admitted: operation + 1,
            races,
        };
    }

    // Admits an operation: writes it at the next place of the record and adds it to the keeper, with the release
    // that it is paired with as giver. A refused admission changes nothing. Record, keeper and rule are lent to each
    // call by itself, so that nothing is held between two calls.
    pub fn admit<W: Word, K: Keeper, R: PairingRule>(
        &mut self,
        log: &mut [Operation<W>],
        keeper: &mut K,
        rule: &R,
        operation: Operation<W>,
    ) -> Result<Admitted, ExamFault>
        ensures answer { let G = setting (R.PairingRule.pairs rule.now) W.Word.start in
            let E = exam W.Word.value log.old (K.Keeper.meaning keeper.old) self.old in
            result ≡ admission G E (event W.Word.value operation) }
        ensures after { let G = setting (R.PairingRule.pairs rule.now) W.Word.start in
            let E = exam W.Word.value log.old (K.Keeper.meaning keeper.old) self.old in
            exam W.Word.value log.new (K.Keeper.meaning keeper.new) self.new ≡ after_admission G E (event W.Word.value operation) }
        ensures written { log.new ≡ recorded log.old self.old.admitted operation result }
        ensures exact { let G = setting (R.PairingRule.pairs rule.now) W.Word.start in
            let E = exam W.Word.value log.old (K.Keeper.meaning keeper.old) self.old in
            AdmissionExact G E (event W.Word.value operation) result }
    {
        self.check(log, keeper, &operation)?;
        let giver = giver(log, self.admitted, rule, &operation);
        let number = keeper.add(operation.processor, giver)?;
        log[number as usize] = operation;
        let partner = partner_of(log, keeper, number);
        self.note(partner);
        Ok(Admitted { number, partner })
    }
}
