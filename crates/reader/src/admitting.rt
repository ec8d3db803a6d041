ghost use Rattle.std.specs.Prelude.{◌≡◌, ℕ, ◌+◌, ◌^◌, ◌<◌, [], length, slice_set};
ghost use Rattle.examination.specs.Admission.{setting};
ghost use Rattle.record_file.specs.Records.{record_of, and_then, rest_items, section_items, sections_items, file_items};
ghost use Rattle.record_file.specs.Directory.{Placed as IsPlaced};
ghost use Rattle.reader.specs.Examining.{reading};
ghost use Rattle.reader.specs.Reading.{read, ended};
ghost use Rattle.reader.specs.Admitting.{worked_on, KeepsLoans};

use examination::{Admitted, Open};
use keepers::Keeper;
use operations::{Operation, PairingRule};
use record_file::{Directory, FileFault, Placed, Record, Records, Section, record_bytes};
use words::Word;

// What the operations of a record file are admitted to: the examination, and what is lent to it.
#[derive(Drop)]
struct Admitting<'a, W, K, R> {
    exam: &'a mut Open,
    log: &'a mut [Operation<W>],
    keeper: &'a mut K,
    rule: &'a R,
    partners: &'a mut [Option<u16>],
}

// Notes an operation's racing partner, if the list has a place for it.
fn note(partners: &mut [Option<u16>], admitted: Admitted)
    ensures { partners.new ≡ slice_set partners.old admitted.number admitted.partner }
{
    let n = admitted.number as usize;
    // By index: after `get_mut` of a slice a proof knows none of its elements.
    if n < partners.len() {
        partners[n] = admitted.partner;
    }
}

impl<'a, W: Word, K: Keeper, R: PairingRule> Admitting<'a, W, K, R> {
    // As a call, so that all that is lent gets one lifetime, which the methods' `&mut self` needs.
    fn new(
        exam: &'a mut Open,
        log: &'a mut [Operation<W>],
        keeper: &'a mut K,
        rule: &'a R,
        partners: &'a mut [Option<u16>],
    ) -> Admitting<'a, W, K, R>
        ensures value { worked_on K.Keeper.meaning result
            ≡ reading log.old (K.Keeper.meaning keeper.old) exam.old partners.old }
        ensures rule { result.rule.now ≡ rule.now }
        ensures loans { (result.exam.ghost_name ≡ exam.entry.ghost_name)
            × (result.log.ghost_name ≡ log.entry.ghost_name)
            × (result.keeper.ghost_name ≡ keeper.entry.ghost_name)
            × (result.partners.ghost_name ≡ partners.entry.ghost_name) }
    {
        Admitting {
            exam,
            log,
            keeper,
            rule,
            partners,
        }
    }

    // Admits the operation of a record, and notes its racing partner.
    fn admit_record(&mut self, next: Record<'_>) -> Result<(), FileFault>
        ensures read { let G = setting (R.PairingRule.pairs self.old.rule.now) W.Word.start in
            let r = next.entry in
            ended result (worked_on K.Keeper.meaning self.new)
            ≡ read W.Word.value G (worked_on K.Keeper.meaning self.old)
            (and_then r.offset (record_of W.Word.decoded W.Word.WIDTH r.processor r.bytes.now r.offset) []) }
        ensures loans { KeepsLoans self.old self.new }
    {
        let offset = next.offset;
        let operation = next.operation::<W>()?;
        let admitted = self
            .exam
            .admit(self.log, self.keeper, self.rule, operation)
            .map_err(|fault| Placed { offset, fault })?;
        note(self.partners, admitted);
        Ok(())
    }

    // Admits the operations of a section's records in turn.
    fn admit_records(&mut self, records: Records<'_>) -> Result<(), FileFault>
        requires { records.offset + 1 + length records.bytes.now < 2 ^ 64 }
        ensures read { let G = setting (R.PairingRule.pairs self.old.rule.now) W.Word.start in
            let r = records.entry in
            ended result (worked_on K.Keeper.meaning self.new)
            ≡ read W.Word.value G (worked_on K.Keeper.meaning self.old)
            (rest_items W.Word.decoded W.Word.WIDTH r.processor r.bytes.now (r.offset + 1)) }
        ensures loans { KeepsLoans self.old self.new }
    {
        let size = record_bytes::<W>();
        for (i, bytes) in records.bytes.chunks_exact(size).enumerate() {
            self.admit_record(Record {
                processor: records.processor,
                offset: records.offset + 1 + i * size,
                bytes,
            })?;
        }
        Ok(())
    }

    // Admits the operations of a section in turn.
    fn admit_section(&mut self, section: Section<'_>) -> Result<(), FileFault>
        requires { section.offset + length section.bytes.now < 2 ^ 64 }
        ensures read { let G = setting (R.PairingRule.pairs self.old.rule.now) W.Word.start in
            ended result (worked_on K.Keeper.meaning self.new)
            ≡ read W.Word.value G (worked_on K.Keeper.meaning self.old)
            (section_items W.Word.decoded W.Word.WIDTH section.entry.bytes.now section.entry.offset) }
        ensures loans { KeepsLoans self.old self.new }
    {
        self.admit_records(section.records::<W>()?)
    }
}

// Admits the operations of a record file in turn, once its whole directory is checked. What was admitted before
// a fault stays admitted. The file's words are read as words of type W. All is lent to this call alone.
pub fn admit_file<W: Word, K: Keeper, R: PairingRule>(
    file: &[u8],
    exam: &mut Open,
    log: &mut [Operation<W>],
    keeper: &mut K,
    rule: &R,
    partners: &mut [Option<u16>],
) -> Result<(), FileFault>
    ensures { let G = setting (R.PairingRule.pairs rule.now) W.Word.start in
        let before = reading log.old (K.Keeper.meaning keeper.old) exam.old partners.old in
        let after = reading log.new (K.Keeper.meaning keeper.new) exam.new partners.new in
        ended result after ≡ read W.Word.value G before (file_items W.Word.decoded W.Word.WIDTH file.now) }
{
    let directory = Directory::new(file)?;
    let mut admitting = Admitting::new(exam, log, keeper, rule, partners);
    for section in directory.iter() {
        admitting.admit_section(section)?;
    }
    Ok(())
}
