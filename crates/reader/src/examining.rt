ghost use Rattle.std.specs.Prelude.{◌≡◌, take};
ghost use Rattle.examination.specs.Admission.{setting};
ghost use Rattle.keepers.specs.Meaning.{held};
ghost use Rattle.record_file.specs.Records.{file_items};
ghost use Rattle.reader.specs.Examining.{answered, examined, run_of, Told, operations_in, Listed};

use crate::admitting::admit_file;
use examination::{Open, Verdict};
use keepers::Keeper;
use operations::{Operation, PairingRule};
use record_file::{FileFault, Placed};
use words::Word;

// Opens an examination, admits the operations of a record file in turn, and closes. The racing partner of each
// admitted operation is noted under its number. Record, keeper and rule are lent to this call alone.
pub fn examine<W: Word, K: Keeper, R: PairingRule>(
    file: &[u8],
    log: &mut [Operation<W>],
    keeper: &mut K,
    rule: &R,
    partners: &mut [Option<u16>],
) -> Result<Verdict, FileFault>
    ensures outcome { let G = setting (R.PairingRule.pairs rule.now) W.Word.start in
        let items = file_items W.Word.decoded W.Word.WIDTH file.now in
        let before = K.Keeper.meaning keeper.old in
        let after = K.Keeper.meaning keeper.new in
        record { answer = answered result; log = log.new; keeper = after; partners = partners.new }
        ≡ examined W.Word.value G log.old before partners.old items }
    ensures exact { let G = setting (R.PairingRule.pairs rule.now) W.Word.start in
        Told (run_of W.Word.value G log.new (K.Keeper.meaning keeper.new)) result }
    ensures complete { let items = file_items W.Word.decoded W.Word.WIDTH file.now in
        let admitted = take (held (K.Keeper.meaning keeper.new)) log.new in
        held (K.Keeper.meaning keeper.old) ≡ 0 → Listed (operations_in items) admitted result }
{
    let mut exam = Open::new(keeper).map_err(|fault| Placed { offset: 0, fault })?;
    admit_file(file, &mut exam, log, keeper, rule, partners)?;
    Ok(exam.close())
}
