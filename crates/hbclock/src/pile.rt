ghost use Rattle.std.specs.Prelude.{◌≡◌, take};
ghost use Rattle.examination.specs.Admission.{setting};
ghost use Rattle.hbclock.specs.Pile.{mirrored, pile_over, listed, run_listed};
ghost use Rattle.keepers.specs.Meaning.{held};
ghost use Rattle.operations.specs.Rules.{step_pairs};
ghost use Rattle.reader.specs.Examining.{answered, examined, Told, operations_in, Listed};
ghost use Rattle.record_file.specs.Records.{file_items};

use examination::Verdict;
use keepers::Keeper;
use layers::{Allowance, Renumber, RenumberList};
use operations::{Operation, StepRule};
use reader::examine;
use record_file::FileFault;
use words::Word;

// Entry p is 15 - p.
#[tactic(auto, using(crate::proofs::Mirroring::mirrored_once))]
fn mirrored_list() -> RenumberList
    ensures { result.entries ≡ mirrored }
{
    let mut list = RenumberList::new();
    let Ok(()) = list.set([15, 14, 13, 12, 11, 10, 9, 8, 7, 6, 5, 4, 3, 2, 1, 0]) else {
        return unreachable();
    };
    list
}

// What an examination found, and how many operations it admitted.
#[derive(Drop)]
pub struct Finding {
    pub verdict: Result<Verdict, FileFault>,
    pub admitted: u16,
}

// Examines a file under the step rule, over the program's layers on a keeper.
pub fn find<W: Word, K: Keeper + Drop>(
    file: &[u8],
    log: &mut [Operation<W>],
    partners: &mut [Option<u16>],
    keeper: K,
) -> Finding
    ensures outcome { let G = setting step_pairs W.Word.start in
        let pile = pile_over (K.Keeper.meaning keeper) in
        let items = file_items W.Word.decoded W.Word.WIDTH file.now in
        record { answer = answered result.verdict; admitted = result.admitted; log = log.new; partners = partners.new }
        ≡ listed (examined W.Word.value G log.old pile partners.old items) }
    ensures exact { Told (run_listed W.Word.value log.new result.admitted) result.verdict }
    ensures complete { let items = file_items W.Word.decoded W.Word.WIDTH file.now in
        held (K.Keeper.meaning keeper) ≡ 0 → Listed (operations_in items) (take result.admitted log.new) result.verdict }
{
    let mut pile = Renumber::new(mirrored_list(), Allowance::new(512, keeper));
    let verdict = examine(file, log, &mut pile, &StepRule, partners);
    let admitted = pile.count();
    Finding { verdict, admitted }
}
