ghost use Rattle.std.specs.Prelude.{◌≡◌};
ghost use Rattle.examination.specs.Refusals.{exam_refusal};
ghost use Rattle.examination.specs.declared.fault.ExamFault.TheVariants.{Keeper as InExam};

use keepers::{Adds, KeeperFault, Refusal};

// Why an examination refuses; a keeper's fault travels inside.
#[derive(Clone, Copy, PartialEq, Eq, Debug)]
pub enum ExamFault {
    Keeper(KeeperFault),
    CountDiffers,
    RecordShort,
    ClassTooHigh,
    WordDiffers,
}

impl From<KeeperFault> for ExamFault {
    ghost from_gives = { λ k r. r ≡ InExam k };

    fn from(fault: KeeperFault) -> ExamFault {
        Self::Keeper(fault)
    }
}

impl From<ExamFault> for Refusal {
    ghost from_gives = { λ f r. r ≡ exam_refusal f };

    fn from(fault: ExamFault) -> Refusal {
        let number = match fault {
            ExamFault::Keeper(fault) => return Refusal::from(fault),
            ExamFault::CountDiffers => 6,
            ExamFault::RecordShort => 7,
            ExamFault::ClassTooHigh => 8,
            ExamFault::WordDiffers => 9,
        };
        Refusal {
            number,
            adds: Adds::ExaminationLayer,
        }
    }
}
