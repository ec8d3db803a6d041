ghost use Rattle.std.specs.Prelude.{◌≡◌};
ghost use Rattle.record_file.specs.Refusals.{file_refusal};
ghost use Rattle.record_file.specs.declared.fault.FileFault.TheVariants.{Record as InFile};

use crate::placed::Placed;
use keepers::{Adds, Refusal};

// Why a record file is refused; all but the header's fault say where in the file it stands.
#[derive(Clone, Copy, PartialEq, Eq, Debug)]
pub enum FileFault {
    // The header or the word type is unfit, or the directory goes past the file's end.
    Header,
    // The pair there names a section that does not fit.
    Pair(usize),
    // The section there is not its processor's byte and whole records.
    Section(usize),
    // The record there has a kind over 5.
    Kind(usize),
    // The operation of the record there was not admitted.
    Record(Placed),
}

impl From<Placed> for FileFault {
    ghost from_gives = { λ p r. r ≡ InFile p };

    fn from(placed: Placed) -> FileFault {
        Self::Record(placed)
    }
}

impl From<FileFault> for Refusal {
    ghost from_gives = { λ f r. r ≡ file_refusal f };

    fn from(fault: FileFault) -> Refusal {
        let (number, offset) = match fault {
            FileFault::Header => (17, 0),
            FileFault::Pair(offset) => (17, offset),
            FileFault::Section(offset) => (18, offset),
            FileFault::Kind(offset) => (19, offset),
            FileFault::Record(placed) => (Refusal::from(placed.fault).number, placed.offset),
        };
        Refusal {
            number,
            adds: Adds::Offset(offset),
        }
    }
}
