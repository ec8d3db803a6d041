ghost use Rattle.std.specs.Prelude.{◌≡◌};
ghost use Rattle.keepers.specs.Refusals.{keeper_refusal};

use crate::refusal::{Adds, Refusal};

// Why a keeper refuses; a pile of layers refuses as one keeper.
#[derive(Clone, Copy, PartialEq, Eq, Debug)]
pub enum KeeperFault {
    Unfit = 1,
    NotAdmitted = 2,
    GiverNotHeld = 3,
    NoRoom = 4,
    NotHeld = 5,
}

impl From<KeeperFault> for Refusal {
    ghost from_gives = { λ f r. r ≡ keeper_refusal f };

    fn from(fault: KeeperFault) -> Refusal {
        Refusal {
            number: fault as u8,
            adds: Adds::KeeperLayer,
        }
    }
}
