ghost use Rattle.std.specs.Prelude.{◌≡◌};

use crate::order::Examination;
use crate::races::{Races, RacingPair};

// An examination that was closed with a data race: plain numbers, which only closing can make.
#[derive(Drop)]
pub struct Racy {
    pub(crate) admitted: u16,
    pub(crate) races: Races,
}

impl Examination for Racy {
    ghost size = { λ e. e.admitted };

    fn admitted(&self) -> u16 {
        self.admitted
    }
}

impl Racy {
    // How many operations have a racing partner.
    pub fn racing(&self) -> u16
        ensures { result ≡ self.now.races.count }
    {
        self.races.count
    }

    // The first operation that has a racing partner, with that partner.
    pub fn first(&self) -> RacingPair
        ensures { result ≡ self.now.races.first }
    {
        self.races.first
    }
}
