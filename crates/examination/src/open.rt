ghost use Rattle.std.specs.Prelude.{◌≡◌, ◌≤◌, is_some, nat_lt};
ghost use Rattle.keepers.specs.Meaning.{most_held};
ghost use Rattle.examination.specs.Races.{racing, first_race};

use crate::order::Examination;
use crate::races::Races;

// An examination that is open: plain numbers, which only opening makes and only admission changes.
#[derive(Drop)]
pub struct Open {
    pub(crate) admitted: u16,
    pub(crate) races: Option<Races>,
    ghost few: { admitted ≤ most_held },
    ghost fewer: { racing races ≤ admitted },
    ghost shown: { is_some (first_race races) ≡ nat_lt 0 (racing races) },
}

impl Examination for Open {
    ghost size = { λ e. e.admitted };

    fn admitted(&self) -> u16 {
        self.admitted
    }
}
