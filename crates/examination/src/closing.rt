ghost use Rattle.std.specs.Prelude.{◌≡◌};
ghost use Rattle.examination.specs.Admission.{tally};
ghost use Rattle.examination.specs.Closing.{closing, said};
ghost use Rattle.examination.specs.Runs.{VerdictExact};

use crate::open::Open;
use crate::race_free::RaceFree;
use crate::racy::Racy;

// What closing says of a run.
#[derive(Drop)]
pub enum Verdict {
    RaceFree(RaceFree),
    Racy(Racy),
}

impl Open {
    // Ends the examination; it refuses nothing.
    pub fn close(self) -> Verdict
        ensures verdict { said result ≡ closing (tally self) }
        ensures exact { VerdictExact (tally self) (said result) }
    {
        let Open { admitted, races } = self;
        match races {
            None => Verdict::RaceFree(RaceFree { admitted }),
            Some(races) => Verdict::Racy(Racy { admitted, races }),
        }
    }
}
