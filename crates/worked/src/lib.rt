// Worked records: small runs whose verdicts, order answers, pairings, partners and refusals are computed from the
// definitions that the contracts of the code use, and proved together.
#![tactic(auto)]

ghost use Rattle.std.specs.Prelude.{◌≡◌};
ghost use Rattle.worked.specs.Rows.{Rows};
ghost use Rattle.worked.specs.Records.{closed, record_b};
ghost use Rattle.examination.specs.Closing.{racy};

use examination::RacingPair;

// The pair that the racy record shows.
pub fn first_race() -> RacingPair
    ensures shown { closed 4 record_b ≡ racy 4 1 (result.partner, result.operation) }
    ensures rows { Rows }
{
    RacingPair {
        partner: 0,
        operation: 3,
    }
}
