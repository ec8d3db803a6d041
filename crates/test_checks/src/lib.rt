// What a test finds: the test fails where a condition does not hold or two values differ. A helper of a test hands the
// failure on by `?`, and so needs no handle that may end the process.
#![tactic(auto)]

ghost use Rattle.std.specs.Prelude.{◌≡◌, true, false, MatchResult};

use std::fmt::Debug;
use std::test::Fail;

// Answers a failure exactly where the condition does not hold.
pub fn check(holds: bool) -> Result<(), Fail>
    ensures { MatchResult result (λ _. holds ≡ true) (λ _. holds ≡ false) }
{
    if holds {
        Ok(())
    } else {
        Err(Fail::new("a condition does not hold"))
    }
}

// Answers a failure exactly where the two differ.
pub fn check_eq<T: PartialEq + Debug + Drop>(found: T, expected: T) -> Result<(), Fail>
    ensures { let same = T.PartialEq.eq found expected in
        MatchResult result (λ _. same ≡ true) (λ _. same ≡ false) }
{
    if found == expected {
        Ok(())
    } else {
        Err(Fail::new(format_args!("found {found:?}, expected {expected:?}")))
    }
}
