ghost use Rattle.std.specs.Prelude.{◌≡◌, ℕ, ◌+◌, ◌<◌, ◌≤◌, true};
ghost use Rattle.keepers.specs.Meaning.{Meaning, held, most_held, most_processors};
ghost use Rattle.keepers.specs.Adding.{addition, after_addition, outcome};
ghost use Rattle.keepers.specs.Asking.{order};

use crate::KeeperFault;

// A keeper holds operations, numbered from 0, and knows which of them is before which. All that a caller
// may rely on is its meaning; how it stores the order is its own affair. Operations go by their numbers, and calls take
// plain parameters, since users write keepers and ask them by the numbers that they show.
pub trait Keeper {
    ghost meaning: { Self → Meaning };

    // Held operations and room together never exceed 4,096.
    ghost bounded: { (k : Self) → held (meaning k) + (meaning k).room ≤ most_held };

    // Only processors 0 to 15 are admitted.
    ghost numbered: { (k : Self) (p : ℕ) → (meaning k).admits p ≡ true → p < most_processors };

    fn admits(&self, processor: u8) -> bool
        ensures { result ≡ (meaning self.now).admits processor };

    fn count(&self) -> u16
        ensures { result ≡ held (meaning self.now) };

    fn room(&self) -> u16
        ensures { result ≡ (meaning self.now).room };

    // Adds an operation of a processor, with an arrow from the giver if there is one, and answers its number.
    fn add(&mut self, processor: u8, giver: Option<u16>) -> Result<u16, KeeperFault>
        ensures answer { result ≡ addition (meaning self.old) processor giver }
        ensures after { meaning self.new ≡ after_addition (meaning self.old) processor giver };

    // Is operation `a` before operation `b`?
    fn before(&mut self, a: u16, b: u16) -> Result<bool, KeeperFault>
        ensures answer { result ≡ order (meaning self.old) a b }
        ensures after { meaning self.new ≡ meaning self.old };

    // Whether an addition would be accepted, and else which check fails first.
    fn check_addition(&self, processor: u8, giver: Option<u16>) -> Result<(), KeeperFault>
        ensures { result ≡ outcome (addition (meaning self.now) processor giver) }
    {
        if !self.admits(processor) {
            return Err(KeeperFault::NotAdmitted);
        }
        if giver.is_some_and(|number| number >= self.count()) {
            return Err(KeeperFault::GiverNotHeld);
        }
        if self.room() == 0 {
            return Err(KeeperFault::NoRoom);
        }
        Ok(())
    }
}
