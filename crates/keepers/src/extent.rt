ghost use Rattle.std.specs.Prelude.{◌≡◌, ◌+◌, ◌-◌, ◌<◌, ◌≤◌, min, nat_lt};
ghost use Rattle.keepers.specs.Meaning.{most_held};
ghost use Rattle.keepers.specs.Extent.{next_number, next_count, question};

use crate::{KeeperFault, Processors};

// How far a keeper over lent memory reaches: how many processors it admits, how many operations it has places
// for, and how many of those it holds. It has no invariant; the keepers state them. A keeper holds a `&mut`, and with an
// invariant in a struct inside it the check would not cover a layer over the keeper, or an Option of it, where it is
// made.
#[derive(Clone, Copy, PartialEq, Eq, Debug)]
pub struct Extent {
    processors: u8,
    capacity: u16,
    count: u16,
}

impl Extent {
    // That of a keeper that holds nothing; it uses at most 4,096 of the places that it is lent.
    pub fn new(processors: Processors, places: usize) -> Extent
        ensures processors { result.processors ≡ processors.count }
        ensures capacity { result.capacity ≡ min most_held places }
        ensures empty { result.count ≡ 0 }
    {
        Extent {
            processors: processors.count(),
            capacity: places.min(4096) as u16,
            count: 0,
        }
    }

    pub fn processors(&self) -> u8
        ensures { result ≡ self.now.processors }
    {
        self.processors
    }

    pub fn count(&self) -> u16
        ensures { result ≡ self.now.count }
    {
        self.count
    }

    // How many operations more there are places for.
    pub fn room(&self) -> u16
        ensures { result ≡ self.now.capacity - self.now.count }
    {
        self.capacity.saturating_sub(self.count)
    }

    pub fn admits(&self, processor: u8) -> bool
        ensures { result ≡ nat_lt processor self.now.processors }
    {
        processor < self.processors
    }

    pub fn holds(&self, operation: u16) -> bool
        ensures { result ≡ nat_lt operation self.now.count }
    {
        operation < self.count
    }

    // Refuses an order question about an operation that is not held.
    pub fn check_question(&self, a: u16, b: u16) -> Result<(), KeeperFault>
        ensures { result ≡ question self.now.count a b }
    {
        if self.holds(a) && self.holds(b) {
            Ok(())
        } else {
            Err(KeeperFault::NotHeld)
        }
    }

    // Holds one operation more and answers its number; with no room it refuses, and stays as it was.
    pub fn grow(&mut self) -> Result<u16, KeeperFault>
        ensures answer { result ≡ next_number self.old.capacity self.old.count }
        ensures count { self.new.count ≡ next_count self.old.capacity self.old.count }
        ensures same { (self.new.processors ≡ self.old.processors) × (self.new.capacity ≡ self.old.capacity) }
    {
        if self.room() == 0 {
            return Err(KeeperFault::NoRoom);
        }
        let number = self.count;
        self.count = number + 1;
        Ok(number)
    }
}
