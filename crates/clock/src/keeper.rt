ghost use Rattle.std.specs.Prelude.{◌≡◌, ◌+◌, ◌*◌, ◌<◌, ◌≤◌, length};
ghost use Rattle.keepers.specs.Meaning.{empty, most_held, most_processors};
ghost use Rattle.clock.specs.Bounds.{clock_bounded, clock_numbered};
ghost use Rattle.clock.specs.Rows.{Sound, clock, clock_room};

use crate::rows::{self, Rows};
use keepers::{Extent, Keeper, KeeperFault, Processors};

// A keeper over lent numbers, which stand in rows, one for each operation.
#[derive(Drop)]
pub struct ClockKeeper<'a> {
    numbers: &'a mut [u16],
    extent: Extent,
    ghost some: { 0 < extent.processors },
    ghost few: { extent.processors ≤ most_processors },
    ghost fits: { extent.capacity ≤ most_held },
    ghost filled: { extent.count ≤ extent.capacity },
    ghost within: { extent.capacity * (extent.processors + 1) ≤ length numbers.now },
    ghost sound: { Sound numbers.now extent.processors extent.count },
}

impl<'a> ClockKeeper<'a> {
    // An empty keeper, with room for as many operations as the lent numbers have rows, and at most 4,096.
    pub fn new(processors: Processors, numbers: &'a mut [u16]) -> ClockKeeper<'a>
        ensures made { let extent = result.extent in
            clock result.numbers.now extent.processors extent.count extent.capacity
            ≡ empty processors.count (clock_room processors.count (length numbers.old)) }
        ensures kept { result.numbers.now ≡ numbers.old }
    {
        let places = numbers.len() / rows::width(processors.count());
        ClockKeeper {
            numbers,
            extent: Extent::new(processors, places),
        }
    }
}

impl ClockKeeper<'_> {
    fn rows(&self) -> Rows<'_>
        ensures { (result.numbers.now ≡ self.now.numbers.now) × (result.extent ≡ self.now.extent) }
    {
        Rows {
            numbers: self.numbers,
            extent: self.extent,
        }
    }
}

impl Keeper for ClockKeeper<'_> {
    ghost meaning = { λ s. clock s.numbers.now s.extent.processors s.extent.count s.extent.capacity };

    ghost bounded = { λ s. clock_bounded s.numbers.now s.extent.processors s.extent.count s.extent.capacity
        s.filled s.fits };

    ghost numbered = { λ s. clock_numbered s.numbers.now s.extent.processors s.extent.count s.extent.capacity
        s.few };

    fn admits(&self, processor: u8) -> bool {
        self.extent.admits(processor)
    }

    fn count(&self) -> u16 {
        self.extent.count()
    }

    fn room(&self) -> u16 {
        self.extent.room()
    }

    fn add(&mut self, processor: u8, giver: Option<u16>) -> Result<u16, KeeperFault> {
        self.check_addition(processor, giver)?;
        let extent = self.extent;
        let used = extent.count() as usize * rows::width(extent.processors());
        // Lent out as a whole: of a loan of the field itself the check keeps only the length.
        let numbers = &mut *self.numbers;
        let (held, free) = numbers.split_at_mut(used);
        let rows = Rows {
            numbers: held,
            extent,
        };
        rows.write_next(free, processor, giver);
        self.extent.grow()
    }

    fn before(&mut self, a: u16, b: u16) -> Result<bool, KeeperFault> {
        self.extent.check_question(a, b)?;
        Ok(self.rows().is_before(a, b))
    }
}
