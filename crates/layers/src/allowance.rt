ghost use Rattle.std.specs.Prelude.{◌≡◌};
ghost use Rattle.layers.specs.Layers.{allowed, allowed_bounded};

use keepers::{Keeper, KeeperFault};

// An allowance: a keeper that accepts at most `left` more operations.
#[derive(Drop)]
pub struct Allowance<K> {
    left: usize,
    below: K,
}

impl<K> Allowance<K> {
    pub fn new(left: usize, below: K) -> Allowance<K>
        ensures { (result.left ≡ left) × (result.below ≡ below) }
    {
        Allowance { left, below }
    }
}

impl<K: Keeper> Keeper for Allowance<K> {
    ghost meaning = { λ s. allowed s.left (K.Keeper.meaning s.below) };

    ghost bounded = { λ s. allowed_bounded s.left (K.Keeper.meaning s.below) (K.Keeper.bounded s.below) };

    ghost numbered = { λ s. K.Keeper.numbered s.below };

    fn admits(&self, processor: u8) -> bool {
        self.below.admits(processor)
    }

    // Passed on, as `before` is, and both in the other layer too: a trait that does it for both would be no shorter.
    fn count(&self) -> u16 {
        self.below.count()
    }

    fn room(&self) -> u16 {
        self.left.min(self.below.room() as usize) as u16
    }

    fn add(&mut self, processor: u8, giver: Option<u16>) -> Result<u16, KeeperFault> {
        self.check_addition(processor, giver)?;
        let number = self.below.add(processor, giver)?;
        self.left -= 1;
        Ok(number)
    }

    fn before(&mut self, a: u16, b: u16) -> Result<bool, KeeperFault> {
        self.below.before(a, b)
    }
}
