ghost use Rattle.std.specs.Prelude.{◌≡◌};
ghost use Rattle.layers.specs.Layers.{renumbered, renumbered_bounded, renumbered_numbered};

use crate::list::RenumberList;
use keepers::{Keeper, KeeperFault};

// A keeper under other processor numbers: outer processor p is entry p of the list below.
#[derive(Drop)]
pub struct Renumber<K> {
    list: RenumberList,
    below: K,
}

impl<K> Renumber<K> {
    pub fn new(list: RenumberList, below: K) -> Renumber<K>
        ensures { (result.list ≡ list) × (result.below ≡ below) }
    {
        Renumber { list, below }
    }
}

impl<K: Keeper> Keeper for Renumber<K> {
    ghost meaning = { λ s. renumbered s.list.entries (K.Keeper.meaning s.below) };

    ghost bounded = { λ s. renumbered_bounded s.list.entries (K.Keeper.meaning s.below) (K.Keeper.bounded s.below) };

    ghost numbered = { λ s. renumbered_numbered s.list.entries (K.Keeper.meaning s.below) };

    fn admits(&self, processor: u8) -> bool {
        self.list
            .entry(processor)
            .is_some_and(|inner| self.below.admits(inner))
    }

    // Passed on, as in the allowance.
    fn count(&self) -> u16 {
        self.below.count()
    }

    fn room(&self) -> u16 {
        self.below.room()
    }

    #[tactic(auto, using(crate::proofs::Renaming::after_same, crate::proofs::Renaming::entry_is))]
    fn add(&mut self, processor: u8, giver: Option<u16>) -> Result<u16, KeeperFault> {
        let inner = self.list.entry(processor).ok_or(KeeperFault::NotAdmitted)?;
        self.below.add(inner, giver)
    }

    fn before(&mut self, a: u16, b: u16) -> Result<bool, KeeperFault> {
        self.below.before(a, b)
    }
}
