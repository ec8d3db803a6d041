ghost use Rattle.std.specs.Prelude.{◌≡◌, ℕ, ◌<◌, ◌≤◌, length, MatchResult, IsTrue, ◌↔◌};
ghost use Rattle.std.specs.List.{range_with_len};
ghost use Rattle.layers.specs.Renumbering.{times, Once, entry_of};

use keepers::KeeperFault;

// A renumber list: entry p is the number by which the keeper below knows the processor that is p outside.
// Each of 0 to 15 stands in it once.
#[derive(Clone, Copy)]
pub struct RenumberList {
    entries: [u8; 16],
    ghost full: { length entries ≡ 16 },
    ghost once: { Once entries },
}

impl RenumberList {
    // 0 to 15 in order. No `Default`: which order that is would not be read from its name.
    #[tactic(auto, unfolding(crate::specs::Renumbering::times))]
    pub fn new() -> RenumberList
        ensures { result.entries ≡ range_with_len 0 16 }
    {
        RenumberList {
            entries: [0, 1, 2, 3, 4, 5, 6, 7, 8, 9, 10, 11, 12, 13, 14, 15],
        }
    }

    // Sets the whole list, or refuses and leaves it as it was.
    pub fn set(&mut self, entries: [u8; 16]) -> Result<(), KeeperFault>
        ensures { MatchResult result (λ _. self.new.entries ≡ entries)
            (λ f. (f ≡ KeeperFault.Unfit) × (Once entries → ⊥) × (self.new.entries ≡ self.old.entries)) }
    {
        if !each_once(&entries) {
            return Err(KeeperFault::Unfit);
        }
        *self = RenumberList { entries };
        Ok(())
    }

    // The number below of the processor that is `p` outside; none from 16 on.
    pub fn entry(&self, p: u8) -> Option<u8>
        ensures { result ≡ entry_of self.now.entries p }
    {
        self.entries.get(p as usize).copied()
    }
}

// Does each of 0 to 15 stand once among the entries?
fn each_once(entries: &[u8]) -> bool
    ensures { IsTrue result ↔ Once entries.now }
{
    (0..16).all(|p| occurrences(entries, p) == 1)
}

// How often `p` stands among the entries.
#[tactic(auto, unfolding(crate::specs::Renumbering::times))]
fn occurrences(entries: &[u8], p: u8) -> usize
    ensures { result ≡ times p entries.now }
{
    entries.iter().filter(|x| **x == p).count()
}
