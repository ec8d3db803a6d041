ghost use Rattle.std.specs.Prelude.{◌≡◌, ◌<◌, ◌≤◌, Ok, Err, MatchResult};
ghost use Rattle.keepers.specs.Meaning.{most_processors};
ghost use Rattle.keepers.specs.Made.{processor_count};

use crate::KeeperFault;

// How many processors a keeper is made for, from 1 to 16.
#[derive(Clone, Copy, PartialEq, Eq, Debug)]
pub struct Processors {
    count: u8,
    ghost some: { 0 < count },
    ghost few: { count ≤ most_processors },
}

impl Processors {
    // A checked constructor, as std's `NonZeroU8::new`: a `TryFrom` would read no plainer.
    pub fn new(count: u8) -> Result<Processors, KeeperFault>
        ensures { MatchResult result (λ p. processor_count count ≡ Ok p.count) (λ f. processor_count count ≡ Err f) }
    {
        if count == 0 || count > 16 {
            return Err(KeeperFault::Unfit);
        }
        Ok(Processors { count })
    }

    pub fn count(self) -> u8
        ensures value { result ≡ self.count }
        ensures range { (0 < result) × (result ≤ most_processors) }
    {
        self.count
    }
}
