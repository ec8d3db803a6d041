ghost use Rattle.std.specs.Prelude.{◌≡◌};
ghost use Rattle.std.specs.Option.{ok_or};
ghost use Rattle.record_file.specs.WordTypes.{word_type_of};
ghost use Rattle.record_file.specs.declared.fault.FileFault.TheVariants.{Header as UnfitHeader};

use crate::fault::FileFault;

// The type of the words in a record file; the number of each is its code.
#[derive(Clone, Copy, PartialEq, Eq, Debug)]
pub enum WordType {
    Count = 1,
    Edge = 2,
}

impl TryFrom<u8> for WordType {
    type Error = FileFault;

    ghost try_from_gives = { λ code r. r ≡ ok_or (word_type_of code) UnfitHeader };

    fn try_from(code: u8) -> Result<WordType, FileFault> {
        match code {
            1 => Ok(WordType::Count),
            2 => Ok(WordType::Edge),
            _ => Err(FileFault::Header),
        }
    }
}
