ghost use Rattle.std.specs.Prelude.{◌≡◌, ◌≤◌, length, IfOk};
ghost use Rattle.record_file.specs.Directory.{header_of, pair_place};

use crate::fault::FileFault;
use crate::pair::pair_place;
use crate::word_type::WordType;

// What stands before the pairs of the directory.
#[derive(Clone, Copy)]
pub(crate) struct Header {
    pub word_type: WordType,
    pub sections: u16,
}

impl Header {
    // The header of a file that is long enough for its directory.
    pub(crate) fn read(file: &[u8]) -> Result<Header, FileFault>
        ensures value { result ≡ header_of file.now }
        ensures room { IfOk result (λ h. pair_place h.sections ≤ length file.now) }
    {
        let [code, high, low, ..] = file else {
            return Err(FileFault::Header);
        };
        let word_type = WordType::try_from(*code)?;
        let sections = u16::from_be_bytes([*high, *low]);
        if pair_place(sections) > file.len() {
            return Err(FileFault::Header);
        }
        Ok(Header {
            word_type,
            sections,
        })
    }
}
