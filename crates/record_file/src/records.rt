ghost use Rattle.std.specs.Prelude.{◌≡◌};
ghost use Rattle.record_file.specs.Records.{record_size, record_of};

use crate::fault::FileFault;
use operations::{Kind, Operation};
use words::Word;

// The records of a section: its processor, where the section stands in the file, and the bytes after the
// processor's.
#[derive(Clone, Copy)]
pub struct Records<'a> {
    pub processor: u8,
    pub offset: usize,
    pub bytes: &'a [u8],
}

// A record of a processor, and where it stands in the file. A type of its own beside `Records`, which has the same
// parts, so that no call reads a whole section as one record.
#[derive(Clone, Copy)]
pub struct Record<'a> {
    pub processor: u8,
    pub offset: usize,
    pub bytes: &'a [u8],
}

// How many bytes a record takes.
pub fn record_bytes<W: Word>() -> usize
    ensures { result ≡ record_size W.Word.WIDTH }
{
    4 + W::WIDTH
}

impl Record<'_> {
    // The operation that the record stands for. Bytes that are not one record long are no record.
    pub fn operation<W: Word>(self) -> Result<Operation<W>, FileFault>
        ensures { let r = self.entry in
            result ≡ record_of W.Word.decoded W.Word.WIDTH r.processor r.bytes.now r.offset }
    {
        let [kind, class, high, low, word @ ..] = self.bytes else {
            return Err(FileFault::Section(self.offset));
        };
        let word = W::decode(word).ok_or(FileFault::Section(self.offset))?;
        let kind = Kind::try_from(*kind).map_err(|_| FileFault::Kind(self.offset))?;
        Ok(Operation {
            processor: self.processor,
            kind,
            class: *class,
            location: u16::from_be_bytes([*high, *low]),
            word,
        })
    }
}
