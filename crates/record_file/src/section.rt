ghost use Rattle.std.specs.Prelude.{◌≡◌, true, false, drop, MatchResult, slice_index};
ghost use Rattle.record_file.specs.Records.{whole};

use crate::fault::FileFault;
use crate::records::{Records, record_bytes};
use words::Word;

// A section of a record file, and where it stands there.
#[derive(Clone, Copy)]
pub struct Section<'a> {
    pub offset: usize,
    pub bytes: &'a [u8],
}

impl<'a> Section<'a> {
    // Takes the section apart, if it is a processor's byte and whole records.
    pub fn records<W: Word>(self) -> Result<Records<'a>, FileFault>
        ensures { let bytes = self.entry.bytes.now in
            let offset = self.entry.offset in
            let fit = whole W.Word.WIDTH bytes in
            MatchResult result
            (λ r. (fit ≡ true)
            × (r.processor ≡ slice_index bytes 0)
            × (r.offset ≡ offset)
            × (r.bytes.now ≡ drop 1 bytes))
            (λ f. (fit ≡ false) × (f ≡ FileFault.Section offset)) }
    {
        let unfit = FileFault::Section(self.offset);
        let [processor, bytes @ ..] = self.bytes else {
            return Err(unfit);
        };
        if bytes.len() % record_bytes::<W>() != 0 {
            return Err(unfit);
        }
        Ok(Records {
            processor: *processor,
            offset: self.offset,
            bytes,
        })
    }
}
