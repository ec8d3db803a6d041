ghost use Rattle.std.specs.Prelude.{◌≡◌, ℕ, ◌<◌, ◌≤◌, IfOk, Ok, Err, MatchOption, MatchResult};
ghost use Rattle.record_file.specs.Directory.{directory_of, section_start, section_bytes, Placed};

use crate::fault::FileFault;
use crate::header::Header;
use crate::pair::{Pair, check_pairs};
use crate::section::Section;
use crate::sections::Sections;
use crate::word_type::WordType;

// A file whose directory was checked.
#[derive(Clone, Copy)]
pub struct Directory<'a> {
    file: &'a [u8],
    header: Header,
}

impl<'a> Directory<'a> {
    // Checks the whole directory: each section starts at or after the end of the directory and of the section
    // before it, and ends within the file.
    #[tactic(auto, using(crate::proofs::Fitting::all_placed, crate::proofs::Fitting::directory_parts))]
    pub fn new(file: &'a [u8]) -> Result<Directory<'a>, FileFault>
        ensures value { let found = directory_of file.now in
            MatchResult result
            (λ d. (found ≡ Ok d.header) × (d.file.now ≡ file.now))
            (λ f. found ≡ Err f) }
        ensures placed { IfOk result (λ d. let n = d.header.sections in
            (i : ℕ) → i < n → Placed file.now n i) }
    {
        let header = Header::read(file)?;
        check_pairs(file, header.sections)?;
        Ok(Directory { file, header })
    }

    pub fn word_type(&self) -> WordType
        ensures { result ≡ self.now.header.word_type }
    {
        self.header.word_type
    }

    pub fn sections(&self) -> usize
        ensures { result ≡ self.now.header.sections }
    {
        self.header.sections as usize
    }

    pub fn iter(&self) -> Sections<'a>
        ensures { (result.directory ≡ self.now) × (result.numbers.start ≡ 0) }
    {
        Sections {
            directory: *self,
            numbers: 0..self.sections(),
        }
    }

    // Section i; none from the number of sections on. The pair and the bytes of an earlier one are within the file,
    // since the directory was checked, so the file's end cuts nothing off.
    pub fn section(&self, i: usize) -> Option<Section<'a>>
        ensures { let file = self.now.file.now in
            let n = self.now.header.sections in
            MatchOption result
            (n ≤ i)
            (λ s. (i < n)
            × (s.offset ≡ section_start file i)
            × (s.bytes.now ≡ section_bytes file i)) }
    {
        let sections = self.header.sections;
        if i >= sections as usize {
            return None;
        }
        let pair = Pair::read(self.file, i as u16);
        let bytes = match self.file.get(pair.start()..pair.end()) {
            Some(bytes) => bytes,
            None => self.file.get(pair.start()..).unwrap_or(&[]),
        };
        Some(Section {
            offset: pair.start(),
            bytes,
        })
    }
}
