ghost use Rattle.std.specs.Prelude.{◌≡◌, ◌+◌, ◌-◌, ◌<◌, ◌≤◌, ⊤, MatchOption};
ghost use Rattle.std.specs.Iterator.{at_most};
ghost use Rattle.record_file.specs.Directory.{section_start, section_bytes};

use crate::directory::Directory;
use crate::section::Section;
use std::ops::Range;

// The sections of a directory that are left, in order.
#[derive(Drop)]
pub struct Sections<'a> {
    pub(crate) directory: Directory<'a>,
    pub(crate) numbers: Range<usize>,
    ghost to_the_last: { numbers.end ≡ directory.header.sections },
}

impl<'a> Iterator for Sections<'a> {
    type Item = Section<'a>;

    ghost can_next = { λ _. ⊤ };

    ghost next_gives = { λ s r t.
        let file = s.directory.file.now in
        let i = s.numbers.start in
        (t.directory ≡ s.directory)
        × MatchOption r
        ((s.directory.header.sections ≤ i) × (t.numbers ≡ s.numbers))
        (λ x. (i < s.directory.header.sections)
        × (t.numbers.start ≡ i + 1)
        × (x.offset ≡ section_start file i)
        × (x.bytes.now ≡ section_bytes file i)) };

    ghost remaining = { λ s. at_most (s.directory.header.sections - s.numbers.start) };

    fn next(&mut self) -> Option<Section<'a>> {
        let i = self.numbers.next()?;
        self.directory.section(i)
    }
}
