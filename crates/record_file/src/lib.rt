// The record file: a directory of sections, and in each section the operations of one processor.
//
// Byte 0 is the word type, bytes 1 and 2 the number of sections. A pair of offset and length follows for each
// section, 4 bytes each, sorted by offset. All numbers have their highest byte first. A section begins with
// its processor's byte; its records follow, each a kind (1 byte), a class (1), a location (2) and a word.
#![tactic(auto)]

mod directory;
mod fault;
mod header;
mod pair;
mod placed;
mod records;
mod section;
mod sections;
mod word_type;

pub use directory::Directory;
pub use fault::FileFault;
pub use placed::Placed;
pub use records::{Record, Records, record_bytes};
pub use section::Section;
pub use sections::Sections;
pub use word_type::WordType;
