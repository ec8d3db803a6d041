ghost use Rattle.std.specs.Prelude.{◌≡◌, ◌+◌, ◌<◌, ◌≤◌, ◌^◌, length};
ghost use Rattle.words.specs.Bytes.{big32};
ghost use Rattle.record_file.specs.Directory.{pair_place, section_start, section_size, end_if_fit, first_unfit, pairs_checked};

use crate::fault::FileFault;

// The number of four bytes at a place in the file; a byte past the file's end counts as 0.
fn padded_number(file: &[u8], at: usize) -> u32
    requires { at < 2 ^ 32 }
    ensures { result ≡ big32 file.now at }
{
    let byte = |k: usize| file.get(k).copied().unwrap_or(0);
    u32::from_be_bytes([byte(at), byte(at + 1), byte(at + 2), byte(at + 3)])
}

// Where a section stands in the file.
#[derive(Clone, Copy)]
pub(crate) struct Pair {
    pub offset: u32,
    pub length: u32,
}

impl Pair {
    // The pair of section i. A byte past the file's end counts as 0.
    pub(crate) fn read(file: &[u8], i: u16) -> Pair
        ensures { (result.offset ≡ section_start file.now i) × (result.length ≡ section_size file.now i) }
    {
        let place = pair_place(i);
        if let Some([a, b, c, d, e, f, g, h]) = file.get(place..place + 8) {
            return Pair {
                offset: u32::from_be_bytes([*a, *b, *c, *d]),
                length: u32::from_be_bytes([*e, *f, *g, *h]),
            };
        }
        Pair {
            offset: padded_number(file, place),
            length: padded_number(file, place + 4),
        }
    }

    pub(crate) fn start(self) -> usize
        ensures { result ≡ self.offset }
    {
        self.offset as usize
    }

    // Where the section ends; that may need more than 32 bits.
    pub(crate) fn end(self) -> usize
        ensures { result ≡ self.offset + self.length }
    {
        self.offset as usize + self.length as usize
    }
}

// Where the pair of section i stands; the directory ends where one more pair would stand.
pub(crate) fn pair_place(i: u16) -> usize
    ensures { result ≡ pair_place i }
{
    3 + 8 * i as usize
}

// Where section i ends, if it starts at or after `from` and ends within the file.
fn fit_end(file: &[u8], i: u16, from: usize) -> Option<usize>
    ensures { result ≡ end_if_fit file.now i from }
{
    let pair = Pair::read(file, i);
    let fits = from <= pair.start() && pair.end() <= file.len();
    fits.then_some(pair.end())
}

// Checks that each section starts at or after the end of what is before it, and ends within the file.
#[tactic(auto, using(crate::proofs::Walk::unfit_next, crate::proofs::Walk::unfit_here))]
pub(crate) fn check_pairs(file: &[u8], sections: u16) -> Result<(), FileFault>
    requires { pair_place sections ≤ length file.now }
    ensures { result ≡ pairs_checked (first_unfit file.now sections 0 (pair_place sections)) }
{
    let mut from = pair_place(sections);
    for i in 0..sections {
        from = fit_end(file, i, from).ok_or(FileFault::Pair(pair_place(i)))?;
    }
    Ok(())
}
