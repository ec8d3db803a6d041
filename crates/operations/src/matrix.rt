ghost use Rattle.std.specs.Prelude.{◌≡◌, slice_index};
ghost use Rattle.operations.specs.Rules.{matrix_pairs};

use crate::rule::PairingRule;

// The matrix rule, over lent rows: bit d of row c, counted from the lowest, says whether a release of class c is
// paired with an acquire of class d. A missing row reads as 0, and rows past the sixteenth are not read.
#[derive(Clone, Copy)]
pub struct MatrixRule<'a> {
    rows: &'a [u16],
}

impl<'a> MatrixRule<'a> {
    pub fn new(rows: &'a [u16]) -> MatrixRule<'a>
        ensures { result.rows.now ≡ rows.now }
    {
        MatrixRule { rows }
    }

    fn row(&self, class: u8) -> u16
        ensures { result ≡ slice_index self.now.rows.now class }
    {
        self.rows.get(class as usize).copied().unwrap_or(0)
    }
}

impl PairingRule for MatrixRule<'_> {
    ghost pairs = { λ s. matrix_pairs s.rows.now };

    fn paired(&self, release: u8, acquire: u8) -> bool {
        if release >= 16 || acquire >= 16 {
            return false;
        }
        (self.row(release) >> acquire) % 2 == 1
    }
}
