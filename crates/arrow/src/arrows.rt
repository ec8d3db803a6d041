ghost use Rattle.std.specs.Prelude.{◌≡◌, ℕ, ◌+◌, ◌*◌, ◌<◌, ◌≤◌, length, ◌==◌, slice_index, slice_set};
ghost use Rattle.keepers.specs.Meaning.{most_held, most_processors};
ghost use Rattle.keepers.specs.Adding.{Among};
ghost use Rattle.arrow.specs.Arrows.{stored, processor_of, giver_of, with_giver, arrows, Admitted, Clear};

use keepers::Extent;
use std::mem;

// What is stored for no giver: a lent number is a u16, and has no place for an Option.
const NO_GIVER: u16 = 65535;

// The number that is stored for a giver.
pub(crate) fn stored_giver(giver: Option<u16>) -> u16
    ensures { result ≡ stored giver }
{
    giver.unwrap_or(NO_GIVER)
}

// The two numbers of each operation that is held, lent to be read: its processor and its giver.
#[derive(Clone, Copy)]
pub(crate) struct Arrows<'a> {
    pub(crate) numbers: &'a [u16],
    pub(crate) extent: Extent,
    ghost few: { extent.processors ≤ most_processors },
    ghost fits: { extent.count ≤ most_held },
    ghost within: { 2 * extent.count ≤ length numbers.now },
    ghost admitted: { Admitted numbers.now extent.processors extent.count },
}

impl Arrows<'_> {
    fn processor(&self, operation: u16) -> u16
        requires { operation < self.now.extent.count }
        ensures value { result ≡ processor_of self.now.numbers.now operation }
        ensures few { result < most_processors }
    {
        self.numbers[2 * operation as usize]
    }

    fn giver(&self, operation: u16) -> Option<u16>
        requires { operation < self.now.extent.count }
        ensures { result ≡ giver_of self.now.numbers.now operation }
    {
        let number = self.numbers[2 * operation as usize + 1];
        (number < operation).then_some(number)
    }

    // Whether operation `a` is before the later operation `b`. It goes back from `b` to `a` once: an operation is
    // reached when it is marked as the giver of a reached one, or a later one of its processor is reached.
    pub(crate) fn is_before(&self, marks: &mut [u8], a: u16, b: u16) -> bool
        requires later { a < b }
        requires held { b < self.now.extent.count }
        requires marked { b < length marks.old }
        requires clear { Clear marks.old }
        ensures clear { Clear marks.new }
        ensures answer { let extent = self.now.extent in
            result ≡ (arrows self.now.numbers.now extent.processors extent.count extent.capacity).before a b }
    {
        let mut reached = [false; 16];
        marks[b as usize] = 1;
        for k in (a + 1..b + 1).rev() {
            let processor = self.processor(k) as usize;
            let marked = take_mark(marks, k);
            if marked || reached[processor] {
                reached[processor] = true;
                mark_giver(marks, a, self.giver(k));
            }
        }
        let marked = take_mark(marks, a);
        marked || reached[self.processor(a) as usize]
    }
}

// Marks a giver, if there is one and it is not below `a`. A mark is a lent byte, 1 or 0.
fn mark_giver(marks: &mut [u8], a: u16, giver: Option<u16>)
    requires { Among giver (length marks.old) }
    ensures { marks.new ≡ with_giver marks.old a giver }
{
    match giver {
        Some(number) if number >= a => marks[number as usize] = 1,
        _ => (),
    }
}

// Whether operation `k` is marked; its mark becomes 0.
fn take_mark(marks: &mut [u8], k: u16) -> bool
    requires { k < length marks.old }
    ensures answer { result ≡ (slice_index marks.old k == 1) }
    ensures after { marks.new ≡ slice_set marks.old k 0 }
{
    mem::replace(&mut marks[k as usize], 0) == 1
}
