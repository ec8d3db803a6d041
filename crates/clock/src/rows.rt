ghost use Rattle.std.specs.Prelude.{◌≡◌, ℕ, ◌+◌, ◌*◌, ◌<◌, ◌≤◌, length, slice_index, slice_range};
ghost use Rattle.keepers.specs.Meaning.{most_held};
ghost use Rattle.keepers.specs.Adding.{latest_of, Among};
ghost use Rattle.clock.specs.Rows.{Sound, processor_of, count_of, count_from, new_count, counts};

use keepers::Extent;

// The rows of the operations that are held, lent to be read. Operation k has row k of one number more than
// there are processors: its processor, and then for each processor how many of its operations are before
// operation k or are operation k.
#[derive(Clone, Copy)]
pub(crate) struct Rows<'a> {
    pub(crate) numbers: &'a [u16],
    pub(crate) extent: Extent,
    ghost within: { extent.count * (extent.processors + 1) ≤ length numbers.now },
    ghost sound: { Sound numbers.now extent.processors extent.count },
}

// How many numbers a row has.
pub(crate) fn width(processors: u8) -> usize
    ensures { result ≡ processors + 1 }
{
    processors as usize + 1
}

// Four calls ask that an operation is held: a type for one row would ask it once, and say again what its numbers mean.
impl Rows<'_> {
    fn row(&self, operation: u16) -> &[u16]
        requires { operation < self.now.extent.count }
        ensures { let width = self.now.extent.processors + 1 in
            result.now ≡ slice_range self.now.numbers.now (operation * width) (operation * width + width) }
    {
        let width = width(self.extent.processors());
        let start = operation as usize * width;
        &self.numbers[start..start + width]
    }

    fn processor_of(&self, operation: u16) -> u16
        requires { operation < self.now.extent.count }
        ensures { result ≡ processor_of self.now.numbers.now self.now.extent.processors operation }
    {
        self.row(operation)[0]
    }

    // How many operations of a processor are before an operation or are it.
    fn count_of(&self, operation: u16, processor: u16) -> u16
        requires held { operation < self.now.extent.count }
        requires admitted { processor < self.now.extent.processors }
        ensures { result ≡ count_of self.now.numbers.now self.now.extent.processors operation processor }
    {
        self.row(operation)[processor as usize + 1]
    }

    // What an operation, if there is one, counts of a processor.
    fn count_from(&self, operation: Option<u16>, processor: u8) -> u16
        requires among { Among operation self.now.extent.count }
        requires admitted { processor < self.now.extent.processors }
        ensures { result ≡ count_from self.now.numbers.now self.now.extent.processors operation processor }
    {
        let count = |k| self.count_of(k, processor as u16);
        operation.map_or(0, count)
    }

    // The latest operation of a processor.
    fn latest(&self, processor: u8) -> Option<u16>
        ensures { let processors = self.now.extent.processors in
            result ≡ latest_of (processor_of self.now.numbers.now processors) processor self.now.extent.count }
    {
        (0..self.extent.count()).rfind(|k| self.processor_of(*k) == processor as u16)
    }

    // Whether operation `a` is before operation `b`, both held.
    pub(crate) fn is_before(&self, a: u16, b: u16) -> bool
        requires first { a < self.now.extent.count }
        requires second { b < self.now.extent.count }
        ensures { result ≡ counts self.now.numbers.now self.now.extent.processors a b }
    {
        let own = self.processor_of(a);
        a != b && self.count_of(a, own) <= self.count_of(b, own)
    }

    // Writes the row of a next operation into the first of the free numbers.
    pub(crate) fn write_next(&self, free: &mut [u16], processor: u8, giver: Option<u16>)
        requires few { self.now.extent.count < most_held }
        requires room { self.now.extent.processors + 1 ≤ length free.old }
        requires giver { Among giver self.now.extent.count }
        ensures named { slice_index free.new 0 ≡ processor }
        ensures counted { let numbers = self.now.numbers.now in
            let processors = self.now.extent.processors in
            let latest = latest_of (processor_of numbers processors) processor self.now.extent.count in
            (q : ℕ) → q < processors → slice_index free.new (q + 1) ≡ new_count numbers processors processor latest giver q }
    {
        let latest = self.latest(processor);
        free[0] = processor as u16;
        // By number and not by `zip` over the places: the place of a count is its processor's.
        for q in 0..self.extent.processors() {
            let first = self.count_from(latest, q);
            let second = self.count_from(giver, q);
            let most = first.max(second);
            free[q as usize + 1] = if q == processor { most + 1 } else { most };
        }
    }
}
