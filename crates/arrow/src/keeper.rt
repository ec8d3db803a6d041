ghost use Rattle.std.specs.Prelude.{◌≡◌, ◌*◌, ◌<◌, ◌≤◌, length};
ghost use Rattle.keepers.specs.Meaning.{empty, most_held, most_processors};
ghost use Rattle.arrow.specs.Bounds.{arrows_bounded, arrows_numbered};
ghost use Rattle.arrow.specs.Arrows.{Admitted, Clear, arrows, arrow_room};

use crate::arrows::{self, Arrows};
use keepers::{Extent, Keeper, KeeperFault, Processors};

// A keeper over lent numbers and lent marks. Operation k has two numbers: its processor and its giver. The marks
// are of use only while an order question is answered, and are 0 before and after. They stand beside the numbers and
// operations go by number, since both are lent as plain numbers and bytes.
#[derive(Drop)]
pub struct ArrowKeeper<'n, 'm> {
    numbers: &'n mut [u16],
    marks: &'m mut [u8],
    extent: Extent,
    ghost some: { 0 < extent.processors },
    ghost few: { extent.processors ≤ most_processors },
    ghost fits: { extent.capacity ≤ most_held },
    ghost filled: { extent.count ≤ extent.capacity },
    ghost within: { 2 * extent.capacity ≤ length numbers.now },
    ghost marked: { extent.capacity ≤ length marks.now },
    ghost admitted: { Admitted numbers.now extent.processors extent.count },
    ghost clear: { Clear marks.now },
}

impl<'n, 'm> ArrowKeeper<'n, 'm> {
    // An empty keeper, with room for as many operations as there are lent marks and pairs of lent numbers, and at
    // most 4,096. All the lent marks become 0.
    pub fn new(
        processors: Processors,
        numbers: &'n mut [u16],
        marks: &'m mut [u8],
    ) -> ArrowKeeper<'n, 'm>
        ensures made { let extent = result.extent in
            arrows result.numbers.now extent.processors extent.count extent.capacity
            ≡ empty processors.count (arrow_room (length numbers.old) (length marks.old)) }
        ensures kept { result.numbers.now ≡ numbers.old }
        ensures cleared { Clear result.marks.now }
    {
        marks.fill(0);
        let pairs = numbers.len() / 2;
        let places = pairs.min(marks.len());
        ArrowKeeper {
            numbers,
            marks,
            extent: Extent::new(processors, places),
        }
    }
}

impl Keeper for ArrowKeeper<'_, '_> {
    ghost meaning = { λ s. arrows s.numbers.now s.extent.processors s.extent.count s.extent.capacity };

    ghost bounded = { λ s. arrows_bounded s.numbers.now s.extent.processors s.extent.count s.extent.capacity
        s.filled s.fits };

    ghost numbered = { λ s. arrows_numbered s.numbers.now s.extent.processors s.extent.count s.extent.capacity
        s.few };

    #[tactic(auto, using(crate::specs::Bounds::arrows_admits))]
    fn admits(&self, processor: u8) -> bool {
        self.extent.admits(processor)
    }

    #[tactic(auto, using(crate::specs::Bounds::arrows_held))]
    fn count(&self) -> u16 {
        self.extent.count()
    }

    #[tactic(auto, using(crate::specs::Bounds::arrows_room))]
    fn room(&self) -> u16 {
        self.extent.room()
    }

    fn add(&mut self, processor: u8, giver: Option<u16>) -> Result<u16, KeeperFault> {
        self.check_addition(processor, giver)?;
        let place = 2 * self.extent.count() as usize;
        self.numbers[place] = processor as u16;
        self.numbers[place + 1] = arrows::stored_giver(giver);
        self.extent.grow()
    }

    #[tactic(auto, using(keepers::proofs::Extents::question_refused, keepers::proofs::Extents::question_answered, crate::proofs::Meanings::arrows_spans, crate::proofs::Walks::forward))]
    fn before(&mut self, a: u16, b: u16) -> Result<bool, KeeperFault> {
        self.extent.check_question(a, b)?;
        // Lent out as a whole: of a loan of the field itself the check keeps only the length.
        let numbers = &mut *self.numbers;
        let arrows = Arrows {
            numbers,
            extent: self.extent,
        };
        Ok(a < b && arrows.is_before(self.marks, a, b))
    }
}
