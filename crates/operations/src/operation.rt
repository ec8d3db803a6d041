ghost use Rattle.std.specs.Prelude.{◌≡◌};
ghost use Rattle.operations.specs.Events.{event, blank};
ghost use Rattle.operations.specs.Races.{conflict as conflict_test, may_race};
ghost use Rattle.operations.specs.Sources.{writes_to};

use crate::kind::Kind;
use words::Word;

// One access to shared memory. The class stands for the instruction that made it.
#[derive(Clone, Copy, PartialEq, Eq, Debug)]
pub struct Operation<W> {
    pub processor: u8,
    pub kind: Kind,
    pub class: u8,
    pub location: u16,
    pub word: W,
}

impl<W: Word> Operation<W> {
    // What a place of a record holds before anything is written there.
    pub fn blank() -> Operation<W>
        ensures { event W.Word.value result ≡ blank W.Word.start }
    {
        Operation {
            processor: 0,
            kind: Kind::DataRead,
            class: 0,
            location: 0,
            word: W::INITIAL,
        }
    }

    pub fn writes_to(&self, location: u16) -> bool
        ensures { result ≡ writes_to (event W.Word.value self.now) location }
    {
        self.kind.writes() && self.location == location
    }

    // Two operations conflict when they share a location and at least one writes.
    pub fn conflicts(&self, other: &Operation<W>) -> bool
        ensures { result ≡ conflict_test (event W.Word.value self.now) (event W.Word.value other.now) }
    {
        self.location == other.location && (self.kind.writes() || other.kind.writes())
    }
}

// Would the two be in a data race, were neither before the other?
pub fn may_race<W: Word>(a: &Operation<W>, b: &Operation<W>) -> bool
    ensures { result ≡ may_race (event W.Word.value a.now) (event W.Word.value b.now) }
{
    a.conflicts(b) && (a.kind.is_data() || b.kind.is_data())
}
