use clock::ClockKeeper;
use examination::{ExamFault, Examination, Open};
use keepers::{Adds, Keeper, Processors, Refusal};
use operations::{Kind, Operation, StepRule};
use std::test::Fail;
use test_checks::check_eq;
use words::Count;

// One admission into a newly opened examination, and what is wrong with it.
#[derive(Clone, Copy)]
struct Case {
    // numbers lent to the keeper: three for each operation
    numbers: usize,
    // places of the record
    places: usize,
    // operations added to the keeper behind the examination's back
    added: u16,
    class: u8,
    // a first read carries this word; the initial one is 0
    word: u32,
    processor: u8,
}

impl Case {
    fn read(self) -> Operation<Count> {
        Operation {
            processor: self.processor,
            kind: Kind::DataRead,
            class: self.class,
            location: 1,
            word: Count { number: self.word },
        }
    }

    // Admits the case over a clock keeper for two processors, and compares the refusal; what was lent has to be as it
    // was.
    fn refused(self, number: u8, adds: Adds) -> Result<(), Fail> {
        let mut numbers = [0; 6];
        let lent = self.numbers.min(6);
        let mut keeper = ClockKeeper::new(Processors::new(2)?, &mut numbers[..lent]);
        let mut open = Open::new(&keeper)?;
        let old = Operation {
            processor: 9,
            kind: Kind::Release,
            class: 99,
            location: 1,
            word: Count { number: 77 },
        };
        let mut record = [old; 1];
        for _ in 0..self.added {
            keeper.add(0, None)?;
        }
        let count = keeper.count();
        let places = self.places.min(1);
        let answer = open.admit(&mut record[..places], &mut keeper, &StepRule, self.read());
        check_eq(
            answer.err().map(Refusal::from),
            Some(Refusal { number, adds }),
        )?;
        check_eq(open.admitted(), 0)?;
        check_eq(keeper.count(), count)?;
        check_eq(record, [old])
    }
}

// Each case fails its own check and every later one, so the first one answers.
#[test]
fn first_refusals() -> Result<(), Fail> {
    let no_place = Case {
        numbers: 6,
        places: 0,
        added: 1,
        class: 16,
        word: 1,
        processor: 2,
    };
    no_place.refused(7, Adds::ExaminationLayer)?;
    let counts_differ = Case {
        places: 1,
        ..no_place
    };
    counts_differ.refused(6, Adds::ExaminationLayer)?;
    let high_class = Case {
        added: 0,
        ..counts_differ
    };
    high_class.refused(8, Adds::ExaminationLayer)?;
    let other_word = Case {
        class: 15,
        ..high_class
    };
    other_word.refused(9, Adds::ExaminationLayer)?;
    let not_admitted = Case {
        numbers: 2,
        word: 0,
        ..other_word
    };
    not_admitted.refused(2, Adds::KeeperLayer)?;
    let no_room = Case {
        processor: 1,
        ..not_admitted
    };
    no_room.refused(4, Adds::KeeperLayer)
}

// The number of a refusal.
fn number_of<T: Drop>(answer: Result<T, ExamFault>) -> Option<u8> {
    answer.err().map(|fault| Refusal::from(fault).number)
}

// Order questions check the count first, then the numbers; opening wants an empty keeper.
#[test]
fn questions() -> Result<(), Fail> {
    let mut numbers = [0; 6];
    let mut keeper = ClockKeeper::new(Processors::new(2)?, &mut numbers);
    let open = Open::new(&keeper)?;
    check_eq(number_of(open.before(&mut keeper, 0, 0)), Some(5))?;
    keeper.add(0, None)?;
    check_eq(number_of(open.before(&mut keeper, 0, 0)), Some(6))?;
    check_eq(number_of(Open::new(&keeper)), Some(6))
}
