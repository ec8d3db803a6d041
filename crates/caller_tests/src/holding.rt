use arrow::ArrowKeeper;
use clock::ClockKeeper;
use examination::{Examination, Open, Racy, Verdict};
use keepers::{Keeper, KeeperFault, Processors};
use layers::{Allowance, Renumber, RenumberList};
use operations::{Kind, Operation, StepRule};
use record_file::{Directory, FileFault};
use std::test::Fail;
use test_checks::{check, check_eq};
use words::Count;

// A keeper that is made for as many processors, if they are from 1 to 16.
fn clock_for<'a>(processors: u8, numbers: &'a mut [u16]) -> Result<ClockKeeper<'a>, KeeperFault> {
    let processors = Processors::new(processors)?;
    Ok(ClockKeeper::new(processors, numbers))
}

// A keeper that is made in one function with its layers.
#[test]
fn layers_over_a_clock_keeper() -> Result<(), Fail> {
    let mut numbers = [0; 24];
    let keeper = ClockKeeper::new(Processors::new(2)?, &mut numbers);
    let mut pile = Renumber::new(RenumberList::new(), Allowance::new(3, keeper));
    check_eq(pile.room(), 3)?;
    check_eq(pile.add(0, None)?, 0)?;
    check_eq(pile.room(), 2)
}

#[test]
fn layers_over_an_arrow_keeper() -> Result<(), Fail> {
    let mut numbers = [0; 8];
    let mut marks = [0; 8];
    let keeper = ArrowKeeper::new(Processors::new(2)?, &mut numbers, &mut marks);
    let mut pile = Renumber::new(RenumberList::new(), Allowance::new(3, keeper));
    check_eq(pile.add(1, None)?, 0)?;
    check_eq(pile.room(), 2)
}

#[test]
fn keeper_in_a_result() -> Result<(), Fail> {
    let mut numbers = [0; 6];
    check(clock_for(17, &mut numbers).is_err())?;
    let keeper = clock_for(2, &mut numbers)?;
    check_eq(keeper.room(), 2)
}

// A racy run beside lent marks, as a viewer shows it.
#[derive(Drop)]
struct Shown<'a> {
    racy: Racy,
    marks: &'a mut [u8],
}

fn show<'a>(verdict: Verdict, marks: &'a mut [u8]) -> Option<Shown<'a>> {
    match verdict {
        Verdict::RaceFree(_) => None,
        Verdict::Racy(racy) => Some(Shown { racy, marks }),
    }
}

fn write_of(processor: u8) -> Operation<Count> {
    Operation {
        processor,
        kind: Kind::DataWrite,
        class: 0,
        location: 1,
        word: Count { number: 7 },
    }
}

// Two writes of one location by two processors race.
#[test]
fn racy_run_beside_lent_marks() -> Result<(), Fail> {
    let mut numbers = [0; 6];
    let mut keeper = ClockKeeper::new(Processors::new(2)?, &mut numbers);
    let mut record = [Operation::blank(); 2];
    let mut open = Open::new(&keeper)?;
    open.admit(&mut record, &mut keeper, &StepRule, write_of(0))?;
    open.admit(&mut record, &mut keeper, &StepRule, write_of(1))?;
    let mut marks = [0; 2];
    match show(open.close(), &mut marks) {
        Some(shown) => {
            check_eq(shown.racy.admitted(), 2)?;
            check_eq(shown.racy.racing(), 1)?;
            check_eq(shown.marks.len(), 2)
        }
        None => check(false),
    }
}

// A checked directory beside lent room, as a loader keeps them.
#[derive(Drop)]
struct Loaded<'f, 'a> {
    directory: Directory<'f>,
    room: &'a mut [u8],
}

fn load<'f, 'a>(file: &'f [u8], room: &'a mut [u8]) -> Result<Loaded<'f, 'a>, FileFault> {
    let directory = Directory::new(file)?;
    Ok(Loaded { directory, room })
}

#[test]
fn directory_beside_lent_room() -> Result<(), Fail> {
    let mut room = [0; 3];
    let one_empty_section = b"\x01\x00\x01\x00\x00\x00\x0b\x00\x00\x00\x01\x00";
    match load(one_empty_section, &mut room) {
        Ok(Loaded { directory, room }) => {
            check_eq(directory.sections(), 1)?;
            check_eq(room.len(), 3)
        }
        Err(_) => check(false),
    }
}
