use clock::ClockKeeper;
use examination::Verdict;
use keepers::{Adds, Keeper, Processors, Refusal};
use layers::Allowance;
use operations::{Operation, StepRule};
use reader::examine;
use record_file::FileFault;
use std::test::Fail;
use test_checks::check_eq;
use words::Count;

// How the examination of a file ends.
#[derive(Clone, Copy, PartialEq, Eq, Debug)]
enum End {
    RaceFree,
    Racy,
    Refused(Refusal),
}

impl From<Result<Verdict, FileFault>> for End {
    fn from(answer: Result<Verdict, FileFault>) -> End {
        match answer {
            Ok(Verdict::RaceFree(_free)) => End::RaceFree,
            Ok(Verdict::Racy(_racy)) => End::Racy,
            Err(fault) => End::Refused(Refusal::from(fault)),
        }
    }
}

// A refusal at an offset of the file.
fn at(number: u8, offset: usize) -> End {
    End::Refused(Refusal {
        number,
        adds: Adds::Offset(offset),
    })
}

// Examines a file of counts over a keeper with an allowance, in a record of four places, and compares how it ends and
// how many operations are admitted by then.
fn over<K: Keeper + Drop>(
    keeper: K,
    allowance: usize,
    file: &[u8],
    end: End,
    admitted: u16,
) -> Result<(), Fail> {
    let mut pile = Allowance::new(allowance, keeper);
    let mut log = [Operation::<Count>::blank(); 4];
    let mut partners = [None; 4];
    let answer = examine(file, &mut log, &mut pile, &StepRule, &mut partners);
    check_eq(End::from(answer), end)?;
    check_eq(pile.count(), admitted)
}

// The same over a clock keeper for two processors.
fn ends_with(allowance: usize, file: &[u8], end: End, admitted: u16) -> Result<(), Fail> {
    let mut numbers = [0; 24];
    let keeper = ClockKeeper::new(Processors::new(2)?, &mut numbers);
    over(keeper, allowance, file, end, admitted)
}

fn ends(file: &[u8], end: End, admitted: u16) -> Result<(), Fail> {
    ends_with(8, file, end, admitted)
}

// Word type, number of sections, and the directory's length.
#[test]
fn headers() -> Result<(), Fail> {
    let unfit: [&[u8]; 9] = [
        b"",
        b"\x01",
        b"\x01\x00",
        b"\x00\x00\x00",
        b"\x03\x00\x00",
        b"\xff\x00\x00",
        b"\x01\x00\x01",
        b"\x01\x00\x01\x00\x00\x00\x0b\x00\x00\x00",
        b"\x01\xff\xff\x00\x00\x00\x0b\x00\x00\x00\x00",
    ];
    for file in unfit {
        ends(file, at(17, 0), 0)?;
    }
    ends(b"\x01\x00\x00", End::RaceFree, 0)?;
    ends(b"\x01\x00\x00\x09\x09", End::RaceFree, 0)
}

// The first unfit pair, by its own offset.
#[test]
fn pairs() -> Result<(), Fail> {
    let first_unfit: [&[u8]; 6] = [
        // in the directory
        b"\x01\x00\x01\x00\x00\x00\x0a\x00\x00\x00\x01\x00",
        // past the end
        b"\x01\x00\x01\x00\x00\x00\x0b\x00\x00\x00\x02\x00",
        b"\x01\x00\x01\x00\x00\x00\x0d\x00\x00\x00\x00\x00",
        // offset plus length is 2^32, and more
        b"\x01\x00\x01\x00\x00\x00\x0b\xff\xff\xff\xf5\x00",
        b"\x01\x00\x01\xff\xff\xff\xff\xff\xff\xff\xff\x00",
        // the first of two unfit pairs
        b"\x01\x00\x02\x00\x00\x00\x00\x00\x00\x00\x01\x00\x00\x00\x00\x00\x00\x00\x01\x00\x01",
    ];
    for file in first_unfit {
        ends(file, at(17, 3), 0)?;
    }
    let second_unfit: [&[u8]; 2] = [
        // unsorted, and overlapping by one byte
        b"\x01\x00\x02\x00\x00\x00\x14\x00\x00\x00\x01\x00\x00\x00\x13\x00\x00\x00\x01\x00\x01",
        b"\x01\x00\x02\x00\x00\x00\x13\x00\x00\x00\x02\x00\x00\x00\x14\x00\x00\x00\x01\x00\x01",
    ];
    for file in second_unfit {
        ends(file, at(17, 11), 0)?;
    }
    // one after the other, with room between, is fit
    let fit =
        b"\x01\x00\x02\x00\x00\x00\x13\x00\x00\x00\x01\x00\x00\x00\x15\x00\x00\x00\x01\x00\xff\x01";
    ends(fit, End::RaceFree, 0)
}

// Sections when they are reached, and kinds.
#[test]
fn sections() -> Result<(), Fail> {
    // no byte, no whole record, and no record
    let no_byte = b"\x01\x00\x01\x00\x00\x00\x0b\x00\x00\x00\x00";
    ends(no_byte, at(18, 11), 0)?;
    let short = b"\x01\x00\x01\x00\x00\x00\x0b\x00\x00\x00\x08\x00\x00\x00\x00\x01\x00\x00\x00";
    ends(short, at(18, 11), 0)?;
    let long =
        b"\x01\x00\x01\x00\x00\x00\x0b\x00\x00\x00\x0a\x00\x00\x00\x00\x01\x00\x00\x00\x00\x00";
    ends(long, at(18, 11), 0)?;
    let no_record = b"\x01\x00\x01\x00\x00\x00\x0b\x00\x00\x00\x01\x00";
    ends(no_record, End::RaceFree, 0)?;
    let kind_5 =
        b"\x01\x00\x01\x00\x00\x00\x0b\x00\x00\x00\x09\x00\x05\x00\x00\x01\x00\x00\x00\x07";
    ends(kind_5, End::RaceFree, 1)?;
    let kind_6 =
        b"\x01\x00\x01\x00\x00\x00\x0b\x00\x00\x00\x09\x00\x06\x00\x00\x01\x00\x00\x00\x07";
    ends(kind_6, at(19, 12), 0)?;
    // a good section before an empty one: what was admitted stays
    let good_section =
        b"\x01\x00\x02\x00\x00\x00\x13\x00\x00\x00\x09\x00\x00\x00\x1c\x00\x00\x00\x00\x00\x01\x00\x00\x01\x00\x00\x00\x07";
    ends(good_section, at(18, 28), 1)?;
    // a good record before a kind over 5
    let good_record =
        b"\x01\x00\x01\x00\x00\x00\x0b\x00\x00\x00\x11\x00\x01\x00\x00\x01\x00\x00\x00\x07\xff\x00\x00\x01\x00\x00\x00\x07";
    ends(good_record, at(19, 20), 1)
}

// Refusals of an admission, at their record's offset.
#[test]
fn admissions() -> Result<(), Fail> {
    let class_16 =
        b"\x01\x00\x01\x00\x00\x00\x0b\x00\x00\x00\x09\x00\x01\x10\x00\x01\x00\x00\x00\x07";
    ends(class_16, at(8, 12), 0)?;
    let first_read_of_1 =
        b"\x01\x00\x01\x00\x00\x00\x0b\x00\x00\x00\x09\x00\x00\x00\x00\x01\x00\x00\x00\x01";
    ends(first_read_of_1, at(9, 12), 0)?;
    // of two processors
    let processor_2 =
        b"\x01\x00\x01\x00\x00\x00\x0b\x00\x00\x00\x09\x02\x01\x00\x00\x01\x00\x00\x00\x07";
    ends(processor_2, at(2, 12), 0)?;
    let processor_255 =
        b"\x01\x00\x01\x00\x00\x00\x0b\x00\x00\x00\x09\xff\x01\x00\x00\x01\x00\x00\x00\x07";
    ends(processor_255, at(2, 12), 0)?;
    // a write of 7 and a read of 8, then of 7
    let read_of_8 =
        b"\x01\x00\x01\x00\x00\x00\x0b\x00\x00\x00\x11\x00\x01\x00\x00\x01\x00\x00\x00\x07\x00\x00\x00\x01\x00\x00\x00\x08";
    ends(read_of_8, at(9, 20), 1)?;
    let read_of_7 =
        b"\x01\x00\x01\x00\x00\x00\x0b\x00\x00\x00\x11\x00\x01\x00\x00\x01\x00\x00\x00\x07\x00\x00\x00\x01\x00\x00\x00\x07";
    ends(read_of_7, End::RaceFree, 2)?;
    // the same read by another processor races
    let race =
        b"\x01\x00\x02\x00\x00\x00\x13\x00\x00\x00\x09\x00\x00\x00\x1c\x00\x00\x00\x09\x00\x01\x00\x00\x01\x00\x00\x00\x07\x01\x00\x00\x00\x01\x00\x00\x00\x07";
    ends(race, End::Racy, 2)
}

// No room in the keeper, and no place in the record: five writes.
#[test]
fn room() -> Result<(), Fail> {
    let five =
        b"\x01\x00\x01\x00\x00\x00\x0b\x00\x00\x00\x29\x00\x01\x00\x00\x01\x00\x00\x00\x01\x01\x00\x00\x01\x00\x00\x00\x02\x01\x00\x00\x01\x00\x00\x00\x03\x01\x00\x00\x01\x00\x00\x00\x04\x01\x00\x00\x01\x00\x00\x00\x05";
    ends_with(0, five, at(4, 12), 0)?;
    ends_with(3, five, at(4, 36), 3)?;
    ends_with(5, five, at(7, 44), 4)
}
