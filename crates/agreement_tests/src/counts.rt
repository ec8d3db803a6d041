use crate::runs::{End, Expected, gives, operation};
use operations::{Kind, MatrixRule, StepRule};
use std::test::Fail;
use words::Count;

// A chain over three processors and two locations.
//
// The step rule pairs 2 with 3 and 4 with 5, so acquire 2 takes from release 1, acquire 4 from release 3, and the
// arrows 0-1-2-3-4-5 are one chain: every operation is before every later one, and nothing races.
//
// The matrix has bit 3 in row 2 and no row 4, so the arrow 3-4 is missing. Then 4 and 5 are after none of 0 to 3,
// and read 5 races with write 0. Operations 3 and 4 share location 9 too, but both synchronize.
#[test]
fn relay() -> Result<(), Fail> {
    let record = [
        operation(0, Kind::DataWrite, 0, 1, Count { number: 41 }),
        operation(0, Kind::Release, 2, 8, Count { number: 1 }),
        operation(1, Kind::Acquire, 3, 8, Count { number: 1 }),
        operation(1, Kind::Release, 4, 9, Count { number: 2 }),
        operation(2, Kind::Acquire, 5, 9, Count { number: 2 }),
        operation(2, Kind::DataRead, 0, 1, Count { number: 41 }),
    ];
    let mut log = record;
    let chained = Expected {
        partners: &[None, None, None, None, None, None],
        end: End::RaceFree,
        before: &[(0, 5), (1, 4), (2, 5)],
        not_before: &[(5, 0), (4, 3), (3, 3)],
    };
    gives(&mut log, &record, StepRule, chained)?;
    let cut = Expected {
        partners: &[None, None, None, None, None, Some(0)],
        end: End::Racy(1, (0, 5)),
        before: &[(0, 3), (1, 2), (4, 5)],
        not_before: &[(3, 4), (0, 5), (5, 0)],
    };
    gives(&mut log, &record, MatrixRule::new(&[0, 0, 8]), cut)
}

// A release that a synchronization write hides, though it writes the same word.
//
// The source of acquire 3 is 2, the latest write to location 3, and that is no release. As 3 is its processor's first
// too, no arrow leads to it, under any rule, and read 4 races with write 0. Operation 5 is no acquire, and is after 0
// and 1 as the next of processor 0. Only 0 and 4 are data operations.
#[test]
fn hidden_release() -> Result<(), Fail> {
    let record = [
        operation(0, Kind::DataWrite, 0, 2, Count { number: 9 }),
        operation(0, Kind::Release, 10, 3, Count { number: 5 }),
        operation(1, Kind::SyncWrite, 10, 3, Count { number: 5 }),
        operation(2, Kind::Acquire, 11, 3, Count { number: 5 }),
        operation(2, Kind::DataRead, 0, 2, Count { number: 9 }),
        operation(0, Kind::SyncRead, 11, 3, Count { number: 5 }),
    ];
    let mut log = record;
    let expected = Expected {
        partners: &[None, None, None, None, Some(0), None],
        end: End::Racy(1, (0, 4)),
        before: &[(3, 4), (1, 5), (0, 5)],
        not_before: &[(1, 3), (2, 3), (0, 4), (2, 5)],
    };
    gives(&mut log, &record, StepRule, expected)?;
    gives(&mut log, &record, MatrixRule::new(&[0xffff; 16]), expected)
}

// Many operations that race, all at one location and with no release: only 0-3 and 4-5 are arrows.
//
// 1 reads, and races with write 0. 2 writes, and races with 1 and 0; the later is 1. 3 reads: 2 is a write of
// another processor, so it is the partner. 4 is a synchronization write: it races with data read 3, the latest. 5 is
// a synchronization read: 4 is before it, 3 does not write, 2 is a data write. So five have a partner, 1 first.
#[test]
fn crowd() -> Result<(), Fail> {
    let record = [
        operation(0, Kind::DataWrite, 0, 4, Count { number: 1 }),
        operation(1, Kind::DataRead, 1, 4, Count { number: 1 }),
        operation(2, Kind::DataWrite, 2, 4, Count { number: 2 }),
        operation(0, Kind::DataRead, 3, 4, Count { number: 2 }),
        operation(3, Kind::SyncWrite, 4, 4, Count { number: 3 }),
        operation(3, Kind::SyncRead, 5, 4, Count { number: 3 }),
    ];
    let mut log = record;
    let expected = Expected {
        partners: &[None, Some(0), Some(1), Some(2), Some(3), Some(2)],
        end: End::Racy(5, (0, 1)),
        before: &[(0, 3), (4, 5)],
        not_before: &[(0, 1), (1, 2), (2, 3), (3, 4), (0, 5)],
    };
    gives(&mut log, &record, StepRule, expected)?;
    gives(&mut log, &record, MatrixRule::new(&[0xffff; 16]), expected)
}

// One release that two processors acquire.
//
// The step rule pairs 12 with 13, so the arrows are 0-1, 1-2, 1-3, 3-4 and 2-5. Write 4 is after write 0 by 1 and 3.
// Read 5 is after write 0 by 1 and 2, but neither 4 nor 5 is before the other, so 5 races with 4.
//
// A matrix with all bits but bit 13 in row 12 leaves out 1-2 and 1-3. Then write 4 races with write 0, and read 5
// with 0 and 4, the later of which is 4.
#[test]
fn fork() -> Result<(), Fail> {
    let record = [
        operation(8, Kind::DataWrite, 0, 11, Count { number: 100 }),
        operation(8, Kind::Release, 12, 20, Count { number: 1 }),
        operation(9, Kind::Acquire, 13, 20, Count { number: 1 }),
        operation(10, Kind::Acquire, 13, 20, Count { number: 1 }),
        operation(10, Kind::DataWrite, 0, 11, Count { number: 101 }),
        operation(9, Kind::DataRead, 0, 11, Count { number: 101 }),
    ];
    let mut log = record;
    let paired = Expected {
        partners: &[None, None, None, None, None, Some(4)],
        end: End::Racy(1, (4, 5)),
        before: &[(0, 4), (0, 5), (1, 2), (1, 3)],
        not_before: &[(2, 3), (4, 5), (2, 4)],
    };
    gives(&mut log, &record, StepRule, paired)?;
    let unpaired = Expected {
        partners: &[None, None, None, None, Some(0), Some(4)],
        end: End::Racy(2, (0, 4)),
        before: &[(0, 1), (3, 4), (2, 5)],
        not_before: &[(1, 2), (1, 3), (0, 4), (0, 5)],
    };
    let mut rows = [0xffff; 13];
    rows[12] = 0xdfff;
    gives(&mut log, &record, MatrixRule::new(&rows), unpaired)
}
