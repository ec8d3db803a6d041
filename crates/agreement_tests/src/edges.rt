use crate::runs::{End, Expected, gives, operation};
use operations::{Kind, MatrixRule, StepRule};
use std::test::Fail;
use words::Edge;

fn edge(target: u32, cost: i32) -> Edge {
    Edge { target, cost }
}

// One release of class 6, acquired with class 7 and with class 1; both acquirers then read what was written before.
//
// The step rule pairs 6 with 7 only: 0-1-2-3 is a chain, and 4-5 stands alone, so read 5 races with write 0.
//
// The matrix has all bits but bit 7 in row 6, so bit 1 too: 0-1-4-5 is a chain, and 2-3 stands alone, so read 3
// races with write 0.
//
// With 16 empty rows and a full one after them no class pairs: both reads race with write 0, 3 first. The two reads
// do not conflict with each other.
#[test]
fn two_acquirers() -> Result<(), Fail> {
    let written = edge(7, -3);
    let flag = edge(1, -1);
    let record = [
        operation(3, Kind::DataWrite, 0, 5, written),
        operation(3, Kind::Release, 6, 6, flag),
        operation(0, Kind::Acquire, 7, 6, flag),
        operation(0, Kind::DataRead, 0, 5, written),
        operation(1, Kind::Acquire, 1, 6, flag),
        operation(1, Kind::DataRead, 0, 5, written),
    ];
    let mut log = record;
    let by_step = Expected {
        partners: &[None, None, None, None, None, Some(0)],
        end: End::Racy(1, (0, 5)),
        before: &[(0, 3), (1, 2), (4, 5)],
        not_before: &[(1, 4), (0, 5), (3, 5)],
    };
    gives(&mut log, &record, StepRule, by_step)?;
    let by_matrix = Expected {
        partners: &[None, None, None, Some(0), None, None],
        end: End::Racy(1, (0, 3)),
        before: &[(1, 4), (0, 5), (2, 3)],
        not_before: &[(0, 3), (1, 2), (2, 5)],
    };
    let rows = [0, 0, 0, 0, 0, 0, 0xff7f];
    gives(&mut log, &record, MatrixRule::new(&rows), by_matrix)?;
    let by_none = Expected {
        partners: &[None, None, None, Some(0), None, Some(0)],
        end: End::Racy(2, (0, 3)),
        before: &[(0, 1), (2, 3), (4, 5)],
        not_before: &[(1, 2), (1, 4), (0, 5)],
    };
    let mut rows = [0; 17];
    rows[16] = 0xffff;
    gives(&mut log, &record, MatrixRule::new(&rows), by_none)
}

// Synchronization operations only, all at one location: never a race.
//
// Processors give the arrows 0-3 and 1-4. The source of all three reads is release 2. The matrix has bit 15 in row
// 15 and nothing else: it pairs 2 with acquire 4, of class 15, and not with 5, of class 14; 3 is no acquire. The
// step rule pairs no odd class with anything.
#[test]
fn synchronization_only() -> Result<(), Fail> {
    let word = edge(3, -8);
    let other = edge(3, 8);
    let record = [
        operation(4, Kind::Release, 15, 7, word),
        operation(5, Kind::SyncWrite, 15, 7, other),
        operation(6, Kind::Release, 15, 7, word),
        operation(4, Kind::SyncRead, 15, 7, word),
        operation(5, Kind::Acquire, 15, 7, word),
        operation(15, Kind::Acquire, 14, 7, word),
    ];
    let mut log = record;
    let paired = Expected {
        partners: &[None, None, None, None, None, None],
        end: End::RaceFree,
        before: &[(0, 3), (1, 4), (2, 4)],
        not_before: &[(0, 4), (2, 5), (2, 3)],
    };
    let mut rows = [0; 16];
    rows[15] = 0x8000;
    gives(&mut log, &record, MatrixRule::new(&rows), paired)?;
    let unpaired = Expected {
        partners: &[None, None, None, None, None, None],
        end: End::RaceFree,
        before: &[(0, 3), (1, 4)],
        not_before: &[(2, 4), (0, 4), (2, 5), (2, 3)],
    };
    gives(&mut log, &record, StepRule, unpaired)
}

// A release orders what comes before it, and not what its processor does after it.
//
// The step rule pairs 0 with 1, so the arrows are 1-2, 0-2-4 for processor 1, and 1-3-5 for processor 2. The matrix
// has bit 1 in row 0 and means the same here. Read 0 has no source, and sees the initial word. Write 3 races with
// read 0. Write 4 is after 1 and not after 3: it races with 3. Read 5 is alone at its location, again without a
// source.
#[test]
fn after_the_release() -> Result<(), Fail> {
    let initial = edge(0, 0);
    let flag = edge(u32::MAX, i32::MIN);
    let written = edge(2, -5);
    let record = [
        operation(1, Kind::DataRead, 0, 0, initial),
        operation(2, Kind::Release, 0, 1, flag),
        operation(1, Kind::Acquire, 1, 1, flag),
        operation(2, Kind::DataWrite, 0, 0, written),
        operation(1, Kind::DataWrite, 0, 0, written),
        operation(2, Kind::DataRead, 15, 65535, initial),
    ];
    let mut log = record;
    let expected = Expected {
        partners: &[None, None, None, Some(0), Some(3), None],
        end: End::Racy(2, (0, 3)),
        before: &[(1, 4), (0, 4), (1, 5)],
        not_before: &[(3, 4), (4, 3), (2, 3), (0, 3)],
    };
    gives(&mut log, &record, StepRule, expected)?;
    gives(&mut log, &record, MatrixRule::new(&[2]), expected)
}
