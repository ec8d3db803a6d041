use agreement::answer_alike;
use arrow::ArrowKeeper;
use clock::ClockKeeper;
use examination::{Examination, Open, Verdict};
use keepers::{Keeper, KeeperFault, Processors};
use layers::{Allowance, Renumber, RenumberList};
use operations::{Kind, Operation, PairingRule};
use std::test::Fail;
use test_checks::{check, check_eq};
use words::Word;

// No record has more operations than this.
const LONGEST: u16 = 6;

// How an examination ends.
#[derive(Clone, Copy, PartialEq, Eq, Debug)]
pub(crate) enum End {
    RaceFree,
    // how many operations have a partner, and the first of these pairs: the partner, and the operation
    Racy(u16, (u16, u16)),
}

impl From<&Verdict> for End {
    fn from(verdict: &Verdict) -> End {
        match verdict {
            Verdict::RaceFree(_) => End::RaceFree,
            Verdict::Racy(racy) => {
                let first = racy.first();
                End::Racy(racy.racing(), (first.partner, first.operation))
            }
        }
    }
}

// What the examination of a record should give: each operation's racing partner, the end, and for some pairs of
// operations whether the first is before the second.
#[derive(Clone, Copy)]
pub(crate) struct Expected<'a> {
    // beside the record and not in it, since one record is examined under several rules
    pub(crate) partners: &'a [Option<u16>],
    pub(crate) end: End,
    pub(crate) before: &'a [(u16, u16)],
    pub(crate) not_before: &'a [(u16, u16)],
}

impl Expected<'_> {
    // Compares the end, and asks the closed state about the pairs.
    fn compare<K: Keeper>(&self, verdict: Verdict, keeper: &mut K) -> Result<(), Fail> {
        check_eq(End::from(&verdict), self.end)?;
        match verdict {
            Verdict::RaceFree(free) => self.orders(&free, keeper),
            Verdict::Racy(racy) => self.orders(&racy, keeper),
        }
    }

    fn orders<E: Examination, K: Keeper>(&self, closed: &E, keeper: &mut K) -> Result<(), Fail> {
        for (a, b) in self.before {
            check(closed.before(keeper, *a, *b)?)?;
        }
        for (a, b) in self.not_before {
            check(!closed.before(keeper, *a, *b)?)?;
        }
        Ok(())
    }
}

// A record, the rule under which it is examined, and what that should give. The log, which is as long as the record,
// is lent to each examination in turn.
#[derive(Drop)]
pub(crate) struct Run<'a, W, R> {
    log: &'a mut [Operation<W>],
    record: &'a [Operation<W>],
    rule: R,
    expected: Expected<'a>,
}

impl<W: Word, R: PairingRule> Run<'_, W, R> {
    // Examines the record over a keeper, and compares. The log is wiped first, so that nothing of an earlier
    // examination is left in it.
    fn examine<K: Keeper>(&mut self, keeper: &mut K) -> Result<(), Fail> {
        let log = &mut *self.log;
        let blank = Operation::blank();
        log.fill_with(|| blank);
        check_eq(self.record.len(), self.expected.partners.len())?;
        let mut open = Open::new(keeper)?;
        let expected = self.record.iter().zip(self.expected.partners).enumerate();
        for (k, (operation, partner)) in expected {
            let answer = open.admit(log, keeper, &self.rule, *operation)?;
            check_eq(answer.number as usize, k)?;
            check_eq(answer.partner, *partner)?;
        }
        self.expected.compare(open.close(), keeper)
    }

    // Examines the record over two keepers, which then answer every order question alike; they refuse alike at the
    // first number that they do not hold.
    fn alike<K: Keeper + Drop, L: Keeper + Drop>(
        &mut self,
        mut one: K,
        mut other: L,
    ) -> Result<(), Fail> {
        self.examine(&mut one)?;
        self.examine(&mut other)?;
        let count = one.count();
        check(count <= LONGEST)?;
        for a in 0..count + 1 {
            for b in 0..count + 1 {
                let answer = one.before(a, b).ok();
                check_eq(answer.is_some(), a < count && b < count)?;
                check(answer_alike(&mut one, &mut other, a, b))?;
            }
        }
        Ok(())
    }

    // The same with an allowance over each keeper, which runs out with the record.
    fn allowed<K: Keeper + Drop, L: Keeper + Drop>(
        &mut self,
        one: K,
        other: L,
    ) -> Result<(), Fail> {
        let left = self.record.len();
        self.alike(Allowance::new(left, one), Allowance::new(left, other))
    }

    // The same with other processor numbers over the allowances.
    fn renumbered<K: Keeper + Drop, L: Keeper + Drop>(
        &mut self,
        one: K,
        other: L,
    ) -> Result<(), Fail> {
        let left = self.record.len();
        self.alike(renumber(left, one)?, renumber(left, other)?)
    }

    // The same with a second allowance over the other processor numbers.
    fn allowed_again<K: Keeper + Drop, L: Keeper + Drop>(
        &mut self,
        one: K,
        other: L,
    ) -> Result<(), Fail> {
        let left = self.record.len();
        self.allowed(renumber(left, one)?, renumber(left, other)?)
    }

    // Whether the record gives what is expected over both keepers, in every pile of layers. The keepers are made for
    // all 16 processors, with room for the longest record: the clock keeper has 6 rows of 17 numbers, the arrow keeper
    // 6 pairs and 6 marks.
    fn holds(&mut self) -> Result<(), Fail> {
        let all = Processors::new(16)?;
        self.alike(
            ClockKeeper::new(all, &mut [0; 102]),
            ArrowKeeper::new(all, &mut [0; 12], &mut [0; 6]),
        )?;
        self.allowed(
            ClockKeeper::new(all, &mut [0; 102]),
            ArrowKeeper::new(all, &mut [0; 12], &mut [0; 6]),
        )?;
        self.renumbered(
            ClockKeeper::new(all, &mut [0; 102]),
            ArrowKeeper::new(all, &mut [0; 12], &mut [0; 6]),
        )?;
        self.allowed_again(
            ClockKeeper::new(all, &mut [0; 102]),
            ArrowKeeper::new(all, &mut [0; 12], &mut [0; 6]),
        )
    }
}

// Puts an allowance over a keeper, and other processor numbers over that.
fn renumber<K: Drop>(left: usize, below: K) -> Result<Renumber<Allowance<K>>, KeeperFault> {
    let mut list = RenumberList::new();
    list.set([9, 15, 0, 7, 1, 14, 2, 13, 3, 12, 4, 11, 5, 10, 6, 8])?;
    Ok(Renumber::new(list, Allowance::new(left, below)))
}

pub(crate) fn operation<W>(
    processor: u8,
    kind: Kind,
    class: u8,
    location: u16,
    word: W,
) -> Operation<W> {
    Operation {
        processor,
        kind,
        class,
        location,
        word,
    }
}

// Whether a record gives what is expected under a rule. The log is any of the record's length.
pub(crate) fn gives<W: Word, R: PairingRule + Drop>(
    log: &mut [Operation<W>],
    record: &[Operation<W>],
    rule: R,
    expected: Expected,
) -> Result<(), Fail> {
    let mut run = Run {
        log,
        record,
        rule,
        expected,
    };
    run.holds()
}
