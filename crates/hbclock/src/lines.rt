use examination::{Examination, RacingPair, Verdict};
use keepers::{Adds, Refusal};
use operations::Operation;
use record_file::FileFault;
use std::fmt;

// The line of an operation: its number, its processor, kind and location, and its racing partner or `-`.
#[derive(Clone, Copy)]
pub(crate) struct Line<'a, W> {
    pub(crate) number: usize,
    pub(crate) operation: &'a Operation<W>,
    pub(crate) partner: Option<u16>,
}

impl<W> fmt::Display for Line<'_, W> {
    fn fmt<F: fmt::Write>(&self, f: &mut fmt::Formatter<F>) -> fmt::Result {
        let number = self.number;
        let processor = self.operation.processor;
        let kind = u8::from(self.operation.kind);
        let location = self.operation.location;
        write!(f, "{number} {processor} {kind} {location} ")?;
        match self.partner {
            Some(partner) => write!(f, "{partner}"),
            None => f.write_str("-"),
        }
    }
}

// The last line: how many operations a race-free run has, how many of a racy one race with an earlier one and the
// first of them with its partner, or the refusal of the file.
#[derive(Clone, Copy)]
pub(crate) enum Ending {
    RaceFree(u16),
    Racy(u16, RacingPair),
    Refused(FileFault),
}

impl From<Result<Verdict, FileFault>> for Ending {
    fn from(answer: Result<Verdict, FileFault>) -> Ending {
        match answer {
            Ok(Verdict::RaceFree(free)) => Ending::RaceFree(free.admitted()),
            Ok(Verdict::Racy(racy)) => Ending::Racy(racy.racing(), racy.first()),
            Err(fault) => Ending::Refused(fault),
        }
    }
}

impl fmt::Display for Ending {
    fn fmt<F: fmt::Write>(&self, f: &mut fmt::Formatter<F>) -> fmt::Result {
        match self {
            Ending::RaceFree(admitted) => write!(f, "race-free {admitted}"),
            Ending::Racy(count, first) => {
                let partner = first.partner;
                let operation = first.operation;
                write!(f, "racy {count} {partner} {operation}")
            }
            Ending::Refused(fault) => {
                let refusal = Refusal::from(*fault);
                let number = refusal.number;
                let Adds::Offset(offset) = refusal.adds else {
                    return unreachable();
                };
                write!(f, "refused {number} {offset}")
            }
        }
    }
}
