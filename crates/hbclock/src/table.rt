use crate::lines::{Ending, Line};
use crate::pile::{Finding, find};
use clock::ClockKeeper;
use keepers::Processors;
use operations::Operation;
use std::io;
use words::Word;

// How many places the record has.
pub(crate) const PLACES: usize = 1024;

// The line of each admitted operation.
fn print_lines<W>(
    rt: &HostRuntime,
    log: &[Operation<W>],
    partners: &[Option<u16>],
    admitted: u16,
) -> io::Result<()> {
    let rows = log.iter().zip(partners).enumerate();
    for (number, (operation, partner)) in rows.take(admitted as usize) {
        let line = Line {
            number,
            operation,
            partner: *partner,
        };
        println!(rt; "{line}")?;
    }
    Ok(())
}

// Examines a file whose words are of type W, in a lent record, and prints all but the first line.
pub(crate) fn print_run<W: Word>(
    rt: &HostRuntime,
    file: &[u8],
    log: &mut [Operation<W>],
) -> io::Result<()> {
    // Beside the record and not in it: `examine` takes both lent, and the record holds operations alone.
    let mut partners = [None; PLACES];
    let mut numbers = [0u16; 2560];
    let Ok(four) = Processors::new(4) else {
        return unreachable();
    };
    let keeper = ClockKeeper::new(four, &mut numbers);
    let Finding { verdict, admitted } = find(file, log, &mut partners, keeper);
    print_lines(rt, log, &partners, admitted)?;
    let ending = Ending::from(verdict);
    println!(rt; "{ending}")
}
