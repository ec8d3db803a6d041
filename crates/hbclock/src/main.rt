// hbclock: examines the record file on standard input, and prints its operations, each with its racing partner,
// and the verdict.
#![tactic(auto)]

mod lines;
mod pile;
mod table;

ghost use Rattle.std.specs.Prelude.{◌≤◌, length, IfOk};

use lines::Ending;
use operations::Operation;
use record_file::{Directory, FileFault, WordType};
use std::io;
use std::io::Read;
use table::{PLACES, print_run};
use words::{Count, Edge};

const MOST_BYTES: usize = 16384;

// Fills the front of `room` with what the input has, and answers how much that was. Each read may fill all that is left:
// `io::copy` takes at most 8,192 bytes at a time, which cuts a packet short, and clears as much before each read. No
// `Vec`: with one the program would reach the C library's allocator, which nothing here has to trust.
fn read_all(input: &mut impl Read, room: &mut [u8]) -> io::Result<usize>
    ensures { IfOk result (λ n. n ≤ length room.old) }
{
    let mut len = 0;
    while len < room.len() {
        let got = input.read(&mut room[len..])?;
        if got == 0 {
            break;
        }
        len += got;
    }
    Ok(len)
}

// The type of the words in a file that is not too long and whose directory is fit.
fn word_type(file: &[u8]) -> Result<WordType, FileFault> {
    if file.len() > MOST_BYTES {
        return Err(FileFault::Header);
    }
    let directory = Directory::new(file)?;
    Ok(directory.word_type())
}

// Prints what there is to say of a file, after the first line.
fn print_file(rt: &HostRuntime, file: &[u8]) -> io::Result<()> {
    match word_type(file) {
        Ok(WordType::Count) => print_run(rt, file, &mut [Operation::<Count>::blank(); PLACES]),
        Ok(WordType::Edge) => print_run(rt, file, &mut [Operation::<Edge>::blank(); PLACES]),
        Err(fault) => {
            let ending = Ending::Refused(fault);
            println!(rt; "{ending}")
        }
    }
}

fn main(rt: HostRuntime) -> io::Result<()> {
    let mut file = [0u8; MOST_BYTES + 1];
    let len = read_all(&mut rt.stdin(), &mut file)?;
    println!(rt; "op proc kind loc partner")?;
    print_file(&rt, &file[..len])
}
