//! Walks over a small file in standard input, and calls the walk again wherever it returns that
//! memory was refused. It prints each row's place and changing elements, and takes no memory
//! itself: so the tests can refuse each growth of the walk, and compare what is printed.
#![tactic(auto)]

use fax_rows::Row;
use fax_walk::{Place, Walk, WalkFault};
use std::io::{self, Read};
use std::process::ExitCode;

/// The most bytes of the file.
const MOST: usize = 4096;

/// The most calls of the walk, those that are refused among them.
const MOST_CALLS: u32 = 1000;

/// The status at a fault of the file, or where there were too many calls.
const FAULT: u8 = 1;

/// Reads standard input to its end, and returns how many bytes of it are kept: at most `MOST`.
fn read_file(rt: &HostRuntime, file: &mut [u8; MOST]) -> io::Result<usize> {
    let mut input = rt.stdin();
    let mut end = 0;
    for _ in 0..MOST {
        let Some(room) = file.get_mut(end..) else {
            break;
        };
        let read = input.read(room)?;
        if read == 0 {
            break;
        }
        end = end.saturating_add(read);
    }
    Ok(end)
}

/// Prints a row's place and its changing elements.
fn print_row(rt: &HostRuntime, place: Place, row: &Row) -> io::Result<()> {
    print!(rt; "row {} {}", place.page, place.row)?;
    for change in row.changes() {
        print!(rt; " {change}")?;
    }
    println!(rt; "")
}

/// Prints the rows of a file, and answers the program's status.
fn print_rows(rt: &HostRuntime, file: &[u8]) -> io::Result<u8> {
    let mut walk = Walk::start(rt.alloc(), file);
    for _ in 0..MOST_CALLS {
        match walk.next_row() {
            Ok(Some((place, row))) => print_row(rt, place, row)?,
            Ok(None) => return Ok(0),
            Err(WalkFault::Memory) => {}
            Err(_) => break,
        }
    }
    Ok(FAULT)
}

fn main(rt: HostRuntime) -> ExitCode {
    let mut file = [0; MOST];
    let status = match read_file(&rt, &mut file) {
        Ok(end) => print_rows(&rt, file.get(..end).unwrap_or(&[])),
        Err(error) => Err(error),
    };
    ExitCode::from(status.unwrap_or(FAULT))
}
