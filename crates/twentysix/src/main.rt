// Refusal 14 of `mesh::Mesh::check` at its limit of 26 faces to a cell. Writes a line for each case: its name, a
// colon, and the answer. The lines in the crate's file `stdout` were written by hand from documents 01 and 02;
// none was taken from a run.
#![tactic(auto)]

use change::Change;
use mesh::Answer;
use std::io;

mod case;
mod change;
mod faces;
mod large;
mod order;
mod records;

// Writes a case's line.
fn tell(rt: &impl Print, name: &str, answer: Answer) -> io::Result<()> {
    match answer {
        Ok(()) => println!(rt; "{name}: accepted"),
        Err(refusal) => println!(rt; "{name}: {refusal}"),
    }
}

// Writes the line of each case: its name, and the changes that it makes to so many cells with no face.
fn run<R: Print + AllocGlobal>(rt: &R, cells: u16, cases: &[(&str, &[Change])]) -> io::Result<()> {
    for (name, changes) in cases {
        tell(rt, name, case::of(rt.alloc(), cells, changes)?.check())?;
    }
    Ok(())
}

fn main(rt: HostRuntime) -> io::Result<()> {
    run(&rt, 3, faces::CASES)?;
    run(&rt, 3, records::CASES)?;
    run(&rt, 3, order::CASES)?;
    run(&rt, 4096, large::LAST_OF_4096)?;
    run(&rt, 4097, large::LAST_OF_4097)?;
    run(&rt, 65535, large::LAST_OF_65535)?;
    run(&rt, 65535, large::MOST_FACES)
}
