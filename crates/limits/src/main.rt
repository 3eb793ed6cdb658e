// The refusals 1 to 6 and 20 of `mesh::Mesh::check` at their limits; 14 comes only where a cell has all faces or
// records of the largest counts, and `twentysix` has it at its limit. Writes a line for each case: its name, a
// colon, and the answer. The lines in the crate's file `stdout` were written by hand from documents 01 and 02; none
// was taken from a run. A small case starts from an accepted mesh, and changes only what its name says.
#![tactic(auto)]

use case::Case;
use change::Change;
use mesh::Answer;
use std::{fmt, io};

mod case;
mod chains;
mod change;
mod distances;
mod faces;
mod large;
mod lent;
mod links;
mod shape;

// An answer as the lines give it. `edges` and `oneslice` write more beside theirs: each program says in a few
// lines what it prints.
#[derive(Clone, Copy)]
struct Told(Answer);

impl fmt::Display for Told {
    fn fmt<W: fmt::Write>(&self, f: &mut fmt::Formatter<W>) -> fmt::Result {
        match self.0 {
            Ok(()) => f.write_str("accepted"),
            Err(refusal) => write!(f, "{refusal}"),
        }
    }
}

// Writes a case's line.
fn tell(rt: &impl Print, name: &str, answer: Answer) -> io::Result<()> {
    println!(rt; "{name}: {}", Told(answer))
}

// Writes the line of each case: its name, and the changes that it makes to the base.
fn run(rt: &impl Print, base: &Case, cases: &[(&str, &[Change])]) -> io::Result<()> {
    for (name, changes) in cases {
        tell(rt, name, base.with(changes).check())?;
    }
    Ok(())
}

fn main(rt: HostRuntime) -> io::Result<()> {
    let pair = case::pair();
    let row = case::row();
    large::counts(&rt)?;
    shape::all(&rt, &pair)?;
    faces::all(&rt, &pair, &row)?;
    chains::all(&rt, &row)?;
    large::chains(&rt)?;
    run(&rt, &row, links::CASES)?;
    distances::all(&rt, &row)
}
