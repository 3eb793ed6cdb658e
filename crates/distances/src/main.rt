// The distances that are kept with each face: made by `mesh::face_distances`, and checked by `mesh::Mesh::check`, by
// the coefficients without links and by those with links. Writes a line for each case: the entry, the case's name, a
// colon, the answer, and what the output holds after the call, refused or not. The lines in the crate's file `stdout`
// were made by `oracle distances` from the Rust and from a model of the checks; none was taken from a run.
#![tactic(auto)]

use mesh::Answer;
use pattern::fill;
use pattern::word::Words;
use std::io;

mod case;
mod cases;
mod change;

// Writes a call's line, with the words of its output.
fn tell(rt: &impl Print, name: &str, answer: Answer, output: &[f64]) -> io::Result<()> {
    let words = Words(output);
    match answer {
        Ok(()) => println!(rt; "{name}: accepted,{words}"),
        Err(refusal) => println!(rt; "{name}: {refusal},{words}"),
    }
}

fn make<R: Print + AllocGlobal>(rt: &R) -> io::Result<()> {
    for (name, changes) in cases::MADE {
        let mut case = case::base(rt.alloc())?;
        case.change(changes)?;
        let answer = case.make_distances();
        print!(rt; "face_distances, ")?;
        tell(rt, name, answer, &case.geometry)?;
    }
    Ok(())
}

fn check<R: Print + AllocGlobal>(rt: &R) -> io::Result<()> {
    for (name, changes) in cases::CHECKED {
        let case = case::made(rt.alloc(), changes)?;
        match case.check() {
            Ok(()) => println!(rt; "check, {name}: accepted")?,
            Err(refusal) => println!(rt; "check, {name}: {refusal}")?,
        }
    }
    Ok(())
}

// The coefficients without links, or with them.
fn coefficients<R: Print + AllocGlobal>(rt: &R, entry: &str, linked: bool) -> io::Result<()> {
    for (name, changes) in cases::CHECKED {
        let case = case::made(rt.alloc(), changes)?;
        let mut out = vec![in rt.alloc(); fill(); case.counts.faces]?;
        let answer = case.coefficients(linked, &mut out);
        print!(rt; "{entry}, ")?;
        tell(rt, name, answer, &out)?;
    }
    Ok(())
}

fn main(rt: HostRuntime) -> io::Result<()> {
    make(&rt)?;
    check(&rt)?;
    coefficients(&rt, "pressure_face_coefficients", false)?;
    coefficients(&rt, "pressure_face_coefficients_with_boundary", true)
}
