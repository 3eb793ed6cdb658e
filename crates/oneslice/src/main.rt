// Calls of `simple::correct_face_flux_in_place`: accepted ones, and one for each refusal. Writes a line for
// each case: the entry, the case's name, a colon, the answer, and what the slice holds after the call,
// refused or not. The lines in the crate's file `stdout` were made by `oracle oneslice` from the Rust; none
// was taken from a run.
#![tactic(auto)]

use mesh::Answer;
use pattern::word::Words;
use std::{fmt, io};

mod case;
mod cases;
mod change;

// What a call answered, and what the slice holds after it, refused or not. `limits` writes the answer alone,
// and `edges` what a refusal left: each program says in a few lines what it prints.
#[derive(Clone, Copy)]
struct Told<'a> {
    answer: Answer,
    flux: &'a [f64],
}

impl fmt::Display for Told<'_> {
    fn fmt<W: fmt::Write>(&self, f: &mut fmt::Formatter<W>) -> fmt::Result {
        match self.answer {
            Ok(()) => f.write_str("accepted")?,
            Err(refusal) => write!(f, "{refusal}")?,
        }
        write!(f, ",{}", Words(self.flux))
    }
}

fn main(rt: HostRuntime) -> io::Result<()> {
    for (name, change) in cases::CASES {
        let mut case = case::base();
        change.apply(&mut case);
        let answer = case.call();
        let flux = case.flux.as_slice();
        println!(rt;
            "correct_face_flux_in_place, {name}: {}",
            Told { answer, flux }
        )?;
    }
    Ok(())
}
