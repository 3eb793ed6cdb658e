// The gradients of Gauss: `gauss::gauss_gradient_from_faces`, and `gauss::pressure_coupling_gradient` with conditions and
// without. Writes a line for each case: the entry, the case's name, a colon, the answer, and what the output holds after
// the call, refused or not; and where it is accepted a line of the gradient handed out as records, one after another. The
// lines in the crate's file `stdout` were made by `oracle gradients` from the Rust and from a model of the checks; none
// was taken from a run.
#![tactic(auto)]

use crate::case::Entry;
use crate::change::Change;
use mesh::Answer;
use pattern::fill;
use pattern::word::Words;
use std::io;
use vector::Vec3;

mod case;
mod cases;
mod change;

// Ends a line with an answer and the words of an output.
fn tell(rt: &impl Print, answer: Answer, output: &[f64]) -> io::Result<()> {
    let words = Words(output);
    match answer {
        Ok(()) => println!(rt; "accepted,{words}"),
        Err(refusal) => println!(rt; "{refusal},{words}"),
    }
}

// Ends a line with the answer of `hand_out` for so many records, and with the words of these.
fn hand_out<R: Print + AllocGlobal>(rt: &R, numbers: &[f64], count: usize) -> io::Result<()> {
    let filled = Vec3 {
        x: fill(),
        y: fill(),
        z: fill(),
    };
    let mut out = vec![in rt.alloc(); filled; count]?;
    let answer = records::hand_out(numbers, &mut out);
    let mut words = Vec::new(rt.alloc());
    for record in &out {
        words.extend_from_slice(&[record.x, record.y, record.z])?;
    }
    tell(rt, answer, &words)
}

fn call<R: Print + AllocGlobal>(
    rt: &R,
    entry: Entry,
    name: &str,
    changes: &[Change],
) -> io::Result<()> {
    let case = case::made(rt.alloc(), changes)?;
    let mut out = vec![in rt.alloc(); fill(); case.outs]?;
    let answer = case.call(entry, &mut out);
    print!(rt; "{entry}, {name}: ")?;
    tell(rt, answer, &out)?;
    if answer.is_ok() {
        print!(rt; "{entry}, {name}, as records: ")?;
        hand_out(rt, &out, case.counts.cells)?;
    }
    Ok(())
}

// Each of these entries on each of these cases.
fn calls<R: Print + AllocGlobal>(
    rt: &R,
    entries: &[Entry],
    cases: &[(&str, &[Change])],
) -> io::Result<()> {
    for entry in entries {
        for (name, changes) in cases {
            call(rt, *entry, name, changes)?;
        }
    }
    Ok(())
}

fn main(rt: HostRuntime) -> io::Result<()> {
    let of_pressure = [Entry::OfPressure, Entry::WithoutConditions];
    calls(&rt, &Entry::ALL, cases::ALL)?;
    calls(&rt, &[Entry::OfFaces], cases::OF_FACES)?;
    calls(&rt, &of_pressure, cases::OF_PRESSURE)?;
    calls(&rt, &[Entry::OfPressure], cases::OF_CONDITIONS)?;
    for (name, numbers, count) in cases::HANDED {
        print!(rt; "hand_out, {name}: ")?;
        hand_out(&rt, numbers, *count)?;
    }
    Ok(())
}
