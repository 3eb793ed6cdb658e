// Steps at the edges of the prediction of linked faces. Writes a line for each case: its name, a colon, the answer, and
// the outputs, or what a refusal left in them. The lines in the crate's file `stdout` were made by `oracle pairs` from the
// Rust and from a model of the checks; none was taken from a run.
#![tactic(auto)]

use crate::change::Change;
use mesh::Answer;
use pattern::inner::holds;
use pattern::word::Words;
use pattern::{FILL, fill};
use std::io;
use step::Outputs;

mod case;
mod cases;
mod change;

// Whether every number of the outputs is this word's.
fn all_hold(out: &Outputs<'_>, word: usize) -> bool {
    holds(out.starts, &[], word)
        & holds(out.equations, &[], word)
        & holds(out.weights, &[], word)
        & holds(out.inverses, &[], word)
        & holds(out.gradient, &[], word)
        & holds(out.predicted, &[], word)
        & holds(out.coefficients, &[], word)
        & holds(out.flux, &[], word)
        & holds(out.outflow, &[], word)
        & holds(out.metrics, &[], word)
}

// What a refusal left in the outputs, which held `pattern::FILL` before.
fn left(out: &Outputs<'_>) -> &'static str {
    if all_hold(out, FILL) {
        "untouched"
    } else if all_hold(out, 0) {
        "cleared"
    } else {
        "neither untouched nor cleared"
    }
}

// Ends a case's line.
fn tell(rt: &impl Print, answer: Answer, out: &Outputs<'_>) -> io::Result<()> {
    if let Err(refusal) = answer {
        return println!(rt; "{refusal}, {}", left(out));
    }
    print!(rt; "accepted,{},{}", Words(out.starts), Words(out.equations))?;
    print!(rt; ",{},{}", Words(out.weights), Words(out.inverses))?;
    print!(rt; ",{},{}", Words(out.gradient), Words(out.predicted))?;
    print!(rt; ",{},{}", Words(out.coefficients), Words(out.flux))?;
    println!(rt; ",{},{}", Words(out.outflow), Words(out.metrics))
}

fn run<R: Print + AllocGlobal>(rt: &R, name: &str, changes: &[Change]) -> io::Result<()> {
    let case = case::made(rt.alloc(), changes)?;
    let mut out = Outputs {
        records: case::RECORDS,
        starts: &mut [FILL; 2],
        equations: &mut [FILL; 22],
        weights: &mut [fill(); 44],
        inverses: &mut [fill(); 18],
        gradient: &mut [fill(); 6],
        predicted: &mut [fill(); 9],
        coefficients: &mut [fill(); 9],
        flux: &mut [fill(); 9],
        outflow: &mut [fill(); 2],
        metrics: &mut [fill(); 2],
    };
    let answer = case.call(&mut out);
    print!(rt; "step, {name}: ")?;
    tell(rt, answer, &out)
}

fn main(rt: HostRuntime) -> io::Result<()> {
    for (name, changes) in cases::CASES {
        run(&rt, name, changes)?;
    }
    Ok(())
}
