// Calls of every entry that is lent a mesh or its fields, but the one that makes the distances. Writes a line for
// each case: the entry, the case's name, a colon, the answer, and the outputs. The lines in the crate's file
// `stdout` were made by `oracle edges` from the Rust; none was taken from a run.
#![tactic(auto)]

use case::Case;
use change::Change;
use std::io;

mod calls;
mod case;
mod change;
mod output;
mod tables;

// Writes the lines of an entry's cases: the base, with the change that the name says. Whoever takes a closure is asked
// by the language that it may be called.
fn run<R: Print, F: Fn(&R, &Case<'_>) -> io::Result<()>>(
    rt: &R,
    entry: &str,
    cases: &[(&str, Change)],
    call: F,
) -> io::Result<()>
    requires { F.IsAlwaysCallable call }
{
    for (name, change) in cases {
        print!(rt; "{entry}, {name}: ")?;
        change.show(rt, &call)?;
    }
    Ok(())
}

fn main(rt: HostRuntime) -> io::Result<()> {
    run(
        &rt,
        "momentum_inverse_diagonal",
        tables::DIAGONAL,
        calls::momentum_inverse_diagonal,
    )?;
    run(
        &rt,
        "least_squares_stencil",
        tables::STENCIL,
        calls::least_squares_stencil,
    )?;
    run(
        &rt,
        "least_squares_gradient",
        tables::GRADIENT,
        calls::least_squares_gradient,
    )?;
    run(
        &rt,
        "pressure_face_coefficients",
        tables::COEFFICIENTS,
        calls::pressure_face_coefficients,
    )?;
    run(
        &rt,
        "pressure_face_coefficients_with_boundary",
        tables::BOUNDARY,
        calls::pressure_face_coefficients_with_boundary,
    )?;
    run(
        &rt,
        "rhie_chow_predicted_flux",
        tables::PREDICTION,
        calls::rhie_chow_predicted_flux,
    )?;
    run(
        &rt,
        "correct_face_flux_with_boundary",
        tables::CORRECTION,
        calls::correct_face_flux_with_boundary,
    )?;
    run(
        &rt,
        "correct_cell_velocity_from_gradient",
        tables::VELOCITY,
        calls::correct_cell_velocity_from_gradient,
    )?;
    run(
        &rt,
        "integrated_divergence",
        tables::OUTFLOW,
        calls::integrated_divergence,
    )?;
    run(
        &rt,
        "continuity_metrics",
        tables::METRICS,
        calls::continuity_metrics,
    )?;
    run(&rt, "step", tables::STEP, calls::step)
}
