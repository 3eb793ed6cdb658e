// The call of each entry. An output is as long as what the case has by its name: an array where that has one length in
// every case, and else the front of one.
use crate::case::Case;
use crate::output::{Output, Told};
use mesh::Answer;
use pattern::{FILL, fill};
use simple::{Corrections, FlowFields};
use std::io;
use stencil::StencilMut;
use step::{Fields, Outputs};

// The most numbers of an output whose length differs: the base has room for 7 records, each of 4 weights and of 2 whole
// numbers, and no case for more.
const WEIGHTS: usize = 28;

const EQUATIONS: usize = 14;

// The first n numbers of an output's array. Where it has fewer, as it has in no case, all of them.
fn front<T>(numbers: &mut [T], n: usize) -> &mut [T] {
    let n = n.min(numbers.len());
    &mut numbers[..n]
}

fn tell(rt: &impl Print, answer: Answer, outputs: &[Output<'_>]) -> io::Result<()> {
    println!(rt; "{}", Told { answer, outputs })
}

// Makes a call with one output of n numbers, and writes the answer and the output.
fn one<R: Print, F: FnOnce(&mut [f64]) -> Answer>(rt: &R, n: usize, call: F) -> io::Result<()>
    requires { F.IsAlwaysCallable call }
{
    let mut room = [fill(); WEIGHTS];
    let out = front(&mut room, n);
    let answer = call(out);
    tell(rt, answer, &[Output::Floats(out)])
}

// The same with two outputs: a closure takes each by name, so one function for both would be no plainer.
fn two<R: Print, F: FnOnce(&mut [f64], &mut [f64]) -> Answer>(
    rt: &R,
    n: usize,
    m: usize,
    call: F,
) -> io::Result<()>
    requires { F.IsAlwaysCallable call }
{
    let mut first = [fill(); WEIGHTS];
    let mut second = [fill(); WEIGHTS];
    let first = front(&mut first, n);
    let second = front(&mut second, m);
    let answer = call(first, second);
    tell(rt, answer, &[Output::Floats(first), Output::Floats(second)])
}

pub(crate) fn momentum_inverse_diagonal<R: Print>(rt: &R, case: &Case<'_>) -> io::Result<()> {
    one(rt, case.responses.values.len(), |out| {
        simple::momentum_inverse_diagonal(case.mesh.counts, case.diagonal, out)
    })
}

pub(crate) fn least_squares_stencil<R: Print>(rt: &R, case: &Case<'_>) -> io::Result<()> {
    let mut starts = [FILL; 2];
    let mut equations = [FILL; EQUATIONS];
    let mut weights = [fill(); WEIGHTS];
    let equations = front(&mut equations, case.stencil.equations.len());
    let weights = front(&mut weights, case.stencil.weights.len());
    let mut inverses = [fill(); 18];
    let mut out = StencilMut {
        records: case.stencil.records,
        starts: &mut starts,
        equations,
        weights,
        inverses: &mut inverses,
    };
    let answer = stencil::least_squares_stencil(&case.mesh, &case.conditions, &mut out);
    tell(
        rt,
        answer,
        &[
            Output::Whole(&starts),
            Output::Whole(equations),
            Output::Floats(weights),
            Output::Floats(&inverses),
        ],
    )
}

pub(crate) fn least_squares_gradient<R: Print>(rt: &R, case: &Case<'_>) -> io::Result<()> {
    one(rt, case.gradient.values.len(), |out| {
        numerics::least_squares_gradient(case.mesh.counts, &case.stencil, &case.pressure, out)
    })
}

pub(crate) fn pressure_face_coefficients<R: Print>(rt: &R, case: &Case<'_>) -> io::Result<()> {
    one(rt, case.coefficients.values.len(), |out| {
        simple::pressure_face_coefficients(&case.mesh.grid(), &case.responses, out)
    })
}

pub(crate) fn pressure_face_coefficients_with_boundary<R: Print>(
    rt: &R,
    case: &Case<'_>,
) -> io::Result<()> {
    one(rt, case.coefficients.values.len(), |out| {
        simple::pressure_face_coefficients_with_boundary(
            &case.mesh.grid(),
            &case.conditions,
            &case.responses,
            out,
        )
    })
}

pub(crate) fn rhie_chow_predicted_flux<R: Print>(rt: &R, case: &Case<'_>) -> io::Result<()> {
    let n = case.gradient.values.len();
    let m = case.predicted.values.len();
    let fields = FlowFields {
        velocity: case.velocity,
        pressure: case.pressure,
        responses: case.responses,
        walls: case.walls,
    };
    two(rt, n, m, |gradient, predicted| {
        simple::rhie_chow_predicted_flux(
            &case.mesh.grid(),
            &case.stencil,
            &fields,
            gradient,
            predicted,
        )
    })
}

pub(crate) fn correct_face_flux_with_boundary<R: Print>(rt: &R, case: &Case<'_>) -> io::Result<()> {
    let fields = Corrections {
        coefficients: case.coefficients,
        correction: case.correction,
    };
    one(rt, case.flux.values.len(), |out| {
        simple::correct_face_flux_with_boundary(
            &case.mesh.grid().faces(),
            &case.conditions,
            &case.predicted,
            &fields,
            out,
        )
    })
}

pub(crate) fn correct_cell_velocity_from_gradient<R: Print>(
    rt: &R,
    case: &Case<'_>,
) -> io::Result<()> {
    one(rt, case.corrected.len(), |out| {
        simple::correct_cell_velocity_from_gradient(
            case.mesh.counts,
            &case.velocity,
            &case.responses,
            &case.gradient,
            out,
        )
    })
}

pub(crate) fn integrated_divergence<R: Print>(rt: &R, case: &Case<'_>) -> io::Result<()> {
    one(rt, case.outflow.len(), |out| {
        numerics::integrated_divergence(&case.mesh.grid().faces(), &case.flux, out)
    })
}

pub(crate) fn continuity_metrics<R: Print>(rt: &R, case: &Case<'_>) -> io::Result<()> {
    two(
        rt,
        case.outflow.len(),
        case.metrics.len(),
        |outflow, metrics| {
            simple::continuity_metrics(
                &case.mesh.grid().faces(),
                case.mesh.places,
                &case.flux,
                outflow,
                metrics,
            )
        },
    )
}

pub(crate) fn step<R: Print>(rt: &R, case: &Case<'_>) -> io::Result<()> {
    let fields = Fields {
        velocity: case.velocity,
        pressure: case.pressure,
        responses: case.responses,
        walls: case.walls,
        correction: case.correction,
    };
    let mut starts = [FILL; 2];
    let mut equations = [FILL; EQUATIONS];
    let mut weights = [fill(); WEIGHTS];
    let equations = front(&mut equations, case.stencil.equations.len());
    let weights = front(&mut weights, case.stencil.weights.len());
    let mut inverses = [fill(); 18];
    let mut gradient = [fill(); 6];
    let mut predicted = [fill(); 7];
    let mut coefficients = [fill(); 7];
    let mut flux = [fill(); 7];
    let mut outflow = [fill(); 2];
    let mut metrics = [fill(); 2];
    let mut out = Outputs {
        records: case.stencil.records,
        starts: &mut starts,
        equations,
        weights,
        inverses: &mut inverses,
        gradient: &mut gradient,
        predicted: &mut predicted,
        coefficients: &mut coefficients,
        flux: &mut flux,
        outflow: &mut outflow,
        metrics: &mut metrics,
    };
    let answer = step::step(&case.mesh, &case.conditions, &fields, &mut out);
    tell(
        rt,
        answer,
        &[
            Output::Whole(&starts),
            Output::Whole(equations),
            Output::Floats(weights),
            Output::Floats(&inverses),
            Output::Floats(&gradient),
            Output::Floats(&predicted),
            Output::Floats(&coefficients),
            Output::Floats(&flux),
            Output::Floats(&outflow),
            Output::Floats(&metrics),
        ],
    )
}
