// The library's functions under C names, for C and Rust programs to link. A function that can refuse
// returns the number of the refusal, 0 where it accepts, and leaves the index in `index`. C lends each slice as a
// pointer and a length, so the slices that travel together are single parameters here, and structs from here on.
#![tactic(auto)]

ghost use Rattle.std.specs.Prelude.{◌≡◌};
ghost use Rattle.binary64.specs.Root.{root};
ghost use Rattle.mesh.specs.Answers.{Answer, answer_number, answer_index};
ghost use Rattle.mesh.specs.FaceDistances.{DistancesCall, Passing};
ghost use Rattle.mesh.specs.Lent.{mesh_lent, conditions_lent};
ghost use Rattle.numerics.specs.Slices.{slices, slices_before, slices_after};
ghost use Rattle.numerics.specs.Gradient.{GradientCall};
ghost use Rattle.numerics.specs.Outflow.{OutflowCall, Scattered};
ghost use Rattle.stencil.specs.Checks.{StencilCall};
ghost use Rattle.coupling.specs.Grid.{grid_lent, field, field_lent};
ghost use Rattle.gauss.specs.Calls.{GaussCall, PressureCall, PressureAloneCall};
ghost use Rattle.predictor.specs.Boundary.{BoundaryCall};
ghost use Rattle.predictor.specs.Coefficients.{CoefficientCall};
ghost use Rattle.predictor.specs.Prediction.{flow_fields_lent, PredictionCall};
ghost use Rattle.corrector.specs.Diagonal.{DiagonalCall};
ghost use Rattle.corrector.specs.Metrics.{MetricsCall};
ghost use Rattle.corrector.specs.Velocity.{VelocityCall};
ghost use Rattle.simple.specs.Corrected.{fields, fields_lent, CorrectionCall, Promised};
ghost use Rattle.sentence.specs.Sentence.{SentenceCall};
ghost use Rattle.scheme.specs.Demand.{Demanded};
ghost use Rattle.step.specs.Call.{StepCall};
ghost use Rattle.step.specs.Lent.{inputs_lent, outputs_before, outputs_after};
ghost use Rattle.capi.specs.Told.{Told};

use mesh::{Answer, Conditions, Counts, Faces, Field, Grid, Mesh};
use numerics::Stencil;
use simple::{Corrections, FlowFields};
use stencil::StencilMut;
use step::{Fields, Outputs};

// Returns the number of an answer, 0 where it accepts, and leaves its index.
#[tactic(auto, unfolding(mesh::specs::Answers::answer_number, mesh::specs::Answers::answer_index))]
fn told(a: Answer, index: &mut usize) -> u64
    ensures number { result ≡ answer_number a }
    ensures index { index.new ≡ answer_index a }
{
    match a {
        Ok(()) => {
            *index = 0;
            0
        }
        Err(refusal) => {
            *index = refusal.index;
            refusal.reason.into()
        }
    }
}

// The square root of x, correctly rounded.
#[unsafe(no_mangle)]
pub extern "C" fn juvandeer_sqrt(x: f64) -> f64
    ensures { result ≡ root x }
{
    binary64::sqrt(x)
}

// `sentence::sentence`.
#[unsafe(no_mangle)]
pub extern "C" fn juvandeer_refusal_sentence(number: u64, index: usize, out: &mut [u8]) -> usize
    ensures call { SentenceCall number index out.old result out.new }
{
    sentence::sentence(number, index, out)
}

// `mesh::face_distances`.
#[unsafe(no_mangle)]
pub extern "C" fn juvandeer_face_distances<'a>(
    counts: Counts,
    adjacency: &'a [usize],
    places: &'a [f64],
    number: u64,
    codes: &'a [usize],
    geometry: &'a mut [f64],
    index: &mut usize,
) -> u64
    ensures told { let a = adjacency.now in
        let p = places.now in
        let k = codes.now in
        let call : Answer → Type 0 = λ r. DistancesCall counts a p number k geometry.old r geometry.new in
        let passes : Answer → Type 0 = λ r. Passing r a p k geometry.new in
        Told (λ (r : Answer). call r × passes r) result index.new }
{
    let faces = Faces { counts, adjacency };
    told(
        mesh::face_distances(&faces, places, number, codes, geometry),
        index,
    )
}

// `stencil::least_squares_stencil`.
#[unsafe(no_mangle)]
pub extern "C" fn juvandeer_least_squares_stencil<'a>(
    counts: Counts,
    adjacency: &'a [usize],
    geometry: &'a [f64],
    heads: &'a [usize],
    places: &'a [f64],
    facing: &'a [usize],
    bordering: &'a [usize],
    number: u64,
    codes: &'a [usize],
    values: &'a [f64],
    records: usize,
    starts: &'a mut [usize],
    equations: &'a mut [usize],
    weights: &'a mut [f64],
    inverses: &'a mut [f64],
    index: &mut usize,
) -> u64
    ensures told { let m = mesh_lent counts adjacency geometry heads places facing bordering in
        let k = conditions_lent number codes values in
        let old = slices starts.old equations.old weights.old inverses.old in
        let new = slices_after starts equations weights inverses in
        Told (λ (a : Answer). StencilCall m k records old a new) result index.new }
{
    let mesh = Mesh {
        counts,
        adjacency,
        geometry,
        heads,
        places,
        facing,
        bordering,
    };
    let conditions = Conditions {
        number,
        codes,
        values,
    };
    let mut out = StencilMut {
        records,
        starts,
        equations,
        weights,
        inverses,
    };
    told(
        stencil::least_squares_stencil(&mesh, &conditions, &mut out),
        index,
    )
}

// `numerics::least_squares_gradient`.
#[unsafe(no_mangle)]
pub extern "C" fn juvandeer_least_squares_gradient<'a>(
    counts: Counts,
    stencil: u64,
    records: usize,
    starts: &'a [usize],
    equations: &'a [usize],
    weights: &'a [f64],
    inverses: &'a [f64],
    number: u64,
    field: &'a [f64],
    out: &'a mut [f64],
    index: &mut usize,
) -> u64
    ensures told { let s = slices_before starts equations weights inverses in
        let f = field.now in
        Told (λ (a : Answer). GradientCall counts stencil records s number f out.old a out.new) result index.new }
{
    let stencil = Stencil {
        number: stencil,
        records,
        starts,
        equations,
        weights,
        inverses,
    };
    let field = Field {
        number: number,
        values: field,
    };
    told(
        numerics::least_squares_gradient(counts, &stencil, &field, out),
        index,
    )
}

// `numerics::integrated_divergence`.
#[unsafe(no_mangle)]
pub extern "C" fn juvandeer_integrated_divergence<'a>(
    counts: Counts,
    adjacency: &'a [usize],
    number: u64,
    flux: &'a [f64],
    out: &'a mut [f64],
    index: &mut usize,
) -> u64
    ensures told { let f = adjacency.now in
        let v = flux.now in
        let call : Answer → Type 0 = λ a. OutflowCall counts f number v out.old a out.new in
        let terms : Answer → Type 0 = λ a. Scattered a counts.cells f v out.new in
        Told (λ (a : Answer). call a × terms a) result index.new }
{
    let faces = Faces { counts, adjacency };
    let flux = Field {
        number: number,
        values: flux,
    };
    told(numerics::integrated_divergence(&faces, &flux, out), index)
}

// `gauss::gauss_gradient_from_faces`.
#[unsafe(no_mangle)]
pub extern "C" fn juvandeer_gauss_gradient_from_faces<'a>(
    counts: Counts,
    adjacency: &'a [usize],
    geometry: &'a [f64],
    places: &'a [f64],
    number: u64,
    values: &'a [f64],
    out: &'a mut [f64],
    index: &mut usize,
) -> u64
    ensures told { let m = grid_lent adjacency geometry places in
        let v = field_lent number values in
        Told (λ (a : Answer). GaussCall counts m v out.old a out.new) result index.new }
{
    let grid = Grid {
        counts,
        adjacency,
        geometry,
        places,
    };
    let values = Field { number, values };
    told(gauss::gauss_gradient_from_faces(&grid, &values, out), index)
}

// `gauss::pressure_coupling_gradient`.
#[unsafe(no_mangle)]
pub extern "C" fn juvandeer_pressure_coupling_gradient<'a>(
    counts: Counts,
    adjacency: &'a [usize],
    geometry: &'a [f64],
    places: &'a [f64],
    number: u64,
    codes: &'a [usize],
    values: &'a [f64],
    pressure: u64,
    pressures: &'a [f64],
    out: &'a mut [f64],
    index: &mut usize,
) -> u64
    ensures told { let m = grid_lent adjacency geometry places in
        let k = conditions_lent number codes values in
        let p = field_lent pressure pressures in
        Told (λ (a : Answer). PressureCall counts m k p out.old a out.new) result index.new }
{
    let grid = Grid {
        counts,
        adjacency,
        geometry,
        places,
    };
    let conditions = Conditions {
        number,
        codes,
        values,
    };
    let pressure = Field {
        number: pressure,
        values: pressures,
    };
    told(
        gauss::pressure_coupling_gradient(&grid, &conditions, &pressure, out),
        index,
    )
}

// `gauss::pressure_coupling_gradient_without_conditions`.
#[unsafe(no_mangle)]
pub extern "C" fn juvandeer_pressure_coupling_gradient_without_conditions<'a>(
    counts: Counts,
    adjacency: &'a [usize],
    geometry: &'a [f64],
    places: &'a [f64],
    pressure: u64,
    pressures: &'a [f64],
    out: &'a mut [f64],
    index: &mut usize,
) -> u64
    ensures told { let m = grid_lent adjacency geometry places in
        let p = field_lent pressure pressures in
        Told (λ (a : Answer). PressureAloneCall counts m p out.old a out.new) result index.new }
{
    let grid = Grid {
        counts,
        adjacency,
        geometry,
        places,
    };
    let pressure = Field {
        number: pressure,
        values: pressures,
    };
    told(
        gauss::pressure_coupling_gradient_without_conditions(&grid, &pressure, out),
        index,
    )
}

// `simple::momentum_inverse_diagonal`.
#[unsafe(no_mangle)]
pub extern "C" fn juvandeer_momentum_inverse_diagonal(
    counts: Counts,
    diagonal: &[f64],
    out: &mut [f64],
    index: &mut usize,
) -> u64
    ensures told { Told (λ (a : Answer). DiagonalCall counts diagonal.now out.old a out.new) result index.new }
{
    told(
        simple::momentum_inverse_diagonal(counts, diagonal, out),
        index,
    )
}

// `simple::pressure_face_coefficients`.
#[unsafe(no_mangle)]
pub extern "C" fn juvandeer_pressure_face_coefficients<'a>(
    counts: Counts,
    adjacency: &'a [usize],
    geometry: &'a [f64],
    places: &'a [f64],
    response: u64,
    responses: &'a [f64],
    out: &'a mut [f64],
    index: &mut usize,
) -> u64
    ensures told { let m = grid_lent adjacency geometry places in
        let w = field_lent response responses in
        Told (λ (a : Answer). CoefficientCall counts m w out.old a out.new) result index.new }
{
    let grid = Grid {
        counts,
        adjacency,
        geometry,
        places,
    };
    let responses = Field {
        number: response,
        values: responses,
    };
    told(
        simple::pressure_face_coefficients(&grid, &responses, out),
        index,
    )
}

// `simple::pressure_face_coefficients_with_boundary`.
#[unsafe(no_mangle)]
pub extern "C" fn juvandeer_pressure_face_coefficients_with_boundary<'a>(
    counts: Counts,
    adjacency: &'a [usize],
    geometry: &'a [f64],
    places: &'a [f64],
    number: u64,
    codes: &'a [usize],
    values: &'a [f64],
    response: u64,
    responses: &'a [f64],
    out: &'a mut [f64],
    index: &mut usize,
) -> u64
    ensures told { let m = grid_lent adjacency geometry places in
        let k = conditions_lent number codes values in
        let w = field_lent response responses in
        Told (λ (a : Answer). BoundaryCall counts m k w out.old a out.new) result index.new }
{
    let grid = Grid {
        counts,
        adjacency,
        geometry,
        places,
    };
    let conditions = Conditions {
        number,
        codes,
        values,
    };
    let responses = Field {
        number: response,
        values: responses,
    };
    told(
        simple::pressure_face_coefficients_with_boundary(&grid, &conditions, &responses, out),
        index,
    )
}

// `simple::rhie_chow_predicted_flux`.
#[unsafe(no_mangle)]
pub extern "C" fn juvandeer_rhie_chow_predicted_flux<'a>(
    counts: Counts,
    adjacency: &'a [usize],
    geometry: &'a [f64],
    places: &'a [f64],
    stencil: u64,
    records: usize,
    starts: &'a [usize],
    equations: &'a [usize],
    weights: &'a [f64],
    inverses: &'a [f64],
    velocity: u64,
    velocities: &'a [f64],
    pressure: u64,
    pressures: &'a [f64],
    response: u64,
    responses: &'a [f64],
    wall: u64,
    walls: &'a [f64],
    gradient: &'a mut [f64],
    out: &'a mut [f64],
    index: &mut usize,
) -> u64
    ensures told { let m = grid_lent adjacency geometry places in
        let s = slices_before starts equations weights inverses in
        let l = flow_fields_lent velocity velocities pressure pressures response responses wall walls in
        let before = gradient.old in
        let after = gradient.new in
        Told (λ (a : Answer). PredictionCall counts m stencil records s l before out.old a after out.new) result index.new }
{
    let grid = Grid {
        counts,
        adjacency,
        geometry,
        places,
    };
    let stencil = Stencil {
        number: stencil,
        records,
        starts,
        equations,
        weights,
        inverses,
    };
    let fields = FlowFields {
        velocity: Field {
            number: velocity,
            values: velocities,
        },
        pressure: Field {
            number: pressure,
            values: pressures,
        },
        responses: Field {
            number: response,
            values: responses,
        },
        walls: Field {
            number: wall,
            values: walls,
        },
    };
    told(
        simple::rhie_chow_predicted_flux(&grid, &stencil, &fields, gradient, out),
        index,
    )
}

// `simple::correct_face_flux_with_boundary`.
#[unsafe(no_mangle)]
pub extern "C" fn juvandeer_correct_face_flux_with_boundary<'a>(
    counts: Counts,
    adjacency: &'a [usize],
    number: u64,
    codes: &'a [usize],
    values: &'a [f64],
    prediction: u64,
    predicted: &'a [f64],
    coefficient: u64,
    coefficients: &'a [f64],
    correction: u64,
    corrections: &'a [f64],
    out: &'a mut [f64],
    index: &mut usize,
) -> u64
    ensures told { let f = adjacency.now in
        let k = conditions_lent number codes values in
        let l = fields_lent prediction predicted coefficient coefficients correction corrections in
        let call : Answer → Type 0 = λ a. CorrectionCall counts f k l out.old a out.new in
        let promise : Answer → Type 0 = λ a. Promised a f k l out.new in
        Told (λ (a : Answer). call a × promise a) result index.new }
{
    let faces = Faces { counts, adjacency };
    let conditions = Conditions {
        number,
        codes,
        values,
    };
    let predicted = Field {
        number: prediction,
        values: predicted,
    };
    let fields = Corrections {
        coefficients: Field {
            number: coefficient,
            values: coefficients,
        },
        correction: Field {
            number: correction,
            values: corrections,
        },
    };
    told(
        simple::correct_face_flux_with_boundary(&faces, &conditions, &predicted, &fields, out),
        index,
    )
}

// `simple::correct_face_flux_in_place`.
#[unsafe(no_mangle)]
pub extern "C" fn juvandeer_correct_face_flux_in_place<'a>(
    counts: Counts,
    adjacency: &'a [usize],
    number: u64,
    codes: &'a [usize],
    values: &'a [f64],
    coefficient: u64,
    coefficients: &'a [f64],
    correction: u64,
    corrections: &'a [f64],
    prediction: u64,
    flux: &'a mut [f64],
    index: &mut usize,
) -> u64
    ensures told { let k = conditions_lent number codes values in
        let l = fields (field prediction flux.old) (field_lent coefficient coefficients) (field_lent correction corrections) in
        let call : Answer → Type 0 = λ a. CorrectionCall counts adjacency.now k l flux.old a flux.new in
        let promise : Answer → Type 0 = λ a. Promised a adjacency.now k l flux.new in
        Told (λ (a : Answer). call a × promise a) result index.new }
{
    let faces = Faces { counts, adjacency };
    let conditions = Conditions {
        number,
        codes,
        values,
    };
    let fields = Corrections {
        coefficients: Field {
            number: coefficient,
            values: coefficients,
        },
        correction: Field {
            number: correction,
            values: corrections,
        },
    };
    told(
        simple::correct_face_flux_in_place(&faces, &conditions, &fields, prediction, flux),
        index,
    )
}

// `simple::correct_cell_velocity_from_gradient`.
#[unsafe(no_mangle)]
pub extern "C" fn juvandeer_correct_cell_velocity_from_gradient<'a>(
    counts: Counts,
    velocity: u64,
    velocities: &'a [f64],
    response: u64,
    responses: &'a [f64],
    gradient: u64,
    gradients: &'a [f64],
    out: &'a mut [f64],
    index: &mut usize,
) -> u64
    ensures told { let v = field_lent velocity velocities in
        let w = field_lent response responses in
        let g = field_lent gradient gradients in
        Told (λ (a : Answer). VelocityCall counts v w g out.old a out.new) result index.new }
{
    let velocity = Field {
        number: velocity,
        values: velocities,
    };
    let responses = Field {
        number: response,
        values: responses,
    };
    let gradient = Field {
        number: gradient,
        values: gradients,
    };
    told(
        simple::correct_cell_velocity_from_gradient(counts, &velocity, &responses, &gradient, out),
        index,
    )
}

// `simple::continuity_metrics`.
#[unsafe(no_mangle)]
pub extern "C" fn juvandeer_continuity_metrics<'a>(
    counts: Counts,
    adjacency: &'a [usize],
    places: &'a [f64],
    number: u64,
    flux: &'a [f64],
    outflow: &'a mut [f64],
    metrics: &'a mut [f64],
    index: &mut usize,
) -> u64
    ensures told { let f = adjacency.now in
        let p = places.now in
        let v = field_lent number flux in
        let sums = outflow.old in
        let call : Answer → Type 0 = λ a. MetricsCall counts f p v sums metrics.old a outflow.new metrics.new in
        Told (λ (a : Answer). call a) result index.new }
{
    let faces = Faces { counts, adjacency };
    let flux = Field {
        number: number,
        values: flux,
    };
    told(
        simple::continuity_metrics(&faces, places, &flux, outflow, metrics),
        index,
    )
}

// `step::step`.
#[unsafe(no_mangle)]
pub extern "C" fn juvandeer_step<'a>(
    counts: Counts,
    adjacency: &'a [usize],
    geometry: &'a [f64],
    heads: &'a [usize],
    places: &'a [f64],
    facing: &'a [usize],
    bordering: &'a [usize],
    number: u64,
    codes: &'a [usize],
    values: &'a [f64],
    records: usize,
    velocity: u64,
    velocities: &'a [f64],
    pressure: u64,
    pressures: &'a [f64],
    response: u64,
    responses: &'a [f64],
    wall: u64,
    walls: &'a [f64],
    correction: u64,
    corrections: &'a [f64],
    starts: &'a mut [usize],
    equations: &'a mut [usize],
    weights: &'a mut [f64],
    inverses: &'a mut [f64],
    gradient: &'a mut [f64],
    predicted: &'a mut [f64],
    coefficients: &'a mut [f64],
    flux: &'a mut [f64],
    outflow: &'a mut [f64],
    metrics: &'a mut [f64],
    index: &mut usize,
) -> u64
    ensures told { let m = mesh_lent counts adjacency geometry heads places facing bordering in
        let k = conditions_lent number codes values in
        let d = inputs_lent m k records velocity velocities pressure pressures response responses wall walls correction corrections in
        let old = outputs_before starts equations weights inverses gradient predicted coefficients flux outflow metrics in
        let new = outputs_after starts equations weights inverses gradient predicted coefficients flux outflow metrics in
        let demanded : Answer → Type 0 = λ a. Demanded a d predicted.new flux.new outflow.new in
        Told (λ (a : Answer). StepCall d old a new × demanded a) result index.new }
{
    let mesh = Mesh {
        counts,
        adjacency,
        geometry,
        heads,
        places,
        facing,
        bordering,
    };
    let conditions = Conditions {
        number,
        codes,
        values,
    };
    let fields = Fields {
        velocity: Field {
            number: velocity,
            values: velocities,
        },
        pressure: Field {
            number: pressure,
            values: pressures,
        },
        responses: Field {
            number: response,
            values: responses,
        },
        walls: Field {
            number: wall,
            values: walls,
        },
        correction: Field {
            number: correction,
            values: corrections,
        },
    };
    let mut out = Outputs {
        records,
        starts,
        equations,
        weights,
        inverses,
        gradient,
        predicted,
        coefficients,
        flux,
        outflow,
        metrics,
    };
    told(step::step(&mesh, &conditions, &fields, &mut out), index)
}
