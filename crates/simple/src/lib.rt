// Coupling of pressure and velocity: the response of the momentum equation, the coefficients of the
// faces, the predicted and the corrected flux, the corrected velocity and the metrics of continuity.
// What an entry takes as several structs is lent apart, and checked together by that one function.
#![tactic(auto)]

ghost use Rattle.std.specs.Prelude.{◌≡◌};
ghost use Rattle.mesh.specs.Bundles.{conditions_of};
ghost use Rattle.numerics.specs.Bundles.{slices_of};
ghost use Rattle.predictor.specs.Boundary.{boundary_checks, BoundaryCall};
ghost use Rattle.predictor.specs.Coefficients.{coefficient_checks, CoefficientCall};
ghost use Rattle.predictor.specs.Prediction.{prediction_checks, PredictionCall};
ghost use Rattle.simple.specs.Bundles.{flow_fields_of, fields_of};
ghost use Rattle.simple.specs.Corrected.{correction_checks, CorrectionCall, Promised};
ghost use Rattle.corrector.specs.Diagonal.{diagonal_checks, DiagonalCall};
ghost use Rattle.coupling.specs.Grid.{grid_of_lent, field, field_of};
ghost use Rattle.corrector.specs.Metrics.{metrics_checks, MetricsCall};
ghost use Rattle.corrector.specs.Velocity.{velocity_checks, VelocityCall};

use corrector::inner::velocity::Velocity;
use mesh::{Answer, Conditions, Counts, Faces, Field, Grid};
use numerics::Stencil;
use numerics::inner::gradient::Slope;
use numerics::inner::outflow::Flux;
use predictor::inner::boundary::Boundary;
use predictor::inner::coefficients::Coupling;
use predictor::inner::prediction::Momentum;
use refusal::Reason;

mod lent;

pub use lent::{Corrections, FlowFields};

// In each check `outs` is the length of the output.
#[tactic(auto, using(mesh::proofs::Facts::in_order), unfolding(mesh::specs::Answers::first_of, corrector::specs::Diagonal::diagonal_checks))]
fn check_diagonal(counts: Counts, diagonal: &[f64], outs: usize) -> Answer
    ensures { result ≡ diagonal_checks counts diagonal.now outs }
{
    let sized = (diagonal.len() == counts.cells) & (outs == counts.cells);
    mesh::pass(Reason::BadSize, mesh::sizes_ok(counts))?;
    mesh::pass(Reason::WrongLength, sized)
}

// One over the momentum diagonal of each cell.
#[tactic(auto, using(mesh::proofs::Facts::refuses, mesh::proofs::Facts::goes_on, crate::proofs::Checked::diagonal_passed, mesh::proofs::Values::if_accepted), unfolding(mesh::specs::Pass::if_refused))]
pub fn momentum_inverse_diagonal(counts: Counts, diagonal: &[f64], out: &mut [f64]) -> Answer
    ensures call { DiagonalCall counts diagonal.now out.old result out.new }
{
    check_diagonal(counts, diagonal, out.len())?;
    corrector::inner::diagonal::momentum_inverse_diagonal(diagonal, out)
}

#[tactic(auto, using(mesh::proofs::Facts::in_order, mesh::proofs::Facts::shape_first), unfolding(predictor::specs::Coefficients::coefficient_checks))]
fn check_coefficients(grid: &Grid<'_>, responses: &Field<'_>, outs: usize) -> Answer
    ensures checked { let m = grid_of_lent grid.now in
        result ≡ coefficient_checks grid.now.counts m (field_of responses.now) outs }
{
    let counts = grid.counts;
    let sized = coupling::is_grid_sized(grid)
        & (responses.values.len() == counts.cells)
        & (outs == counts.faces);
    let same = responses.number == counts.mesh;
    mesh::shape(mesh::sizes_ok(counts), sized, same)?;
    #[tactic(auto, using(mesh::proofs::Facts::small))]
    grid.check_sides()
}

// The coefficient of each face with two cells; +0.0 at the others.
#[tactic(auto, using(mesh::proofs::Facts::refuses, mesh::proofs::Facts::goes_on, crate::proofs::Checked::coefficients_passed, mesh::proofs::Values::if_accepted), unfolding(mesh::specs::Pass::if_refused))]
pub fn pressure_face_coefficients(grid: &Grid<'_>, responses: &Field<'_>, out: &mut [f64]) -> Answer
    ensures call { let m = grid_of_lent grid.now in
        CoefficientCall grid.now.counts m (field_of responses.now) out.old result out.new }
{
    check_coefficients(grid, responses, out.len())?;
    let coupling = Coupling {
        grid: *grid,
        values: responses.values,
    };
    coupling.pressure_face_coefficients(out)
}

#[tactic(auto, using(mesh::proofs::Facts::in_order, mesh::proofs::Facts::shape_first), unfolding(predictor::specs::Boundary::boundary_checks))]
fn check_boundary(
    grid: &Grid<'_>,
    conditions: &Conditions<'_>,
    responses: &Field<'_>,
    outs: usize,
) -> Answer
    ensures checked { let m = grid_of_lent grid.now in
        let k = conditions_of conditions.now in
        result ≡ boundary_checks grid.now.counts m k (field_of responses.now) outs }
{
    let counts = grid.counts;
    let sized = coupling::is_grid_sized(grid)
        & conditions.is_sized(counts.faces)
        & (responses.values.len() == counts.cells)
        & (outs == counts.faces);
    let same = (conditions.number == counts.mesh) & (responses.number == counts.mesh);
    mesh::shape(mesh::sizes_ok(counts), sized, same)?;
    #[tactic(auto, using(mesh::proofs::Facts::small))]
    grid.check_links(conditions.codes)
}

// The coefficient of each face with two cells, with a link, or with a fixed value; +0.0 at the
// others. The lifetime has a name since a `Boundary` holds mesh and conditions at one.
#[tactic(auto, using(mesh::proofs::Facts::refuses, mesh::proofs::Facts::goes_on, crate::proofs::Checked::boundary_passed, mesh::proofs::Values::if_accepted), unfolding(mesh::specs::Pass::if_refused))]
pub fn pressure_face_coefficients_with_boundary<'a>(
    grid: &Grid<'a>,
    conditions: &Conditions<'a>,
    responses: &Field<'a>,
    out: &mut [f64],
) -> Answer
    ensures call { let m = grid_of_lent grid.now in
        let k = conditions_of conditions.now in
        BoundaryCall grid.now.counts m k (field_of responses.now) out.old result out.new }
{
    check_boundary(grid, conditions, responses, out.len())?;
    let coupling = Coupling {
        grid: *grid,
        values: responses.values,
    };
    let boundary = Boundary {
        coupling,
        bounds: conditions.bounds(),
    };
    boundary.pressure_face_coefficients_with_boundary(out)
}

#[tactic(auto, using(mesh::proofs::Facts::in_order, mesh::proofs::Facts::shape_first), unfolding(predictor::specs::Prediction::prediction_checks))]
fn check_prediction(
    grid: &Grid<'_>,
    stencil: &Stencil<'_>,
    fields: &FlowFields<'_>,
    slopes: usize,
    outs: usize,
) -> Answer
    ensures checked { let m = grid_of_lent grid.now in
        let s = stencil.now in
        let l = flow_fields_of fields.now in
        result ≡ prediction_checks grid.now.counts m s.number s.records (slices_of s) l slopes outs }
{
    let counts = grid.counts;
    let sized = coupling::is_grid_sized(grid)
        & stencil.is_sized(counts.cells)
        & fields.are_sized(counts, slopes, outs);
    let same = (stencil.number == counts.mesh)
        & (fields.velocity.number == counts.mesh)
        & (fields.pressure.number == counts.mesh)
        & (fields.responses.number == counts.mesh)
        & (fields.walls.number == counts.mesh);
    let few = mesh::sizes_ok(counts) & (stencil.records <= mesh::LARGEST_COUNT);
    mesh::shape(few, sized, same)?;
    #[tactic(auto, using(mesh::proofs::Facts::small))]
    grid.check_with_equations(stencil.equations, stencil.starts)
}

// The gradient of the pressure from the stencil, and the flux that is predicted with it: of a face
// with two cells that of Rhie and Chow, of any other the wall flux as lent.
#[tactic(auto, using(mesh::proofs::Facts::refuses, mesh::proofs::Facts::goes_on, crate::proofs::Checked::prediction_passed, mesh::proofs::Values::if_accepted), unfolding(mesh::specs::Pass::if_refused))]
pub fn rhie_chow_predicted_flux(
    grid: &Grid<'_>,
    stencil: &Stencil<'_>,
    fields: &FlowFields<'_>,
    gradient: &mut [f64],
    out: &mut [f64],
) -> Answer
    ensures call { let m = grid_of_lent grid.now in
        let s = stencil.now in
        let l = flow_fields_of fields.now in
        let before = gradient.old in
        PredictionCall grid.now.counts m s.number s.records (slices_of s) l before out.old result gradient.new out.new }
{
    check_prediction(grid, stencil, fields, gradient.len(), out.len())?;
    let coupling = Coupling {
        grid: *grid,
        values: fields.responses.values,
    };
    let slope = Slope {
        stencil: *stencil,
        field: fields.pressure.values,
    };
    let momentum = Momentum {
        coupling,
        slope,
        velocity: fields.velocity.values,
        walls: fields.walls.values,
    };
    // No room for coefficients, which this call does not hand out. An `Option` of a slice would be no plainer: `store`
    // asks at each face whether there is room, and would then ask whether there is a slice.
    let mut none = [0.0; 0];
    momentum.rhie_chow_predicted_flux(&mut none, gradient, out)
}

#[tactic(auto, using(mesh::proofs::Facts::in_order, mesh::proofs::Facts::shape_first), unfolding(crate::specs::Corrected::correction_checks))]
fn check_correction(
    faces: &Faces<'_>,
    conditions: &Conditions<'_>,
    predicted: &Field<'_>,
    fields: &Corrections<'_>,
    outs: usize,
) -> Answer
    ensures checked { let m = faces.now in
        let l = fields_of (field_of predicted.now) fields.now in
        result ≡ correction_checks m.counts m.adjacency.now (conditions_of conditions.now) l outs }
{
    let counts = faces.counts;
    let sized = conditions.is_sized(counts.faces)
        & mesh::is_sized(faces.adjacency.len(), 2, counts.faces)
        & (predicted.values.len() == counts.faces)
        & (fields.coefficients.values.len() == counts.faces)
        & (fields.correction.values.len() == counts.cells)
        & (outs == counts.faces);
    let same = (conditions.number == counts.mesh)
        & (predicted.number == counts.mesh)
        & (fields.coefficients.number == counts.mesh)
        & (fields.correction.number == counts.mesh);
    mesh::shape(mesh::sizes_ok(counts), sized, same)?;
    #[tactic(auto, using(mesh::proofs::Facts::small))]
    faces.check_links(conditions.codes)
}

// The predicted flux of each face less its coefficient times the difference of the corrections on
// its two sides; an unlinked one-cell zero-gradient face keeps its flux.
#[tactic(auto, using(mesh::proofs::Facts::refuses, mesh::proofs::Facts::goes_on, crate::proofs::Checked::correction_passed, crate::proofs::Corrected::keeps_promise, mesh::proofs::Values::if_accepted), unfolding(mesh::specs::Pass::if_refused))]
pub fn correct_face_flux_with_boundary(
    faces: &Faces<'_>,
    conditions: &Conditions<'_>,
    predicted: &Field<'_>,
    fields: &Corrections<'_>,
    out: &mut [f64],
) -> Answer
    ensures call { let m = faces.now in
        let k = conditions_of conditions.now in
        let l = fields_of (field_of predicted.now) fields.now in
        CorrectionCall m.counts m.adjacency.now k l out.old result out.new }
    ensures promise { let k = conditions_of conditions.now in
        let l = fields_of (field_of predicted.now) fields.now in
        Promised result faces.now.adjacency.now k l out.new }
{
    check_correction(faces, conditions, predicted, fields, out.len())?;
    let correction = fields.correction_on(faces, conditions);
    correction.correct_face_flux(predicted.values, out)
}

// The same in one slice, which holds the predicted flux before the call and the corrected flux after it.
// Refused by a check it keeps the predicted flux; refused by arithmetic it is +0.0 throughout. `number` is
// the mesh number of the flux.
#[tactic(auto, using(mesh::proofs::Facts::refuses, mesh::proofs::Facts::goes_on, crate::proofs::Checked::correction_passed, crate::proofs::Corrected::keeps_promise, mesh::proofs::Values::if_accepted), unfolding(mesh::specs::Pass::if_refused))]
pub fn correct_face_flux_in_place(
    faces: &Faces<'_>,
    conditions: &Conditions<'_>,
    fields: &Corrections<'_>,
    number: u64,
    flux: &mut [f64],
) -> Answer
    ensures call { let m = faces.now in
        let k = conditions_of conditions.now in
        let l = fields_of (field number flux.old) fields.now in
        CorrectionCall m.counts m.adjacency.now k l flux.old result flux.new }
    ensures promise { let k = conditions_of conditions.now in
        let l = fields_of (field number flux.old) fields.now in
        Promised result faces.now.adjacency.now k l flux.new }
{
    let predicted = Field {
        number,
        values: flux,
    };
    check_correction(faces, conditions, &predicted, fields, flux.len())?;
    let correction = fields.correction_on(faces, conditions);
    inplace::inner::correct_face_flux_in_place(&correction, flux)
}

#[tactic(auto, unfolding(mesh::specs::Answers::shape, corrector::specs::Velocity::velocity_checks))]
fn check_velocity(
    counts: Counts,
    velocity: &Field<'_>,
    responses: &Field<'_>,
    gradient: &Field<'_>,
    outs: usize,
) -> Answer
    ensures checked { let v = field_of velocity.now in
        result ≡ velocity_checks counts v (field_of responses.now) (field_of gradient.now) outs }
{
    let sized = mesh::is_sized(velocity.values.len(), 3, counts.cells)
        & (responses.values.len() == counts.cells)
        & mesh::is_sized(gradient.values.len(), 3, counts.cells)
        & mesh::is_sized(outs, 3, counts.cells);
    let same = (velocity.number == counts.mesh)
        & (responses.number == counts.mesh)
        & (gradient.number == counts.mesh);
    mesh::shape(mesh::sizes_ok(counts), sized, same)
}

// The velocity of each cell less its response times the gradient.
#[tactic(auto, using(mesh::proofs::Facts::refuses, mesh::proofs::Facts::goes_on, crate::proofs::Checked::velocity_passed, mesh::proofs::Values::if_accepted), unfolding(mesh::specs::Pass::if_refused))]
pub fn correct_cell_velocity_from_gradient(
    counts: Counts,
    velocity: &Field<'_>,
    responses: &Field<'_>,
    gradient: &Field<'_>,
    out: &mut [f64],
) -> Answer
    ensures call { let v = field_of velocity.now in
        let g = field_of gradient.now in
        VelocityCall counts v (field_of responses.now) g out.old result out.new }
{
    check_velocity(counts, velocity, responses, gradient, out.len())?;
    let velocity = Velocity {
        values: velocity.values,
        responses: responses.values,
        gradient: gradient.values,
    };
    velocity.correct_cell_velocity_from_gradient(out)
}

#[tactic(auto, using(mesh::proofs::Facts::in_order, mesh::proofs::Facts::shape_first), unfolding(corrector::specs::Metrics::metrics_checks))]
fn check_metrics(
    faces: &Faces<'_>,
    places: &[f64],
    flux: &Field<'_>,
    outs: usize,
    metrics: usize,
) -> Answer
    ensures checked { let m = faces.now in
        result ≡ metrics_checks m.counts m.adjacency.now places.now (field_of flux.now) outs metrics }
{
    let counts = faces.counts;
    let sized = mesh::is_sized(faces.adjacency.len(), 2, counts.faces)
        & mesh::is_sized(places.len(), 4, counts.cells)
        & (flux.values.len() == counts.faces)
        & (outs == counts.cells)
        & (metrics == 2);
    let same = flux.number == counts.mesh;
    mesh::shape(mesh::sizes_ok(counts), sized, same)?;
    #[tactic(auto, using(mesh::proofs::Facts::small))]
    faces.check_sides()
}

// The outflow of each cell, and in `metrics` their root mean square and the largest divergence.
#[tactic(auto, using(mesh::proofs::Facts::refuses, mesh::proofs::Facts::goes_on, crate::proofs::Checked::metrics_passed, mesh::proofs::Values::if_accepted), unfolding(mesh::specs::Pass::if_refused))]
pub fn continuity_metrics(
    faces: &Faces<'_>,
    places: &[f64],
    flux: &Field<'_>,
    outflow: &mut [f64],
    metrics: &mut [f64],
) -> Answer
    ensures call { let m = faces.now in
        let x = field_of flux.now in
        let sums = outflow.old in
        MetricsCall m.counts m.adjacency.now places.now x sums metrics.old result outflow.new metrics.new }
{
    check_metrics(faces, places, flux, outflow.len(), metrics.len())?;
    let flux = Flux {
        faces: *faces,
        values: flux.values,
    };
    corrector::inner::metrics::continuity_metrics(&flux, places, outflow, metrics)
}
