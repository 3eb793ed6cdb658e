// Gradients by Gauss: from values of the faces, and of a pressure whose face values are interpolated.
#![tactic(auto)]

ghost use Rattle.std.specs.Prelude.{◌≡◌};
ghost use Rattle.mesh.specs.Bundles.{conditions_of};
ghost use Rattle.coupling.specs.Grid.{grid_of_lent, field_of};
ghost use Rattle.gauss.specs.Calls.{field_checks, bounded_checks, GaussCall, PressureCall, PressureAloneCall};

use crate::inner::gradient::Gauss;
use crate::inner::pressure;
use mesh::{Answer, Conditions, Field, Grid};
use predictor::inner::boundary::Boundary;
use predictor::inner::coefficients::Coupling;

pub mod inner;

// For a field of so many items; `outs` is the length of the output.
#[tactic(auto, using(mesh::proofs::Facts::in_order, mesh::proofs::Facts::shape_first), unfolding(crate::specs::Calls::field_checks))]
fn check_field(grid: &Grid<'_>, field: &Field<'_>, items: usize, outs: usize) -> Answer
    ensures checked { let m = grid_of_lent grid.now in
        result ≡ field_checks grid.now.counts m (field_of field.now) items outs }
{
    let counts = grid.counts;
    let sized = coupling::is_grid_sized(grid)
        & (field.values.len() == items)
        & mesh::is_sized(outs, 3, counts.cells);
    mesh::shape(mesh::sizes_ok(counts), sized, field.number == counts.mesh)?;
    #[tactic(auto, using(mesh::proofs::Facts::small))]
    grid.check_sides()
}

// The gradient of each cell, three numbers: the sum over its faces, in their order from +0.0, of the area vector out of
// the cell times the face's value, over the cell's volume. BadVolume comes before any sum.
#[tactic(auto, using(mesh::proofs::Facts::refuses, mesh::proofs::Facts::goes_on, crate::proofs::Passed::field_passed, mesh::proofs::Values::if_accepted), unfolding(mesh::specs::Pass::if_refused))]
pub fn gauss_gradient_from_faces(grid: &Grid<'_>, values: &Field<'_>, out: &mut [f64]) -> Answer
    ensures call { let m = grid_of_lent grid.now in
        GaussCall grid.now.counts m (field_of values.now) out.old result out.new }
{
    check_field(grid, values, grid.counts.faces, out.len())?;
    let gauss = Gauss { grid: *grid };
    gauss.gauss_gradient(out, |f| values.values[f])
}

#[tactic(auto, using(mesh::proofs::Facts::in_order, mesh::proofs::Facts::shape_first), unfolding(crate::specs::Calls::bounded_checks))]
fn check_bounded(
    grid: &Grid<'_>,
    conditions: &Conditions<'_>,
    pressure: &Field<'_>,
    outs: usize,
) -> Answer
    ensures checked { let m = grid_of_lent grid.now in
        let k = conditions_of conditions.now in
        result ≡ bounded_checks grid.now.counts m k (field_of pressure.now) outs }
{
    let counts = grid.counts;
    let sized = coupling::is_grid_sized(grid)
        & conditions.is_sized(counts.faces)
        & (pressure.values.len() == counts.cells)
        & mesh::is_sized(outs, 3, counts.cells);
    let same = (conditions.number == counts.mesh) & (pressure.number == counts.mesh);
    mesh::shape(mesh::sizes_ok(counts), sized, same)?;
    #[tactic(auto, using(mesh::proofs::Facts::small))]
    grid.check_links(conditions.codes)
}

// That of a pressure: a face between two cells, or linked, has what is interpolated at its distances, a fixed-value face
// its value, and any other its cell's pressure, so that no condition need be there. The lifetime has a name since a
// `Boundary` holds mesh and conditions at one.
#[tactic(auto, using(mesh::proofs::Facts::refuses, mesh::proofs::Facts::goes_on, crate::proofs::Passed::bounded_passed, mesh::proofs::Values::if_accepted), unfolding(mesh::specs::Pass::if_refused))]
pub fn pressure_coupling_gradient<'a>(
    grid: &Grid<'a>,
    conditions: &Conditions<'a>,
    pressure: &Field<'a>,
    out: &mut [f64],
) -> Answer
    ensures call { let m = grid_of_lent grid.now in
        let k = conditions_of conditions.now in
        PressureCall grid.now.counts m k (field_of pressure.now) out.old result out.new }
{
    check_bounded(grid, conditions, pressure, out.len())?;
    let coupling = Coupling {
        grid: *grid,
        values: pressure.values,
    };
    let sides = Boundary {
        coupling,
        bounds: conditions.bounds(),
    };
    let gauss = Gauss { grid: *grid };
    gauss.gauss_gradient(out, |f| pressure::face_pressure(&sides, f))
}

// The same with no conditions and no links.
#[tactic(auto, using(mesh::proofs::Facts::refuses, mesh::proofs::Facts::goes_on, crate::proofs::Passed::cells_passed, mesh::proofs::Values::if_accepted), unfolding(mesh::specs::Pass::if_refused))]
pub fn pressure_coupling_gradient_without_conditions(
    grid: &Grid<'_>,
    pressure: &Field<'_>,
    out: &mut [f64],
) -> Answer
    ensures call { let m = grid_of_lent grid.now in
        PressureAloneCall grid.now.counts m (field_of pressure.now) out.old result out.new }
{
    check_field(grid, pressure, grid.counts.cells, out.len())?;
    let cells = Coupling {
        grid: *grid,
        values: pressure.values,
    };
    let gauss = Gauss { grid: *grid };
    gauss.gauss_gradient(out, |f| pressure::pressure_without_conditions(&cells, f))
}
