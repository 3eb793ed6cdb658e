// Operators on a mesh: the gradient from a lent stencil, and the outflow of each cell.
// Counts, stencil and field, and faces and flux, are lent apart, and checked together by the one function that takes them.
#![tactic(auto)]

ghost use Rattle.std.specs.Prelude.{◌≡◌};
ghost use Rattle.numerics.specs.Bundles.{slices_of};
ghost use Rattle.numerics.specs.Gradient.{lent_checks, GradientCall};
ghost use Rattle.numerics.specs.Outflow.{outflow_checks, OutflowCall, Scattered};

use crate::inner::gradient::Slope;
use crate::inner::outflow::Flux;
use chain::Form;
use mesh::{Answer, Counts, Faces, Field};
use refusal::Reason;

pub mod inner;
mod lent;

pub use lent::{Lengths, Stencil};

// The checks 1, 2, 3 and 5 of a lent stencil and a cell field; `sized` says whether the output has its
// length.
#[tactic(auto, using(mesh::proofs::Facts::in_order, mesh::proofs::Facts::shape_first), unfolding(crate::specs::Gradient::lent_checks))]
pub fn check_gradient(
    counts: Counts,
    stencil: &Stencil<'_>,
    field: &Field<'_>,
    sized: bool,
) -> Answer
    ensures checked { let s = stencil.now in
        result ≡ lent_checks counts s.number s.records (slices_of s) field.now.number field.now.values.now sized }
{
    let small = mesh::sizes_ok(counts) & (stencil.records <= mesh::LARGEST_COUNT);
    let sized = stencil.is_sized(counts.cells) & (field.values.len() == counts.cells) & sized;
    let same = (stencil.number == counts.mesh) & (field.number == counts.mesh);
    mesh::shape(small, sized, same)?;
    let cell = chain::lowest_broken(
        counts.cells + 2,
        stencil.equations,
        Form::Single,
        stencil.starts,
    );
    mesh::at(Reason::BrokenChain, cell)
}

// The gradient of a cell field from a stencil, three numbers a cell.
#[tactic(auto, using(crate::proofs::Slopes::slopes), unfolding(mesh::specs::Pass::if_refused))]
pub fn least_squares_gradient(
    counts: Counts,
    stencil: &Stencil<'_>,
    field: &Field<'_>,
    out: &mut [f64],
) -> Answer
    ensures call { let s = stencil.now in
        GradientCall counts s.number s.records (slices_of s) field.now.number field.now.values.now out.old result out.new }
{
    let sized = mesh::is_sized(out.len(), 3, counts.cells);
    check_gradient(counts, stencil, field, sized)?;
    let slope = Slope {
        stencil: *stencil,
        field: field.values,
    };
    slope.least_squares_gradient(out);
    Ok(())
}

#[tactic(auto, using(mesh::proofs::Facts::in_order, mesh::proofs::Facts::shape_first), unfolding(crate::specs::Outflow::outflow_checks))]
fn check_flux(faces: &Faces<'_>, flux: &Field<'_>, outs: usize) -> Answer
    ensures checked { let m = faces.now in
        result ≡ outflow_checks m.counts m.adjacency.now flux.now.number flux.now.values.now outs }
{
    let counts = faces.counts;
    let sized = mesh::is_sized(faces.adjacency.len(), 2, counts.faces)
        & (flux.values.len() == counts.faces)
        & (outs == counts.cells);
    mesh::shape(mesh::sizes_ok(counts), sized, flux.number == counts.mesh)?;
    #[tactic(auto, using(mesh::proofs::Facts::small))]
    faces.check_sides()
}

// Each face's flux added to its owner's outflow and taken from its neighbour's, in face order from
// +0.0.
#[tactic(auto, using(crate::proofs::Flows::flows, crate::proofs::Scatter::sums_its_terms), unfolding(mesh::specs::Pass::if_refused))]
pub fn integrated_divergence(faces: &Faces<'_>, flux: &Field<'_>, out: &mut [f64]) -> Answer
    ensures call { let m = faces.now in
        OutflowCall m.counts m.adjacency.now flux.now.number flux.now.values.now out.old result out.new }
    ensures terms { let m = faces.now in
        Scattered result m.counts.cells m.adjacency.now flux.now.values.now out.new }
{
    check_flux(faces, flux, out.len())?;
    let flux = Flux {
        faces: *faces,
        values: flux.values,
    };
    flux.integrated_divergence(out);
    Ok(())
}
