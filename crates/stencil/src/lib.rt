// The least-squares stencil: the equations of every cell and the inverse of its normal matrix.
// Mesh, conditions and slices are lent apart, and checked together by the one function that takes them.
#![tactic(auto)]

ghost use Rattle.std.specs.Prelude.{◌≡◌};
ghost use Rattle.mesh.specs.Bundles.{mesh_of, conditions_of};
ghost use Rattle.numerics.specs.Slices.{lengths_of};
ghost use Rattle.stencil.specs.Bundles.{slices_in, Same};
ghost use Rattle.stencil.specs.Checks.{stencil_checks, StencilCall};

use crate::inner::build::Domain;
use mesh::{Answer, Conditions, Mesh};

pub mod inner;
mod lent;

pub use lent::StencilMut;

// The checks of shape and of the mesh for an entry that builds a stencil; 1 and 2 are of its slices too.
#[tactic(auto, using(mesh::proofs::Facts::in_order, mesh::proofs::Facts::shape_first), unfolding(crate::specs::Checks::stencil_checks))]
fn check_stencil(mesh: &Mesh<'_>, conditions: &Conditions<'_>, out: &StencilMut<'_>) -> Answer
    ensures checked { let m = mesh_of mesh.now in
        let k = conditions_of conditions.now in
        result ≡ stencil_checks m k out.now.records (lengths_of (slices_in out.now)) }
{
    let counts = mesh.counts;
    let small = mesh::sizes_ok(counts) & (out.records <= mesh::LARGEST_COUNT);
    let sized = mesh.is_sized() & conditions.is_sized(counts.faces) & out.is_sized(counts.cells);
    mesh::shape(small, sized, conditions.number == counts.mesh)?;
    // a copy is lent, so that the compiler has the mesh of the caller in registers: from memory it copies it by a
    // function that C would have to bring
    let copy = *mesh;
    #[tactic(auto, using(mesh::proofs::Facts::small))]
    copy.check_whole(conditions.codes)
}

// The equations of every cell as chained records, the first record of each cell, and the nine
// numbers of each inverse.
#[tactic(auto, using(mesh::proofs::Facts::refuses, mesh::proofs::Facts::goes_on, mesh::proofs::Values::if_accepted), unfolding(mesh::specs::Pass::if_refused))]
pub fn least_squares_stencil(
    mesh: &Mesh<'_>,
    conditions: &Conditions<'_>,
    out: &mut StencilMut<'_>,
) -> Answer
    ensures call { let m = mesh_of mesh.now in
        let k = conditions_of conditions.now in
        StencilCall m k out.old.records (slices_in out.old) result (slices_in out.new) }
    ensures same { Same out.old out.new }
{
    check_stencil(mesh, conditions, out)?;
    let domain = Domain {
        mesh: *mesh,
        bounds: conditions.bounds(),
    };
    domain.least_squares_stencil(out)
}
