// The coupling step: stencil, predicted flux, coefficients, the flux of linked faces, correction, outflow and metrics
// in one call. Mesh, conditions, fields and outputs are lent apart, and checked together by the one function that takes them.
#![tactic(auto)]

ghost use Rattle.std.specs.Prelude.{◌≡◌};
ghost use Rattle.scheme.specs.Demand.{Demanded};
ghost use Rattle.step.specs.Bundles.{inputs_of, outputs_of, Same};
ghost use Rattle.step.specs.Call.{step_checks, StepCall};

use crate::work::Work;
use mesh::{Answer, Conditions, Mesh};

mod lent;
mod work;

pub use lent::{Fields, Outputs};

#[tactic(auto, using(mesh::proofs::Facts::in_order, mesh::proofs::Facts::shape_first), unfolding(crate::specs::Call::step_checks))]
fn check_step(
    mesh: &Mesh<'_>,
    conditions: &Conditions<'_>,
    fields: &Fields<'_>,
    out: &Outputs<'_>,
) -> Answer
    ensures checked { let d = inputs_of mesh.now conditions.now out.now.records fields.now in
        result ≡ step_checks d (outputs_of out.now) }
{
    let counts = mesh.counts;
    let sized = mesh.is_sized()
        & conditions.is_sized(counts.faces)
        & fields.are_sized(counts)
        & out.are_sized(counts);
    let same = (conditions.number == counts.mesh) & fields.are_of(counts.mesh);
    mesh::shape(
        mesh::sizes_ok(counts) & (out.records <= mesh::LARGEST_COUNT),
        sized,
        same,
    )?;
    #[tactic(auto, using(mesh::proofs::Facts::small))]
    mesh.check_whole(conditions.codes)
}

// One step of the coupling.
#[tactic(auto, using(mesh::proofs::Facts::refuses, passes::proofs::Stages::never_accepted), unfolding(mesh::specs::Answers::or_else, mesh::specs::Pass::if_refused))]
pub fn step(
    mesh: &Mesh<'_>,
    conditions: &Conditions<'_>,
    fields: &Fields<'_>,
    out: &mut Outputs<'_>,
) -> Answer
    ensures call { let d = inputs_of mesh.now conditions.now out.old.records fields.now in
        StepCall d (outputs_of out.old) result (outputs_of out.new) }
    ensures demanded { let d = inputs_of mesh.now conditions.now out.old.records fields.now in
        Demanded result d out.new.predicted.now out.new.flux.now out.new.outflow.now }
    ensures same { Same out.old out.new }
{
    check_step(mesh, conditions, fields, out)?;
    let work = Work {
        mesh: *mesh,
        conditions: *conditions,
        fields: *fields,
        records: out.records,
    };
    work.carry_out(out)
}
