// Gradients handed out as a lent slice of records: one that is formed as numbers, whichever it is, and that of a stencil,
// formed as records at once, a thin function over the number form of `numerics`.
// Counts, stencil and field are lent apart, as there.
#![tactic(auto)]

ghost use Rattle.std.specs.Prelude.{◌≡◌, ◌*◌};
ghost use Rattle.numerics.specs.Bundles.{slices_of};
ghost use Rattle.numerics.specs.Gradient.{gradient_checks};
ghost use Rattle.records.specs.Records.{RecordsCall, HandedCall};

use mesh::{Answer, Counts, Field};
use numerics::Stencil;
use numerics::inner::gradient::Slope;
use refusal::Reason;
use vector::Vec3;
use vector::inner::vector_at;

// The checks of the number form; `outs` is how many records the output has.
#[tactic(auto, using(crate::proofs::Records::eqb_thrice))]
fn check(counts: Counts, stencil: &Stencil<'_>, field: &Field<'_>, outs: usize) -> Answer
    ensures checked { let s = stencil.now in
        let x = field.now in
        result ≡ gradient_checks counts s.number s.records (slices_of s) x.number x.values.now (3 * outs) }
{
    numerics::check_gradient(counts, stencil, field, outs == counts.cells)
}

// The gradient of a cell field from a stencil, a record a cell.
#[tactic(auto, using(crate::proofs::Written::sloped, crate::proofs::Written::written), unfolding(mesh::specs::Pass::if_refused))]
pub fn least_squares_gradient(
    counts: Counts,
    stencil: &Stencil<'_>,
    field: &Field<'_>,
    out: &mut [Vec3],
) -> Answer
    ensures call { let s = stencil.now in
        let x = field.now in
        RecordsCall counts s.number s.records (slices_of s) x.number x.values.now out.old result out.new }
{
    check(counts, stencil, field, out.len())?;
    let slope = Slope {
        stencil: *stencil,
        field: field.values,
    };
    for (c, gradient) in out.iter_mut().enumerate() {
        *gradient = slope.gradient_at(c);
    }
    Ok(())
}

// The numbers of a gradient as records, three of them each.
#[tactic(auto, using(crate::proofs::Records::three_each, crate::proofs::Records::handed), unfolding(mesh::specs::Pass::if_refused))]
pub fn hand_out(numbers: &[f64], out: &mut [Vec3]) -> Answer
    ensures call { HandedCall numbers.now out.old result out.new }
{
    let sized = mesh::is_sized(numbers.len(), 3, out.len());
    mesh::pass(Reason::WrongLength, sized)?;
    for (i, record) in out.iter_mut().enumerate() {
        *record = vector_at(numbers, 3 * i);
    }
    Ok(())
}
