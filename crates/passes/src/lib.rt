// Passes that a face or a cell may refuse: what a pass hands out, and two sequences of refusals in
// one pass.
#![tactic(auto)]

ghost use Rattle.std.specs.Prelude.{◌≡◌, ◌<◌, ℕ, length, get_or, set};
ghost use Rattle.std.specs.Float.{nan};
ghost use Rattle.mesh.specs.Answers.{Outcome};
ghost use Rattle.mesh.specs.Pass.{first_refusal, values_of, handed_out};
ghost use Rattle.passes.specs.Staged.{Passes, staged, late_of};

use mesh::{Answer, Outcome};
use refusal::Reason;

// What a face comes to: refused in the first sequence, or what the second makes of it.
pub type Stage = Result<Outcome, Reason>;

// Of a face that refuses in the first sequence alone. `early` and `late` say which of the two an `Outcome` stands
// in; a `From` could say one of them alone.
#[tactic(auto, unfolding(crate::specs::Staged::staged))]
pub fn early(o: Outcome) -> Stage
    ensures { result ≡ staged o o }
{
    Ok(Ok(o?))
}

// Of one that refuses in the second alone.
pub fn late(o: Outcome) -> Stage
    ensures { result ≡ late_of o }
{
    Ok(o)
}

// Writes what each item comes to over what stood in its place, up to the first refusal. It clears nothing: a step
// clears all its outputs together, and who hands out one alone settles it.
pub fn fill<F: Fn(usize, f64) -> Outcome>(out: &mut [f64], item: F) -> Answer
    requires callable { (i : ℕ) → i < length out.old → F.pre item i (get_or out.old i nan) }
    ensures fills { let old = out.old in
        let n = length old in
        (g : ℕ → Outcome) → ((i : ℕ) (r : Outcome) → i < n → F.post item i (get_or old i nan) r → r ≡ g i) →
        Passes (first_refusal g n) (values_of g n) result out.new }
{
    for (i, x) in out.iter_mut().enumerate() {
        *x = item(i, *x).map_err(|reason| reason.at(i))?;
    }
    Ok(())
}

// Writes v at i, where there is room.
pub fn store(out: &mut [f64], i: usize, v: f64)
    ensures { out.new ≡ set out.old i v }
{
    if i < out.len() {
        out[i] = v;
    }
}

// Hands out what a pass has left: +0.0 throughout where it refuses. A `?` would return before that.
#[tactic(auto, unfolding(mesh::specs::Pass::handed_out))]
pub fn settle(out: &mut [f64], a: Answer) -> Answer
    ensures value { result ≡ a }
    ensures out_after { out.new ≡ handed_out a (length out.old) out.old }
{
    if let Err(refusal) = a {
        mesh::clear(out);
        return Err(refusal);
    }
    Ok(())
}
