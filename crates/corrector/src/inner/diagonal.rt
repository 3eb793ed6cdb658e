// The inverse of the momentum diagonal.
ghost use Rattle.std.specs.Prelude.{◌≡◌, length};
ghost use Rattle.mesh.specs.Pass.{handed_out};
ghost use Rattle.corrector.specs.Diagonal.{inverse_answer, inverses};

use mesh::Answer;
use passes::settle;

#[tactic(auto, unfolding(crate::specs::Diagonal::inverse_at), using(passes::proofs::Stages::handed))]
pub fn momentum_inverse_diagonal(diagonal: &[f64], out: &mut [f64]) -> Answer
    requires { length out.old ≡ length diagonal.now }
    ensures value { result ≡ inverse_answer diagonal.now }
    ensures contents { out.new ≡ handed_out result (length diagonal.now) (inverses diagonal.now) }
{
    let answer = passes::fill(out, |c, _| coupling::inverse_diagonal(diagonal[c]));
    settle(out, answer)
}
