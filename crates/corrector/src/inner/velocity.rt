// The corrected velocity of all cells.
ghost use Rattle.std.specs.Prelude.{◌≡◌, ◌*◌, ◌<◌, length};
ghost use Rattle.mesh.specs.Pass.{handed_out};
ghost use Rattle.passes.specs.Staged.{Passes};
ghost use Rattle.corrector.specs.Velocity.{corrected_at, velocity_answer, corrected_velocities};

use mesh::Answer;
use passes::settle;
use refusal::Reason;
use vector::Vec3;
use vector::inner::{put_vector, vector_at};

// The velocity of each cell, its response, and the gradient of the pressure correction.
#[derive(Clone, Copy)]
pub struct Velocity<'a> {
    pub values: &'a [f64],
    pub responses: &'a [f64],
    pub gradient: &'a [f64],
    pub ghost sized: { (length values.now ≡ 3 * length responses.now)
        × (length gradient.now ≡ 3 * length responses.now) },
}

impl<'a> Velocity<'a> {
    // The corrected velocity of the cell c.
    #[tactic(auto, unfolding(crate::specs::Velocity::corrected_at))]
    fn corrected_at(&self, c: usize) -> Vec3
        requires { c < length self.now.responses.now }
        ensures { result ≡ corrected_at self.now.values.now self.now.responses.now self.now.gradient.now c }
    {
        let b = 3 * c;
        coupling::corrected_velocity(
            vector_at(self.values, b),
            self.responses[c],
            vector_at(self.gradient, b),
        )
    }

    // Writes the velocities up to the first refusal.
    #[tactic(auto, unfolding(mesh::specs::Answers::at), using(vector::proofs::Vectors::finish))]
    fn correct(&self, out: &mut [f64]) -> Answer
        requires out_len { length out.old ≡ 3 * length self.now.responses.now }
        ensures passes { let v = self.now in
            let new = corrected_velocities v.values.now v.responses.now v.gradient.now in
            Passes (velocity_answer v.values.now v.responses.now v.gradient.now) new result out.new }
    {
        for c in 0..self.responses.len() {
            let v = self.corrected_at(c);
            if !coupling::stands(self.responses[c], v) {
                return Err(Reason::BadDiagonal.at(c));
            }
            put_vector(out, c, v);
        }
        Ok(())
    }

    #[tactic(auto, using(passes::proofs::Stages::handed))]
    pub fn correct_cell_velocity_from_gradient(&self, out: &mut [f64]) -> Answer
        requires out_len { length out.old ≡ 3 * length self.now.responses.now }
        ensures value { let v = self.now in
            result ≡ velocity_answer v.values.now v.responses.now v.gradient.now }
        ensures contents { let v = self.now in
            let new = corrected_velocities v.values.now v.responses.now v.gradient.now in
            out.new ≡ handed_out result (length out.old) new }
    {
        let answer = self.correct(out);
        settle(out, answer)
    }
}
