// The corrected flux of all faces.
ghost use Rattle.std.specs.Prelude.{◌≡◌, ◌<◌, length};
ghost use Rattle.mesh.specs.Pass.{handed_out};
ghost use Rattle.corrector.specs.Correction.{correcting_lent, CorrectableFaces, wall_flux, corrected_flux_of, correction_answer, corrected_fluxes};

use chain::inner::{first_of, named_at};
use mesh::{Answer, Bounds, Condition, Faces, Outcome};
use passes::settle;
use refusal::Reason;

// The coefficients of faces and the pressure corrections of their cells, which passed the checks.
#[derive(Clone, Copy)]
pub struct Correction<'a> {
    pub faces: Faces<'a>,
    pub bounds: Bounds<'a>,
    pub coefficients: &'a [f64],
    pub values: &'a [f64],
    pub ghost correctable: { let n = faces.counts.faces in
        let codes = bounds.codes.now in
        CorrectableFaces n faces.adjacency.now codes bounds.values.now coefficients.now values.now },
}

// The flux of a face with one cell and no link.
#[tactic(auto, unfolding(crate::specs::Correction::wall_flux))]
fn wall_flux(condition: Condition, predicted: f64, k: f64, own: f64) -> Outcome
    ensures { result ≡ wall_flux condition predicted k own }
{
    match condition {
        Condition::Absent => Err(Reason::NoCondition),
        Condition::Fixed(v) => coupling::corrected_flux(predicted, k, v, own),
        Condition::ZeroGradient => Ok(predicted),
    }
}

impl<'a> Correction<'a> {
    // What the predicted flux of the face f is corrected to: by its neighbour, else by its link, else by
    // its condition.
    pub fn flux_at(&self, f: usize, predicted: f64) -> Outcome
        requires f_in_bounds { f < self.now.faces.counts.faces }
        ensures answer { let m = self.now in
            let a = m.faces.adjacency.now in
            let b = m.bounds in
            let x = m.values.now in
            result ≡ corrected_flux_of a b.codes.now b.values.now m.coefficients.now x f predicted }
    {
        let k = self.coefficients[f];
        let own = self.values[first_of(self.faces.adjacency, f)];
        if let Some(n) = named_at(self.faces.adjacency, f) {
            return coupling::corrected_flux(predicted, k, self.values[n], own);
        }
        if let Some(peer) = self.bounds.peer(f) {
            let beyond = first_of(self.faces.adjacency, peer);
            return coupling::corrected_flux(predicted, k, self.values[beyond], own);
        }
        wall_flux(self.bounds.condition_at(f), predicted, k, own)
    }

    #[tactic(auto, unfolding(crate::specs::Correction::corrected_flux_at), using(passes::proofs::Stages::handed))]
    pub fn correct_face_flux(&self, predicted: &[f64], out: &mut [f64]) -> Answer
        requires predicted_len { length predicted.now ≡ self.now.faces.counts.faces }
        requires out_len { length out.old ≡ self.now.faces.counts.faces }
        ensures answer { let m = self.now in
            let d = correcting_lent m.faces m.bounds predicted.now m.coefficients.now m.values.now in
            result ≡ correction_answer d }
        ensures contents { let m = self.now in
            let d = correcting_lent m.faces m.bounds predicted.now m.coefficients.now m.values.now in
            out.new ≡ handed_out result (length predicted.now) (corrected_fluxes d) }
    {
        let answer = passes::fill(out, |f, _| self.flux_at(f, predicted[f]));
        settle(out, answer)
    }
}
