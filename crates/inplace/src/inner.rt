// The work of the entry, for callers that have made the checks. `flux` holds the predicted flux before
// a call and the corrected flux after it.
ghost use Rattle.std.specs.Prelude.{◌≡◌, length};
ghost use Rattle.mesh.specs.Pass.{handed_out};
ghost use Rattle.corrector.specs.Correction.{correcting_lent, correction_answer, corrected_fluxes};

use corrector::inner::correction::Correction;
use mesh::Answer;
use passes::settle;

// A face reads no flux but its own.
#[tactic(auto, unfolding(corrector::specs::Correction::corrected_flux_at), using(passes::proofs::Stages::handed))]
pub fn correct_face_flux_in_place(with: &Correction<'_>, flux: &mut [f64]) -> Answer
    requires { length flux.old ≡ with.now.faces.counts.faces }
    ensures answer { let w = with.now in
        let m = correcting_lent w.faces w.bounds flux.old w.coefficients.now w.values.now in
        result ≡ correction_answer m }
    ensures contents { let w = with.now in
        let m = correcting_lent w.faces w.bounds flux.old w.coefficients.now w.values.now in
        flux.new ≡ handed_out result (length flux.old) (corrected_fluxes m) }
{
    let answer = passes::fill(flux, |f, predicted| with.flux_at(f, predicted));
    settle(flux, answer)
}
