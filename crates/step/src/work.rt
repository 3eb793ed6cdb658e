// The parts of the step in their order, for a caller that has made the checks.
ghost use Rattle.std.specs.Prelude.{◌≡◌, ◌*◌, length};
ghost use Rattle.mesh.specs.Answers.{or_else, accepted};
ghost use Rattle.mesh.specs.Bundles.{grid_in};
ghost use Rattle.mesh.specs.Mesh.{bounds_of};
ghost use Rattle.mesh.specs.Pass.{if_refused};
ghost use Rattle.stencil.specs.Lent.{lent_of};
ghost use Rattle.stencil.specs.Stencil.{SlicesSized, stencil_answer};
ghost use Rattle.predictor.specs.Boundary.{Begun, boundary_answer};
ghost use Rattle.predictor.specs.Prediction.{prediction_answer};
ghost use Rattle.linked.specs.Linked.{linked_answer};
ghost use Rattle.corrector.specs.Correction.{correction_answer};
ghost use Rattle.corrector.specs.Metrics.{metrics_of, metrics_answer, metrics_numbers};
ghost use Rattle.scheme.specs.Step.{finite_answer, work_answer, Lendable, grid_of, flow_of, stencil_of, gradient_of, unlinked_of, coefficients_of, links_of, predicted_of, correcting_of, fluxes_of, outflows_of};
ghost use Rattle.step.specs.Bundles.{inputs_of};
ghost use Rattle.scheme.specs.Demand.{Demanded};
ghost use Rattle.step.specs.Call.{IfAccepted, Binary64, cleared, results, OutputsFit};

use crate::{Fields, Outputs};
use corrector::inner::correction::Correction;
use linked::inner::prediction::Links;
use mesh::{Answer, Conditions, Mesh};
use numerics::Stencil;
use numerics::inner::gradient::Slope;
use numerics::inner::outflow::Flux;
use predictor::inner::boundary::Boundary;
use predictor::inner::coefficients::Coupling;
use predictor::inner::prediction::{Flow, Momentum};
use refusal::Reason;
use stencil::StencilMut;
use stencil::inner::build::Domain;

// What a step is lent, once it has passed the checks, with room for so many records.
#[derive(Clone, Copy)]
pub(crate) struct Work<'a> {
    pub(crate) mesh: Mesh<'a>,
    pub(crate) conditions: Conditions<'a>,
    pub(crate) fields: Fields<'a>,
    pub(crate) records: usize,
    ghost lendable: { Lendable (inputs_of mesh conditions records fields) },
}

// BadCoefficient with index 0 where an outflow is not finite.
#[tactic(auto, unfolding(scheme::specs::Step::spilled))]
fn finite_outflows(outflow: &[f64]) -> Answer
    ensures { result ≡ finite_answer outflow.now }
{
    match chain::lowest(outflow.len(), |c| !binary64::finite(outflow[c])) {
        None => Ok(()),
        Some(_) => Err(Reason::BadCoefficient.at(0)),
    }
}

// The slice as it is lent: each number in it is one of binary64, as its type says.
fn numbers(values: &[f64]) -> &[f64]
    ensures same { result ≡ values.entry }
    ensures numbers { Binary64 values.now }
{
    values
}

// What is written is lent before the checks: that it has its lengths is asked by each method, as in `stencil`.
impl<'a> Work<'a> {
    ghost use Rattle.numerics.specs.Bundles.{slices_of};
    ghost use Rattle.stencil.specs.Bundles.{slices_in};
    ghost use Rattle.stencil.specs.Bundles.{Same as SameSlices};
    ghost use Rattle.step.specs.Bundles.{outputs_of, Same};
    ghost use Rattle.step.specs.Work.{inputs_in};

    fn coupling(&self) -> Coupling<'a>
        ensures grid { result.grid ≡ grid_in self.now.mesh }
        ensures responses { result.values ≡ self.now.fields.responses.values }
    {
        Coupling {
            grid: self.mesh.grid(),
            values: self.fields.responses.values,
        }
    }

    fn build(&self, slices: &mut StencilMut<'_>) -> Answer
        requires sized { let d = inputs_in self.now in
            (slices.old.records ≡ d.records) × SlicesSized (lent_of d.mesh d.conditions) d.records (slices_in slices.old) }
        ensures answer { let d = inputs_in self.now in
            result ≡ stencil_answer (lent_of d.mesh d.conditions) d.records }
        ensures contents { let d = inputs_in self.now in
            slices_in slices.new ≡ stencil_of d }
        ensures sized { let d = inputs_in self.now in
            SlicesSized (lent_of d.mesh d.conditions) d.records (slices_in slices.new) }
        ensures same { SameSlices slices.old slices.new }
    {
        let lent = Domain {
            mesh: self.mesh,
            bounds: self.conditions.bounds(),
        };
        lent.least_squares_stencil(slices)
    }

    // The gradient of the pressure by the stencil, and the flux that is predicted with that and with the
    // coefficients of the faces with two cells, which are left in `coefficients`.
    fn predict(
        &self,
        stencil: &Stencil<'_>,
        coefficients: &mut [f64],
        gradient: &mut [f64],
        predicted: &mut [f64],
    ) -> Answer
        requires built { let d = inputs_in self.now in
            let l = lent_of d.mesh d.conditions in
            (stencil_answer l d.records ≡ accepted) × (stencil.now.records ≡ d.records) × (slices_of stencil.now ≡ stencil_of d) }
        requires sized { let d = inputs_in self.now in
            SlicesSized (lent_of d.mesh d.conditions) d.records (slices_of stencil.now) }
        requires long { let n = self.now.mesh.counts in
            (length coefficients.old ≡ n.faces) × (length gradient.old ≡ 3 * n.cells) × (length predicted.old ≡ n.faces) }
        ensures answer { let d = inputs_in self.now in
            result ≡ prediction_answer (grid_of d) (flow_of d) d.walls.values }
        ensures contents { let d = inputs_in self.now in
            IfAccepted result ((gradient.new ≡ gradient_of d) × (predicted.new ≡ unlinked_of d)) }
        ensures begun { let d = inputs_in self.now in
            IfAccepted result (Begun (grid_of d) d.responses.values coefficients.new) }
        ensures walls { Binary64 self.now.fields.walls.values.now }
    {
        let slope = Slope {
            stencil: *stencil,
            field: self.fields.pressure.values,
        };
        let momentum = Momentum {
            coupling: self.coupling(),
            slope,
            velocity: self.fields.velocity.values,
            walls: numbers(self.fields.walls.values),
        };
        momentum.rhie_chow_predicted_flux(coefficients, gradient, predicted)
    }

    // The coefficients of all faces, of which those with two cells stand there already.
    fn complete(&self, coefficients: &mut [f64]) -> Answer
        requires begun { let d = inputs_in self.now in
            Begun (grid_of d) d.responses.values coefficients.old }
        requires long { length coefficients.old ≡ self.now.mesh.counts.faces }
        ensures answer { let d = inputs_in self.now in
            result ≡ boundary_answer (grid_of d) (bounds_of d.conditions) d.responses.values d.mesh.counts.faces }
        ensures contents { IfAccepted result (coefficients.new ≡ coefficients_of (inputs_in self.now)) }
    {
        let boundary = Boundary {
            coupling: self.coupling(),
            bounds: self.conditions.bounds(),
        };
        boundary.complete(coefficients)
    }

    // The flux that is predicted at linked faces with these coefficients, where the wall flux stands.
    fn link<'o>(
        &self,
        gradient: &'o [f64],
        coefficients: &'o [f64],
        predicted: &mut [f64],
    ) -> Answer
        requires gradient { gradient.now ≡ gradient_of (inputs_in self.now) }
        requires coefficients { coefficients.now ≡ coefficients_of (inputs_in self.now) }
        requires unlinked { predicted.old ≡ unlinked_of (inputs_in self.now) }
        requires long { length gradient.now ≡ 3 * self.now.mesh.counts.cells }
        ensures answer { let d = inputs_in self.now in
            result ≡ linked_answer (links_of d) (unlinked_of d) }
        ensures contents { IfAccepted result (predicted.new ≡ predicted_of (inputs_in self.now)) }
    {
        let flow = Flow {
            coupling: self.coupling(),
            velocity: self.fields.velocity.values,
            pressure: self.fields.pressure.values,
            gradient,
            walls: self.fields.walls.values,
        };
        let links = Links {
            flow,
            bounds: self.conditions.bounds(),
            coefficients,
        };
        links.predict(predicted)
    }

    // The flux that is corrected with these coefficients.
    fn correct(&self, predicted: &[f64], coefficients: &[f64], flux: &mut [f64]) -> Answer
        requires predicted { predicted.now ≡ predicted_of (inputs_in self.now) }
        requires coefficients { coefficients.now ≡ coefficients_of (inputs_in self.now) }
        requires long { length flux.old ≡ self.now.mesh.counts.faces }
        ensures answer { result ≡ correction_answer (correcting_of (inputs_in self.now)) }
        ensures contents { IfAccepted result (flux.new ≡ fluxes_of (inputs_in self.now)) }
    {
        let correction = Correction {
            faces: self.mesh.grid().faces(),
            bounds: self.conditions.bounds(),
            coefficients,
            values: self.fields.correction.values,
        };
        correction.correct_face_flux(predicted, flux)
    }

    // The outflows of the corrected flux, and their metrics.
    #[tactic(auto, using(mesh::proofs::Facts::refuses, passes::proofs::Stages::never_accepted), unfolding(mesh::specs::Answers::or_else))]
    fn measure(&self, flux: &[f64], outflow: &mut [f64], metrics: &mut [f64]) -> Answer
        requires flux { let d = inputs_in self.now in
            flux.now ≡ fluxes_of d }
        requires long { (length outflow.old ≡ self.now.mesh.counts.cells) × (length metrics.old ≡ 2) }
        ensures answer { let d = inputs_in self.now in
            let sums = outflows_of d in
            result ≡ or_else (metrics_answer (metrics_of d.mesh.places sums)) (finite_answer sums) }
        ensures contents { let d = inputs_in self.now in
            let sums = outflows_of d in
            IfAccepted result ((outflow.new ≡ sums) × (metrics.new ≡ metrics_numbers (metrics_of d.mesh.places sums))) }
        ensures numbers { Binary64 flux.now }
    {
        let flux = Flux {
            faces: self.mesh.grid().faces(),
            values: flux,
        };
        corrector::inner::metrics::continuity_metrics(&flux, self.mesh.places, outflow, metrics)?;
        finite_outflows(outflow)
    }

    // All parts up to the first refusal.
    #[tactic(auto, using(mesh::proofs::Facts::refuses, passes::proofs::Stages::never_accepted), unfolding(mesh::specs::Answers::or_else))]
    fn run(&self, out: &mut Outputs<'_>) -> Answer
        requires fit { OutputsFit self.now.mesh.counts self.now.records (outputs_of out.old) }
        ensures answer { result ≡ work_answer (inputs_in self.now) }
        ensures contents { let d = inputs_in self.now in
            IfAccepted result (outputs_of out.new ≡ results d) }
        ensures numbers { IfAccepted result (Binary64 out.new.flux.now) }
        ensures walls { IfAccepted result (Binary64 self.now.fields.walls.values.now) }
        ensures fit { OutputsFit self.now.mesh.counts self.now.records (outputs_of out.new) }
        ensures same { Same out.old out.new }
    {
        let gradient = &mut *out.gradient;
        let predicted = &mut *out.predicted;
        let coefficients = &mut *out.coefficients;
        let flux = &mut *out.flux;
        let outflow = &mut *out.outflow;
        let metrics = &mut *out.metrics;
        let mut slices = StencilMut {
            records: self.records,
            starts: &mut *out.starts,
            equations: &mut *out.equations,
            weights: &mut *out.weights,
            inverses: &mut *out.inverses,
        };
        self.build(&mut slices)?;
        let stencil = slices.stencil(self.mesh.counts.mesh);
        self.predict(&stencil, coefficients, gradient, predicted)?;
        self.complete(coefficients)?;
        self.link(gradient, coefficients, predicted)?;
        self.correct(predicted, coefficients, flux)?;
        self.measure(flux, outflow, metrics)
    }

    // The whole work; a refusal clears every output, before which a `?` would return.
    pub(crate) fn carry_out(&self, out: &mut Outputs<'_>) -> Answer
        requires fit { OutputsFit self.now.mesh.counts self.now.records (outputs_of out.old) }
        ensures answer { result ≡ work_answer (inputs_in self.now) }
        ensures contents { let d = inputs_in self.now in
            outputs_of out.new ≡ if_refused result (cleared (outputs_of out.old)) (results d) }
        ensures demanded { let d = inputs_in self.now in
            Demanded result d out.new.predicted.now out.new.flux.now out.new.outflow.now }
        ensures same { Same out.old out.new }
    {
        if let Err(refusal) = self.run(out) {
            out.clear();
            return Err(refusal);
        }
        Ok(())
    }
}
