// The root mean square of the outflows, and the largest divergence.
ghost use Rattle.std.specs.Prelude.{◌≡◌, ◌+◌, ◌*◌, ◌<◌, ◌≤◌, length};
ghost use Rattle.mesh.specs.Checks.{largest_count};
ghost use Rattle.mesh.specs.Pass.{handed_out, first_refusal};
ghost use Rattle.numerics.specs.Outflow.{outflows};
ghost use Rattle.corrector.specs.Metrics.{squared_sum, root_mean_square, divergence_at, largest, index_in, measured_by, metrics_of, metrics_answer, metrics_numbers};

use mesh::{Answer, Outcome};
use numerics::inner::outflow::Flux;
use refusal::{Reason, Refusal};

#[derive(Clone, Copy)]
pub struct Metrics {
    pub root_mean_square: f64,
    pub largest: f64,
}

// The outflow of each cell, beside the records of the places.
#[derive(Clone, Copy)]
struct Cells<'a> {
    places: &'a [f64],
    outflow: &'a [f64],
    ghost sized: { (length places.now ≡ 4 * length outflow.now) × (length outflow.now ≤ largest_count) },
}

// The index of a refusal of the cell c: a bad coefficient names none.
#[tactic(auto, unfolding(crate::specs::Metrics::index_in))]
fn index_in(reason: Reason, c: usize) -> usize
    ensures { result ≡ index_in reason c }
{
    match reason {
        Reason::BadCoefficient => 0,
        _ => c,
    }
}

impl<'a> Cells<'a> {
    fn squared_sum(&self) -> f64
        ensures { result ≡ squared_sum self.now.outflow.now }
    {
        self.outflow.iter().fold(0.0, |sum, x| sum + *x * *x)
    }

    #[tactic(auto, unfolding(crate::specs::Metrics::root_mean_square))]
    fn root_mean_square(&self) -> f64
        ensures { result ≡ root_mean_square self.now.outflow.now }
    {
        binary64::sqrt(self.squared_sum() / self.outflow.len() as f64)
    }

    #[tactic(auto, unfolding(crate::specs::Metrics::divergence_at))]
    fn divergence_at(&self, c: usize) -> Outcome
        requires { c < length self.now.outflow.now }
        ensures { result ≡ divergence_at self.now.places.now self.now.outflow.now c }
    {
        let cell = mesh::inner::cell_at(self.places, c);
        coupling::divergence(self.outflow[c], cell.volume)
    }

    // The largest divergence beside a root mean square. With `map_err` and `?` in place of the `match` the proof of what
    // a refusal returns does not close without an answer.
    #[tactic(auto, using(mesh::proofs::Facts::refused_at), unfolding(crate::specs::Metrics::measured_by, crate::specs::Metrics::largest, mesh::specs::Pass::first_refusal, mesh::specs::Pass::after, mesh::specs::Pass::value_of))]
    fn measure(&self, rms: f64) -> Result<Metrics, Refusal>
        ensures answer { let g = divergence_at self.now.places.now self.now.outflow.now in
            let n = length self.now.outflow.now in
            result ≡ measured_by (first_refusal g n) rms (largest g n) }
    {
        let mut maximum = 0.0;
        for c in 0..self.outflow.len() {
            match self.divergence_at(c) {
                Ok(d) => maximum = binary64::max(maximum, d),
                Err(reason) => return Err(reason.at(index_in(reason, c))),
            }
        }
        Ok(Metrics {
            root_mean_square: rms,
            largest: maximum,
        })
    }

    #[tactic(auto, unfolding(crate::specs::Metrics::metrics_of))]
    fn metrics_of(&self) -> Result<Metrics, Refusal>
        ensures { result ≡ metrics_of self.now.places.now self.now.outflow.now }
    {
        let rms = self.root_mean_square();
        if !binary64::finite(rms) {
            return Err(Reason::BadCoefficient.at(0));
        }
        self.measure(rms)
    }
}

// The metrics of outflows that are there; a refusal clears both.
#[tactic(auto, unfolding(crate::specs::Metrics::metrics_answer, crate::specs::Metrics::metrics_numbers, mesh::specs::Pass::handed_out))]
pub fn outflow_metrics(places: &[f64], outflow: &mut [f64], metrics: &mut [f64]) -> Answer
    requires few { (length places.now ≡ 4 * length outflow.old) × (length outflow.old ≤ largest_count) }
    requires pair { length metrics.old ≡ 2 }
    ensures value { result ≡ metrics_answer (metrics_of places.now outflow.old) }
    ensures outflow_after { outflow.new ≡ handed_out result (length outflow.old) outflow.old }
    ensures metrics_after { metrics.new ≡ metrics_numbers (metrics_of places.now outflow.old) }
{
    let cells = Cells {
        places,
        outflow: &*outflow,
    };
    match cells.metrics_of() {
        Ok(measured) => {
            metrics.copy_from_slice(&[measured.root_mean_square, measured.largest]);
            Ok(())
        }
        // a `?` would return before this
        Err(refusal) => {
            outflow.fill(0.0);
            metrics.fill(0.0);
            Err(refusal)
        }
    }
}

// The outflows of a flux and their metrics.
pub fn continuity_metrics(
    flux: &Flux<'_>,
    places: &[f64],
    outflow: &mut [f64],
    metrics: &mut [f64],
) -> Answer
    requires outflow_len { length outflow.old ≡ flux.now.faces.counts.cells }
    requires few { (length places.now ≡ 4 * length outflow.old) × (length outflow.old ≤ largest_count) }
    requires pair { length metrics.old ≡ 2 }
    ensures answer { let m = flux.now.faces in
        let sums = outflows m.counts.cells m.adjacency.now flux.now.values.now in
        result ≡ metrics_answer (metrics_of places.now sums) }
    ensures sums { let m = flux.now.faces in
        let sums = outflows m.counts.cells m.adjacency.now flux.now.values.now in
        outflow.new ≡ handed_out result m.counts.cells sums }
    ensures numbers { let m = flux.now.faces in
        let sums = outflows m.counts.cells m.adjacency.now flux.now.values.now in
        metrics.new ≡ metrics_numbers (metrics_of places.now sums) }
{
    flux.integrated_divergence(outflow);
    outflow_metrics(places, outflow, metrics)
}
