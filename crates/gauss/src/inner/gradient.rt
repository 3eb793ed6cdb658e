// The gradient of each cell by Gauss, from any values of the faces.
ghost use Rattle.std.specs.Prelude.{◌≡◌, ◌*◌, ◌<◌, ℕ, length};
ghost use Rattle.std.specs.Float.Ieee.{Float};
ghost use Rattle.mesh.specs.Pass.{handed_out};
ghost use Rattle.coupling.specs.Grid.{grid_of_lent, Coupled};
ghost use Rattle.vector.specs.Vector.{vectors_of};
ghost use Rattle.gauss.specs.Gauss.{gather_face, sums, gradient_at, gauss_gradients, lowest_bad_volume, volume_answer};

use chain::inner::first_of;
use mesh::inner::cell_at;
use mesh::{Answer, Grid};
use passes::settle;
use refusal::Reason;
use vector::inner::{add_vector, put_vector, vector_at};

// A mesh that passed the checks.
#[derive(Clone, Copy)]
pub struct Gauss<'a> {
    pub grid: Grid<'a>,
    pub ghost coupled: { Coupled (grid_of_lent grid) grid.counts.cells grid.counts.faces },
}

impl<'a> Gauss<'a> {
    // Check 12, as the Rust makes it here: a volume is at most 0.
    fn lowest_bad_volume(&self) -> Option<usize>
        ensures { result ≡ lowest_bad_volume self.now.grid.places.now self.now.grid.counts.cells }
    {
        chain::lowest(self.grid.counts.cells, |c| {
            self.grid.places[4 * c + 3] <= 0.0
        })
    }

    // The area vector of the face f times its value, added to its owner's sum, and its negation to its neighbour's.
    #[tactic(auto, unfolding(crate::specs::Gauss::gather_face))]
    fn gather_face(&self, f: usize, value: f64, out: &mut [f64])
        requires face { f < self.now.grid.counts.faces }
        requires out_len { length out.old ≡ 3 * self.now.grid.counts.cells }
        ensures gathered { out.new ≡ gather_face (grid_of_lent self.now.grid) f value out.old }
    {
        let flow = vector_at(self.grid.geometry, 11 * f + 3).scale(value);
        add_vector(out, first_of(self.grid.adjacency, f), flow);
        if let Some(n) = self.grid.neighbour(f) {
            add_vector(out, n, flow.neg());
        }
    }

    // The faces in their order, from +0.0.
    fn gather<F: Fn(usize) -> f64>(&self, out: &mut [f64], value: F)
        requires callable { (f : ℕ) → f < self.now.grid.counts.faces → F.pre value f }
        requires out_len { length out.old ≡ 3 * self.now.grid.counts.cells }
        ensures gathered { let m = grid_of_lent self.now.grid in
            let n = self.now.grid.counts in
            (h : ℕ → Float) → ((f : ℕ) (v : Float) → f < n.faces → F.post value f v → v ≡ h f) →
            out.new ≡ sums m h n.cells n.faces }
    {
        mesh::clear(out);
        for f in 0..self.grid.counts.faces {
            self.gather_face(f, value(f), out);
        }
    }

    // Each sum over its cell's volume, in place.
    fn divide(&self, out: &mut [f64])
        requires out_len { length out.old ≡ 3 * self.now.grid.counts.cells }
        ensures divided { let m = grid_of_lent self.now.grid in
            out.new ≡ vectors_of (gradient_at m out.old) self.now.grid.counts.cells }
    {
        for c in 0..self.grid.counts.cells {
            let volume = cell_at(self.grid.places, c).volume;
            let gradient = vector_at(out, 3 * c).div(volume);
            put_vector(out, c, gradient);
        }
    }

    // The gradients of all cells, three numbers each, from the value of each face.
    pub fn gauss_gradient<F: Fn(usize) -> f64>(&self, out: &mut [f64], value: F) -> Answer
        requires callable { (f : ℕ) → f < self.now.grid.counts.faces → F.pre value f }
        requires out_len { length out.old ≡ 3 * self.now.grid.counts.cells }
        ensures answer { result ≡ volume_answer self.now.grid.places.now self.now.grid.counts.cells }
        ensures contents { let m = grid_of_lent self.now.grid in
            let n = self.now.grid.counts in
            (h : ℕ → Float) → ((f : ℕ) (v : Float) → f < n.faces → F.post value f v → v ≡ h f) →
            out.new ≡ handed_out result (3 * n.cells) (gauss_gradients m h n.cells n.faces) }
    {
        settle(out, mesh::at(Reason::BadVolume, self.lowest_bad_volume()))?;
        self.gather(out, value);
        self.divide(out);
        Ok(())
    }
}
