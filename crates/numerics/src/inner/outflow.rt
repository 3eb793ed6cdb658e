// The outflow of each cell.
ghost use Rattle.std.specs.Prelude.{◌≡◌, ◌<◌, length};
ghost use Rattle.numerics.specs.Outflow.{Flows, faces_of, scatter_face, outflows};

use chain::inner::named_at;
use mesh::Faces;

// The fluxes of faces whose cells are there.
#[derive(Clone, Copy)]
pub struct Flux<'a> {
    pub faces: Faces<'a>,
    pub values: &'a [f64],
    pub ghost flows: { Flows faces.counts.cells faces.adjacency.now values.now },
}

impl<'a> Flux<'a> {
    // The flux of the face f, added to its owner's outflow and taken from its neighbour's.
    #[tactic(auto, unfolding(crate::specs::Outflow::scatter_face))]
    fn add_face(&self, f: usize, out: &mut [f64])
        requires f_in_bounds { (f < length self.now.values.now) × (length out.old ≡ self.now.faces.counts.cells) }
        ensures added { let m = faces_of self.now.faces.adjacency.now self.now.values.now in
            out.new ≡ scatter_face m f out.old }
    {
        let owner = chain::inner::first_of(self.faces.adjacency, f);
        let v = self.values[f];
        out[owner] = out[owner] + v;
        if let Some(n) = named_at(self.faces.adjacency, f) {
            out[n] = out[n] - v;
        }
    }

    // The faces in their order, from +0.0.
    #[tactic(auto, unfolding(crate::specs::Outflow::scatter, crate::specs::Outflow::outflows))]
    pub fn integrated_divergence(&self, out: &mut [f64])
        requires { length out.old ≡ self.now.faces.counts.cells }
        ensures summed { let m = self.now.faces in
            out.new ≡ outflows m.counts.cells m.adjacency.now self.now.values.now }
    {
        out.fill(0.0);
        for f in 0..self.values.len() {
            self.add_face(f, out);
        }
    }
}
