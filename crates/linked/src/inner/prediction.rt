// The flux of linked faces, in the slice that holds the predicted flux of all others.
ghost use Rattle.std.specs.Prelude.{◌≡◌, ◌+◌, ◌<◌, length, get_or};
ghost use Rattle.std.specs.Float.{nan};
ghost use Rattle.mesh.specs.Bundles.{bounds_of_lent};
ghost use Rattle.mesh.specs.Pass.{value_of};
ghost use Rattle.mesh.specs.Records.{peer_at};
ghost use Rattle.passes.specs.Staged.{Passes};
ghost use Rattle.predictor.specs.Boundary.{Bounded};
ghost use Rattle.linked.specs.Linked.{own_flux, linked_at, linked_answer, linked_fluxes, Paired};

use mesh::{Answer, Bounds, Outcome};
use predictor::inner::boundary::Boundary;
use predictor::inner::coefficients::span_to;
use predictor::inner::prediction::Flow;

// What a flux is predicted from, with the links of the faces and the coefficients with boundary. The wall fluxes are
// those of the flow, and are not read here.
#[derive(Clone, Copy)]
pub struct Links<'s, 'g, 'a> {
    pub flow: Flow<'s, 'g, 'a>,
    pub bounds: Bounds<'a>,
    pub coefficients: &'g [f64],
    pub ghost bounded: { Bounded (bounds_of_lent bounds) flow.coupling.grid.counts.faces },
    pub ghost paired: { Paired bounds.codes.now flow.coupling.grid.counts.faces },
    pub ghost sized: { length coefficients.now ≡ flow.coupling.grid.counts.faces },
}

impl<'s, 'g, 'a> Links<'s, 'g, 'a> {
    ghost use Rattle.linked.specs.Bundles.{links_of_lent};

    // What the face f, which is linked with the face `peer`, would have by itself.
    #[tactic(auto, unfolding(crate::specs::Linked::own_flux))]
    fn own_flux(&self, f: usize, peer: usize) -> Outcome
        requires face { f < self.now.flow.coupling.grid.counts.faces }
        requires peer { peer_at self.now.bounds.codes.now f ≡ peer + 1 }
        ensures answer { result ≡ own_flux (links_of_lent self.now) f }
    {
        let boundary = Boundary {
            coupling: self.flow.coupling,
            bounds: self.bounds,
        };
        let beyond = boundary.beyond(f, peer);
        let grid = self.flow.coupling.grid;
        let face = grid.face_at(f);
        let span = span_to(face, grid.places, beyond.center);
        let owner = self.flow.side_at(face.owner);
        let other = self.flow.side_at(beyond.cell);
        coupling::predicted_flux(span, beyond.distances, self.coefficients[f], owner, other)
    }

    // The flux of the face f, which is linked with the face `peer`, where `predicted` has those of lower faces already.
    #[tactic(auto, unfolding(crate::specs::Linked::linked_at, crate::specs::Linked::if_own, mesh::specs::Pass::value_of))]
    fn flux_at(&self, f: usize, peer: usize, predicted: &[f64]) -> Outcome
        requires face { f < self.now.flow.coupling.grid.counts.faces }
        requires peer { peer_at self.now.bounds.codes.now f ≡ peer + 1 }
        requires size { length predicted.now ≡ self.now.flow.coupling.grid.counts.faces }
        requires lower { let d = links_of_lent self.now in
            peer < f → get_or predicted.now peer nan ≡ value_of (own_flux d peer) }
        ensures answer { result ≡ linked_at (links_of_lent self.now) predicted.now f }
    {
        let own = self.own_flux(f, peer)?;
        if peer < f {
            Ok(-predicted[peer])
        } else {
            Ok(own)
        }
    }

    // Writes the fluxes of linked faces up to the first refusal.
    pub fn predict(&self, predicted: &mut [f64]) -> Answer
        requires size { length predicted.old ≡ self.now.flow.coupling.grid.counts.faces }
        ensures passes { let d = links_of_lent self.now in
            Passes (linked_answer d predicted.old) (linked_fluxes d predicted.old) result predicted.new }
    {
        for f in 0..predicted.len() {
            if let Some(peer) = self.bounds.peer(f) {
                let flux = self.flux_at(f, peer, predicted);
                predicted[f] = flux.map_err(|reason| reason.at(f))?;
            }
        }
        Ok(())
    }
}
