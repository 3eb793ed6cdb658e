// The coefficients of all faces, those with two cells first.
ghost use Rattle.std.specs.Prelude.{◌≡◌, ◌+◌, ◌<◌, length, Ok};
ghost use Rattle.mesh.specs.Pass.{handed_out};
ghost use Rattle.mesh.specs.Bundles.{bounds_of_lent};
ghost use Rattle.mesh.specs.Records.{peer_at, condition_at};
ghost use Rattle.predictor.specs.Boundary.{Bounded, Begun, by_condition, linked_at, boundary_at, coefficient_at, boundary_answer, boundary_coefficients};
ghost use Rattle.predictor.specs.Coefficients.{internal_at};
ghost use Rattle.coupling.specs.Face.{distances};
ghost use Rattle.coupling.specs.Grid.{grid_of_lent, span_to, peer_cell, linked_span};
ghost use Rattle.passes.specs.Staged.{staged, Passes};

use crate::inner::coefficients::{Coupling, pair_at, span_to};
use chain::inner::first_of;
use coupling::Pair;
use mesh::inner::cell_at;
use mesh::{Answer, Bounds, Condition, Outcome};
use passes::{Stage, early, late, settle};
use vector::Vec3;

// A mesh and the responses of its cells, with the conditions and links of its faces.
#[derive(Clone, Copy)]
pub struct Boundary<'a> {
    pub coupling: Coupling<'a>,
    pub bounds: Bounds<'a>,
    pub ghost bounded: { Bounded (bounds_of_lent bounds) coupling.grid.counts.faces },
}

// What lies beyond a linked face: the owner of its peer, the centre of that cell as it is seen from this side, and the
// distances of the face's centre from both sides.
#[derive(Clone, Copy)]
pub struct Beyond {
    pub cell: usize,
    pub center: Vec3,
    pub distances: Pair,
}

// A method asks that its face is there, or that its output is as long as the faces are: of a number and of a slice
// that are no part of the struct, so that another struct of them would be no plainer.
impl<'a> Boundary<'a> {
    // The coefficient of the face f, which has one cell and no link.
    #[tactic(auto, unfolding(crate::specs::Boundary::by_condition))]
    fn by_condition(&self, f: usize) -> Outcome
        requires f_lt_faces { f < self.now.coupling.grid.counts.faces }
        ensures answer { let m = grid_of_lent self.now.coupling.grid in
            let k = self.now.bounds in
            result ≡ by_condition m self.now.coupling.values.now f (condition_at k.codes.now k.values.now f) }
    {
        match self.bounds.condition_at(f) {
            Condition::Fixed(_) => {
                let face = self.coupling.grid.face_at(f);
                let owner = cell_at(self.coupling.grid.places, face.owner);
                let away = face.center.sub(owner.center);
                let response = self.coupling.values[face.owner];
                coupling::fixed_coefficient(face.area, away, response)
            }
            Condition::ZeroGradient | Condition::Absent => Ok(0.0),
        }
    }

    // What lies beyond the face f, which is linked with the face `peer`: the distance of the image, which no face
    // carries, is worked out.
    #[tactic(auto, unfolding(coupling::specs::Face::distances))]
    pub fn beyond(&self, f: usize, peer: usize) -> Beyond
        requires f_lt_faces { f < self.now.coupling.grid.counts.faces }
        requires peer { peer_at self.now.bounds.codes.now f ≡ peer + 1 }
        ensures cell { let m = grid_of_lent self.now.coupling.grid in
            result.cell ≡ peer_cell m (bounds_of_lent self.now.bounds) f }
        ensures span { let m = grid_of_lent self.now.coupling.grid in
            span_to m f result.center ≡ linked_span m (bounds_of_lent self.now.bounds) f }
        ensures distances { let m = grid_of_lent self.now.coupling.grid in
            result.distances ≡ distances (linked_span m (bounds_of_lent self.now.bounds) f) }
    {
        let grid = self.coupling.grid;
        let cell = first_of(grid.adjacency, peer);
        let center = cell_at(grid.places, cell)
            .center
            .sub(self.bounds.translation_at(f));
        let distances = Pair {
            owner: self.coupling.own_distance(f),
            other: grid.face_at(f).center.sub(center).norm(),
        };
        Beyond {
            cell,
            center,
            distances,
        }
    }

    // The coefficient of the face f, which is linked with the face `peer`.
    #[tactic(auto, unfolding(crate::specs::Boundary::linked_at))]
    fn linked_at(&self, f: usize, peer: usize) -> Outcome
        requires f_lt_faces { f < self.now.coupling.grid.counts.faces }
        requires peer { peer_at self.now.bounds.codes.now f ≡ peer + 1 }
        ensures answer { let m = grid_of_lent self.now.coupling.grid in
            let k = bounds_of_lent self.now.bounds in
            result ≡ linked_at m k self.now.coupling.values.now f }
    {
        let grid = self.coupling.grid;
        let beyond = self.beyond(f, peer);
        let face = grid.face_at(f);
        let span = span_to(face, grid.places, beyond.center);
        let responses = pair_at(self.coupling.values, face.owner, beyond.cell);
        coupling::linked_coefficient(span, beyond.distances, responses)
    }

    // The coefficient of the face f, which has one cell.
    #[tactic(auto, unfolding(crate::specs::Boundary::boundary_at))]
    fn boundary_at(&self, f: usize) -> Outcome
        requires f_lt_faces { f < self.now.coupling.grid.counts.faces }
        ensures answer { let m = grid_of_lent self.now.coupling.grid in
            let k = bounds_of_lent self.now.bounds in
            result ≡ boundary_at m k self.now.coupling.values.now f }
    {
        match self.bounds.peer(f) {
            Some(peer) => self.linked_at(f, peer),
            None => self.by_condition(f),
        }
    }

    // The coefficient of the face f; a face with two cells refuses before all others.
    #[tactic(auto, unfolding(crate::specs::Boundary::coefficient_at, crate::specs::Coefficients::internal_at, passes::specs::Staged::staged))]
    fn stage_at(&self, f: usize) -> Stage
        requires f_lt_faces { f < self.now.coupling.grid.counts.faces }
        ensures answer { let m = grid_of_lent self.now.coupling.grid in
            let k = bounds_of_lent self.now.bounds in
            let w = self.now.coupling.values.now in
            result ≡ staged (internal_at m w f) (coefficient_at m k w f) }
    {
        match self.coupling.grid.neighbour(f) {
            Some(_) => early(self.coupling.internal_at(f)),
            None => late(self.boundary_at(f)),
        }
    }

    // Writes the coefficients up to the first refusal of a face with two cells. Each of the three ends of a stage has
    // an arm of its own: by `map_err` and `?` the third would stand apart from the two, and be no plainer.
    #[tactic(auto, using(passes::proofs::Stages::stop))]
    fn fill(&self, out: &mut [f64]) -> Answer
        requires out_len { length out.old ≡ self.now.coupling.grid.counts.faces }
        ensures passes { let m = grid_of_lent self.now.coupling.grid in
            let k = bounds_of_lent self.now.bounds in
            let w = self.now.coupling.values.now in
            let n = self.now.coupling.grid.counts.faces in
            Passes (boundary_answer m k w n) (boundary_coefficients m k w n) result out.new }
    {
        let mut late = Ok(());
        for f in 0..self.coupling.grid.counts.faces {
            match self.stage_at(f) {
                Ok(Ok(v)) => out[f] = v,
                Ok(Err(reason)) => late = late.and(Err(reason.at(f))),
                Err(reason) => return Err(reason.at(f)),
            }
        }
        late
    }

    #[tactic(auto, unfolding(mesh::specs::Pass::handed_out))]
    pub fn pressure_face_coefficients_with_boundary(&self, out: &mut [f64]) -> Answer
        requires out_len { length out.old ≡ self.now.coupling.grid.counts.faces }
        ensures answer { let m = grid_of_lent self.now.coupling.grid in
            let k = bounds_of_lent self.now.bounds in
            let n = self.now.coupling.grid.counts.faces in
            result ≡ boundary_answer m k self.now.coupling.values.now n }
        ensures contents { let m = grid_of_lent self.now.coupling.grid in
            let k = bounds_of_lent self.now.bounds in
            let n = self.now.coupling.grid.counts.faces in
            out.new ≡ handed_out result n (boundary_coefficients m k self.now.coupling.values.now n) }
    {
        let answer = self.fill(out);
        settle(out, answer)
    }

    // The coefficient of the face f; that of a face with two cells is `own` already.
    #[tactic(auto, unfolding(crate::specs::Boundary::coefficient_at))]
    fn completed_at(&self, f: usize, own: f64) -> Outcome
        requires f_lt_faces { f < self.now.coupling.grid.counts.faces }
        requires own { let m = grid_of_lent self.now.coupling.grid in
            internal_at m self.now.coupling.values.now f ≡ Ok own }
        ensures answer { let m = grid_of_lent self.now.coupling.grid in
            let k = bounds_of_lent self.now.bounds in
            result ≡ coefficient_at m k self.now.coupling.values.now f }
    {
        match self.coupling.grid.neighbour(f) {
            Some(_) => Ok(own),
            None => self.boundary_at(f),
        }
    }

    // Writes the coefficients of the faces with one cell up to the first refusal; those of the faces
    // with two cells stand in `out` already.
    #[tactic(auto, using(crate::proofs::Started::own_coefficient))]
    pub fn complete(&self, out: &mut [f64]) -> Answer
        requires out_len { length out.old ≡ self.now.coupling.grid.counts.faces }
        requires begun { let m = grid_of_lent self.now.coupling.grid in
            Begun m self.now.coupling.values.now out.old }
        ensures passes { let m = grid_of_lent self.now.coupling.grid in
            let k = bounds_of_lent self.now.bounds in
            let w = self.now.coupling.values.now in
            let n = self.now.coupling.grid.counts.faces in
            Passes (boundary_answer m k w n) (boundary_coefficients m k w n) result out.new }
    {
        passes::fill(out, |f, own| self.completed_at(f, own))
    }
}
