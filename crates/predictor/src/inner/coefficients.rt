// The coefficients of the faces with two cells.
ghost use Rattle.std.specs.Prelude.{◌≡◌, ◌+◌, ◌*◌, ◌-◌, ◌<◌, length, get_or};
ghost use Rattle.std.specs.Float.{nan};
ghost use Rattle.mesh.specs.Distances.{owner_distance, neighbour_distance};
ghost use Rattle.mesh.specs.Pass.{handed_out};
ghost use Rattle.mesh.specs.Records.{neighbour_at};
ghost use Rattle.coupling.specs.Face.{pair, distances};
ghost use Rattle.predictor.specs.Coefficients.{internal_at, coefficient_answer, coefficients};
ghost use Rattle.coupling.specs.Grid.{grid_of_lent, own_cell, span, span_of, pair_at, Coupled};

use coupling::{Pair, Span};
use mesh::inner::cell_at;
use mesh::{Answer, Face, Grid, Outcome};
use passes::settle;
use vector::Vec3;

// A mesh that passed the checks, and a field of its cells: the responses, of which coefficients are made, or another,
// which is interpolated.
#[derive(Clone, Copy)]
pub struct Coupling<'a> {
    pub grid: Grid<'a>,
    pub values: &'a [f64],
    pub ghost coupled: { Coupled (grid_of_lent grid) (length values.now) grid.counts.faces },
}

// A face with its owner's centre, and a centre on its other side.
pub fn span_to(face: Face, places: &[f64], other: Vec3) -> Span
    requires { 4 * face.owner + 3 < length places.now }
    ensures { result ≡ span_of face places.now other }
{
    let cell = cell_at(places, face.owner);
    Span {
        center: face.center,
        area: face.area,
        owner: cell.center,
        other,
    }
}

// The numbers of a field in two cells.
pub fn pair_at(field: &[f64], owner: usize, other: usize) -> Pair
    requires { (owner < length field.now) × (other < length field.now) }
    ensures { result ≡ pair (get_or field.now owner nan) (get_or field.now other nan) }
{
    Pair {
        owner: field[owner],
        other: field[other],
    }
}

// A face between two cells. Their distances are left to `distances`: handed over in it they made a face's coefficient
// take a sixth longer.
#[derive(Clone, Copy)]
pub(crate) struct Joint {
    pub owner: usize,
    pub span: Span,
    pub responses: Pair,
}

impl<'a> Coupling<'a> {
    // How far the face f is from its owner, as it carries it: check 20 has passed.
    pub(crate) fn own_distance(&self, f: usize) -> f64
        requires { f < self.now.grid.counts.faces }
        ensures { let m = self.now.grid in
            result ≡ owner_distance m.adjacency.now m.geometry.now m.places.now f }
    {
        self.grid.own_distance(f)
    }

    // How far it is from its neighbour, likewise.
    fn neighbour_distance(&self, f: usize) -> f64
        requires face { f < self.now.grid.counts.faces }
        requires two_cells { neighbour_at self.now.grid.adjacency.now f ≡ 0 → ⊥ }
        ensures { let m = self.now.grid in
            result ≡ neighbour_distance m.adjacency.now m.geometry.now m.places.now f }
    {
        self.grid.other_distance(f)
    }

    // How far it is from both.
    #[tactic(auto, unfolding(coupling::specs::Face::distances))]
    pub fn distances(&self, f: usize) -> Pair
        requires face { f < self.now.grid.counts.faces }
        requires two_cells { neighbour_at self.now.grid.adjacency.now f ≡ 0 → ⊥ }
        ensures { result ≡ distances (span (grid_of_lent self.now.grid) f) }
    {
        Pair {
            owner: self.own_distance(f),
            other: self.neighbour_distance(f),
        }
    }

    // The face f between its owner and the cell n.
    pub(crate) fn joint_at(&self, f: usize, n: usize) -> Joint
        requires f_lt_faces { f < self.now.grid.counts.faces }
        requires neighbour { neighbour_at self.now.grid.adjacency.now f ≡ n + 1 }
        ensures owner { result.owner ≡ own_cell (grid_of_lent self.now.grid) f }
        ensures span { result.span ≡ span (grid_of_lent self.now.grid) f }
        ensures responses { let m = grid_of_lent self.now.grid in
            result.responses ≡ pair_at m self.now.values.now f n }
    {
        let places = self.grid.places;
        let face = self.grid.face_at(f);
        let other = cell_at(places, n);
        Joint {
            owner: face.owner,
            span: span_to(face, places, other.center),
            responses: pair_at(self.values, face.owner, n),
        }
    }

    // The coefficient of the face f.
    #[tactic(auto, unfolding(crate::specs::Coefficients::internal_at))]
    pub fn internal_at(&self, f: usize) -> Outcome
        requires f_lt_faces { f < self.now.grid.counts.faces }
        ensures answer { let m = grid_of_lent self.now.grid in
            result ≡ internal_at m self.now.values.now f }
    {
        let Some(n) = self.grid.neighbour(f) else {
            return Ok(0.0);
        };
        let joint = self.joint_at(f, n);
        coupling::internal_coefficient(joint.span, self.distances(f), joint.responses)
    }

    #[tactic(auto, using(passes::proofs::Stages::handed))]
    pub fn pressure_face_coefficients(&self, out: &mut [f64]) -> Answer
        requires { length out.old ≡ self.now.grid.counts.faces }
        ensures answer { let m = grid_of_lent self.now.grid in
            result ≡ coefficient_answer m self.now.values.now self.now.grid.counts.faces }
        ensures contents { let m = grid_of_lent self.now.grid in
            let n = self.now.grid.counts.faces in
            out.new ≡ handed_out result n (coefficients m self.now.values.now n) }
    {
        let answer = passes::fill(out, |f, _| self.internal_at(f));
        settle(out, answer)
    }
}
