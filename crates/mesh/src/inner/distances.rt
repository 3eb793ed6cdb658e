// The distances that the faces carry: check 20, which holds them against the geometry, and how they are made. The
// geometry is lent apart: who makes them writes it. Methods of `Grid` as in lent.rt.
ghost use Rattle.std.specs.Prelude.{◌≡◌, ◌+◌, ◌*◌, ◌<◌, length};
ghost use Rattle.vector.specs.Vector.{difference};
ghost use Rattle.mesh.specs.Facts.{Placed, PeersIn};
ghost use Rattle.mesh.specs.Records.{owner_at, face_centre, centre, own_distance_at, other_distance_at};

use crate::{Faces, Grid};
use chain::inner::{first_of, named_at};
use vector::Vec3;
use vector::inner::vector_at;

// The cells of the faces and where cells stand, that passed the checks 2 and 4.
#[derive(Clone, Copy)]
pub(crate) struct Sided<'a> {
    pub(crate) faces: Faces<'a>,
    pub(crate) places: &'a [f64],
    pub(crate) ghost placed: { Placed faces.counts faces.adjacency.now places.now },
}

// The same with links that passed 2 and 6.
#[derive(Clone, Copy)]
pub(crate) struct Linked<'a, 'k> {
    pub(crate) sided: Sided<'a>,
    pub(crate) codes: &'k [usize],
    pub(crate) ghost peers: { PeersIn codes.now sided.faces.counts.faces },
}

impl<'a> Grid<'a> {
    // The distances that the face f carries: its owner's, and the other side's.
    pub fn own_distance(&self, f: usize) -> f64
        requires { 11 * f + 9 < length self.now.geometry.now }
        ensures { result ≡ own_distance_at self.now.geometry.now f }
    {
        self.geometry[11 * f + 9]
    }

    pub fn other_distance(&self, f: usize) -> f64
        requires { 11 * f + 10 < length self.now.geometry.now }
        ensures { result ≡ other_distance_at self.now.geometry.now f }
    {
        self.geometry[11 * f + 10]
    }
}

impl<'a> Sided<'a> {
    ghost use Rattle.mesh.specs.Distances.{wrong_between, lowest_wrong_between};

    // From the centre of the cell c to that of the face f.
    fn away(&self, geometry: &[f64], f: usize, c: usize) -> Vec3
        requires sized { length geometry.now ≡ 11 * self.now.faces.counts.faces }
        requires face { f < self.now.faces.counts.faces }
        requires cell { c < self.now.faces.counts.cells }
        ensures { result ≡ difference (face_centre geometry.now f) (centre self.now.places.now c) }
    {
        let center = vector_at(geometry, 11 * f);
        center.sub(vector_at(self.places, 4 * c))
    }

    // The same from its owner's.
    fn from_owner(&self, geometry: &[f64], f: usize) -> Vec3
        requires sized { length geometry.now ≡ 11 * self.now.faces.counts.faces }
        requires face { f < self.now.faces.counts.faces }
        ensures { let owner = owner_at self.now.faces.adjacency.now f in
            result ≡ difference (face_centre geometry.now f) (centre self.now.places.now owner) }
    {
        self.away(geometry, f, first_of(self.faces.adjacency, f))
    }

    // 20 at the face f, without links.
    #[tactic(auto, unfolding(crate::specs::Distances::wrong_between))]
    fn is_wrong(&self, geometry: &[f64], f: usize) -> bool
        requires sized { length geometry.now ≡ 11 * self.now.faces.counts.faces }
        requires face { f < self.now.faces.counts.faces }
        ensures { let a = self.now.faces.adjacency.now in
            result ≡ wrong_between a geometry.now self.now.places.now f }
    {
        let own = geometry[11 * f + 9];
        let squared = self.from_owner(geometry, f).norm_squared();
        let Some(n) = named_at(self.faces.adjacency, f) else {
            return !binary64::is_root(squared, own);
        };
        let beyond = self.away(geometry, f, n).norm_squared();
        !binary64::are_roots(squared, own, beyond, geometry[11 * f + 10])
    }

    // The lowest face that meets 20, without links.
    pub(crate) fn lowest_wrong(&self, geometry: &[f64]) -> Option<usize>
        requires { length geometry.now ≡ 11 * self.now.faces.counts.faces }
        ensures { let a = self.now.faces.adjacency.now in
            result ≡ lowest_wrong_between a geometry.now self.now.places.now }
    {
        chain::lowest(geometry.len() / 11, |f| self.is_wrong(geometry, f))
    }
}

impl<'a, 'k> Linked<'a, 'k> {
    ghost use Rattle.mesh.specs.Distances.{owner_distance, other_distance, wrong_distances, lowest_wrong_distances};
    ghost use Rattle.mesh.specs.FaceDistances.{put_distances, with_distances};

    // 20 at the face f.
    #[tactic(auto, unfolding(crate::specs::Distances::wrong_distances, crate::specs::Distances::other_distance))]
    fn is_wrong(&self, geometry: &[f64], f: usize) -> bool
        requires sized { length geometry.now ≡ 11 * self.now.sided.faces.counts.faces }
        requires face { f < self.now.sided.faces.counts.faces }
        ensures { let m = self.now.sided in
            result ≡ wrong_distances m.faces.adjacency.now geometry.now m.places.now self.now.codes.now f }
    {
        let (own, other) = (geometry[11 * f + 9], geometry[11 * f + 10]);
        let squared = self.sided.from_owner(geometry, f).norm_squared();
        if let Some(n) = named_at(self.sided.faces.adjacency, f) {
            let beyond = self.sided.away(geometry, f, n).norm_squared();
            return !binary64::are_roots(squared, own, beyond, other);
        }
        match named_at(self.codes, f) {
            Some(peer) => {
                let beyond = self.sided.from_owner(geometry, peer).norm_squared();
                !binary64::are_roots(squared, own, beyond, other)
            }
            None => !(binary64::is_root(squared, own) && binary64::same(other, 0.0)),
        }
    }

    // The lowest face that meets 20.
    pub(crate) fn lowest_wrong(&self, geometry: &[f64]) -> Option<usize>
        requires { length geometry.now ≡ 11 * self.now.sided.faces.counts.faces }
        ensures { let m = self.now.sided in
            result ≡ lowest_wrong_distances m.faces.adjacency.now geometry.now m.places.now self.now.codes.now }
    {
        chain::lowest(geometry.len() / 11, |f| self.is_wrong(geometry, f))
    }

    // The other side's distance at the face f.
    #[tactic(auto, unfolding(crate::specs::Distances::other_distance))]
    fn other_distance(&self, geometry: &[f64], f: usize) -> f64
        requires sized { length geometry.now ≡ 11 * self.now.sided.faces.counts.faces }
        requires face { f < self.now.sided.faces.counts.faces }
        ensures { let m = self.now.sided in
            result ≡ other_distance m.faces.adjacency.now geometry.now m.places.now self.now.codes.now f }
    {
        if let Some(n) = named_at(self.sided.faces.adjacency, f) {
            return self.sided.away(geometry, f, n).norm();
        }
        match named_at(self.codes, f) {
            Some(peer) => self.sided.from_owner(geometry, peer).norm(),
            None => 0.0,
        }
    }

    // Writes both distances of the face f.
    fn put(&self, f: usize, geometry: &mut [f64])
        requires sized { length geometry.old ≡ 11 * self.now.sided.faces.counts.faces }
        requires face { f < self.now.sided.faces.counts.faces }
        ensures put { let m = self.now.sided in
            let a = m.faces.adjacency.now in
            let p = m.places.now in
            let own = owner_distance a geometry.old p f in
            geometry.new ≡ put_distances geometry.old f own (other_distance a geometry.old p self.now.codes.now f) }
    {
        let own = self.sided.from_owner(geometry, f).norm();
        let other = self.other_distance(geometry, f);
        geometry[11 * f + 9] = own;
        geometry[11 * f + 10] = other;
    }

    // Writes those of every face.
    #[tactic(auto, using(crate::proofs::Distances::next_face), unfolding(crate::specs::FaceDistances::with_distances))]
    pub(crate) fn measure(&self, geometry: &mut [f64])
        requires { length geometry.old ≡ 11 * self.now.sided.faces.counts.faces }
        ensures { let m = self.now.sided in
            geometry.new ≡ with_distances m.faces.adjacency.now geometry.old m.places.now self.now.codes.now m.faces.counts.faces }
    {
        for f in 0..self.sided.faces.counts.faces {
            self.put(f, geometry);
        }
    }
}
