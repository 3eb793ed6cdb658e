// What is lent together: a mesh or what of it a call reads, the conditions and links of its faces, a field.
ghost use Rattle.std.specs.Prelude.{◌≡◌, ◌+◌, ◌*◌, ◌-◌, ◌<◌, length, None, SomeIff};
ghost use Rattle.mesh.specs.Checks.{lowest_bad_face, lowest_bad_link};
ghost use Rattle.mesh.specs.Facts.{FacesIn};
ghost use Rattle.mesh.specs.Mesh.{mesh_sized, conditions_sized, lowest_four, checks};
ghost use Rattle.mesh.specs.Records.{neighbour_at, face_at, peer_at, translation_at, condition_at};
ghost use Rattle.mesh.specs.Bundles.{mesh_of, conditions_of, grid_in, faces_in, bounds_in};

use crate::{Answer, Condition, Counts, Face, is_sized, lowest_unknown_code, shape, sizes_ok};
use chain::inner::{first_of, named_at};
use vector::Vec3;
use vector::inner::vector_at;

// The cells of each face.
#[derive(Clone, Copy)]
pub struct Faces<'a> {
    pub counts: Counts,
    pub adjacency: &'a [usize],
}

// Where faces and cells stand, and the cells of each face.
#[derive(Clone, Copy)]
pub struct Grid<'a> {
    pub counts: Counts,
    pub adjacency: &'a [usize],
    pub geometry: &'a [f64],
    pub places: &'a [f64],
}

#[derive(Clone, Copy)]
pub struct Mesh<'a> {
    pub counts: Counts,
    pub adjacency: &'a [usize],
    pub geometry: &'a [f64],
    pub heads: &'a [usize],
    pub places: &'a [f64],
    pub facing: &'a [usize],
    pub bordering: &'a [usize],
}

// The conditions and links of the faces.
#[derive(Clone, Copy)]
pub struct Bounds<'a> {
    pub codes: &'a [usize],
    pub values: &'a [f64],
}

// The same with the number of their mesh.
#[derive(Clone, Copy)]
pub struct Conditions<'a> {
    pub number: u64,
    pub codes: &'a [usize],
    pub values: &'a [f64],
}

// The numbers of a field, and the number of its mesh.
#[derive(Clone, Copy)]
pub struct Field<'a> {
    pub number: u64,
    pub values: &'a [f64],
}

impl<'a> Faces<'a> {
    // Check 4, of the cells that a face names: the lowest face that meets it.
    pub fn lowest_bad_face(&self) -> Option<usize>
        ensures lowest { result ≡ lowest_bad_face self.now.counts.cells self.now.adjacency.now }
        ensures faces { result ≡ None → FacesIn self.now.counts.cells self.now.adjacency.now }
    {
        chain::lowest(self.adjacency.len() / 2, |f| self.is_bad(f))
    }

    // Check 4, of the cells and the condition code of each face: the lowest that meets it.
    pub(crate) fn lowest_four(&self, codes: &[usize]) -> Option<usize>
        ensures lowest { result ≡ lowest_four self.now.counts.cells self.now.adjacency.now codes.now }
        ensures faces { result ≡ None → FacesIn self.now.counts.cells self.now.adjacency.now }
    {
        chain::lower_of(self.lowest_bad_face(), lowest_unknown_code(codes))
    }

    // Check 6: the lowest face with a link that meets it.
    pub fn lowest_bad_link(&self, codes: &[usize]) -> Option<usize>
        ensures { result ≡ lowest_bad_link self.now.adjacency.now codes.now }
    {
        chain::lowest(codes.len() / 2, |f| self.is_badly_linked(codes, f))
    }
}

impl<'a> Grid<'a> {
    pub fn faces(&self) -> Faces<'a>
        ensures { result ≡ faces_in self.now }
    {
        Faces {
            counts: self.counts,
            adjacency: self.adjacency,
        }
    }

    // The neighbour of the face f, where it has two cells.
    pub fn neighbour(&self, f: usize) -> Option<usize>
        requires { 2 * f + 1 < length self.now.adjacency.now }
        ensures neighbour { let n = neighbour_at self.now.adjacency.now f in
            SomeIff result (0 < n) (n - 1) }
    {
        named_at(self.adjacency, f)
    }

    pub fn face_at(&self, f: usize) -> Face
        requires { (2 * f + 1 < length self.now.adjacency.now) × (11 * f + 8 < length self.now.geometry.now) }
        ensures { result ≡ face_at self.now.adjacency.now self.now.geometry.now f }
    {
        let g = 11 * f;
        Face {
            owner: first_of(self.adjacency, f),
            center: vector_at(self.geometry, g),
            area: vector_at(self.geometry, g + 3),
            normal: vector_at(self.geometry, g + 6),
        }
    }
}

impl<'a> Mesh<'a> {
    pub fn grid(&self) -> Grid<'a>
        ensures { result ≡ grid_in self.now }
    {
        Grid {
            counts: self.counts,
            adjacency: self.adjacency,
            geometry: self.geometry,
            places: self.places,
        }
    }

    // Check 2, of its slices.
    pub fn is_sized(&self) -> bool
        ensures { result ≡ mesh_sized (mesh_of self.now) }
    {
        is_sized(self.adjacency.len(), 2, self.counts.faces)
            & is_sized(self.geometry.len(), 11, self.counts.faces)
            & is_sized(self.heads.len(), 2, self.counts.cells)
            & is_sized(self.places.len(), 4, self.counts.cells)
            & is_sized(self.facing.len(), 2, self.counts.facings)
            & is_sized(self.bordering.len(), 2, self.counts.borderings)
    }

    // Every check with conditions and links, in the order of docs/REFUSALS.md.
    #[tactic(auto, using(crate::proofs::Facts::in_order, crate::proofs::Facts::shape_first), unfolding(crate::specs::Mesh::checks))]
    pub fn check(&self, conditions: &Conditions<'_>) -> Answer
        ensures { result ≡ checks (mesh_of self.now) (conditions_of conditions.now) }
    {
        let sized = self.is_sized() & conditions.is_sized(self.counts.faces);
        let same = conditions.number == self.counts.mesh;
        shape(sizes_ok(self.counts), sized, same)?;
        #[tactic(auto, using(crate::proofs::Facts::small))]
        self.check_whole(conditions.codes)
    }
}

impl<'a> Conditions<'a> {
    // Check 2, of its slices.
    pub fn is_sized(&self, faces: usize) -> bool
        ensures sized { let k = conditions_of self.now in
            result ≡ conditions_sized faces k.codes k.values }
    {
        is_sized(self.codes.len(), 2, faces) & is_sized(self.values.len(), 4, faces)
    }

    pub fn bounds(&self) -> Bounds<'a>
        ensures { result ≡ bounds_in self.now }
    {
        Bounds {
            codes: self.codes,
            values: self.values,
        }
    }
}

impl<'a> Bounds<'a> {
    pub fn condition_at(&self, f: usize) -> Condition
        requires { (2 * f + 1 < length self.now.codes.now) × (4 * f + 3 < length self.now.values.now) }
        ensures { result ≡ condition_at self.now.codes.now self.now.values.now f }
    {
        Condition::of(first_of(self.codes, f), self.values[4 * f])
    }

    // The face that the face f is linked with, where there is one.
    pub fn peer(&self, f: usize) -> Option<usize>
        requires { 2 * f + 1 < length self.now.codes.now }
        ensures peer { let p = peer_at self.now.codes.now f in
            SomeIff result (0 < p) (p - 1) }
    {
        named_at(self.codes, f)
    }

    pub fn translation_at(&self, f: usize) -> Vec3
        requires { 4 * f + 3 < length self.now.values.now }
        ensures { result ≡ translation_at self.now.values.now f }
    {
        vector_at(self.values, 4 * f + 1)
    }
}
