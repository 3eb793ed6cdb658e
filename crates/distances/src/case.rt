// What is lent to a call: two cells. Face 0 joins them; faces 1 and 2, one of each, are linked; face 3, of cell 0, has a
// fixed value, and face 4, of cell 1, zero gradient.
use crate::change::{Change, Part};
use mesh::{Answer, Conditions, Counts, Faces, Field, Grid, Mesh};
use std::alloc::{AllocError, Global};

// The mesh, its conditions with the number of their mesh, and the responses. What some case gives another length is a
// `Vec`.
#[derive(Drop)]
pub struct Case {
    pub counts: Counts,
    pub adjacency: Vec<usize>,
    pub geometry: Vec<f64>,
    pub heads: Vec<usize>,
    pub places: Vec<f64>,
    pub number: u64,
    pub codes: Vec<usize>,
    pub values: Vec<f64>,
    pub responses: [f64; 2],
}

// The number of the mesh.
const MESH: u64 = 7;

const ADJACENCY: [usize; 10] = [0, 2, 0, 0, 1, 0, 0, 0, 1, 0];

const HEADS: [usize; 4] = [1, 1, 4, 2];

const PLACES: [f64; 8] = [0.25, 0.5, 0.125, 1.0, 1.75, 0.25, -0.25, 1.0];

const FACING: [usize; 12] = [0, 2, 1, 3, 3, 0, 0, 5, 2, 6, 4, 0];

const BORDERING: [usize; 4] = [1, 0, 0, 0];

const CODES: [usize; 10] = [0, 0, 0, 3, 0, 2, 1, 0, 2, 0];

// In the places of the distances stands what none is.
const GEOMETRY: [f64; 55] = [
    1.0, 0.375, 0.25, 1.0, 0.25, 0.125, 1.0, 0.0, 0.0, -1.0, -1.0, // face 0
    -0.5, 0.5, 0.25, -1.0, 0.0, 0.0, -1.0, 0.0, 0.0, -1.0, -1.0, // face 1
    2.5, 0.25, 0.0, 1.0, 0.0, 0.0, 1.0, 0.0, 0.0, -1.0, -1.0, // face 2
    0.5, -0.2, 0.4, 0.0, -1.0, 0.0, 0.0, -1.0, 0.0, -1.0, -1.0, // face 3
    1.5, 1.0, -0.375, 0.0, 1.0, 0.0, 0.0, 1.0, 0.0, -1.0, -1.0, // face 4
];

// The translations of the links are a little off: face 1 is 1.25 from the image of cell 1.
const VALUES: [f64; 20] = [
    0.0, 0.0, 0.0, 0.0, // face 0
    0.0, 3.0, -0.25, 0.5, // face 1
    0.0, -3.0, 0.25, -0.5, // face 2
    4.0, 0.0, 0.0, 0.0, // face 3
    0.0, 0.0, 0.0, 0.0, // face 4
];

// The mesh as it stands.
pub(crate) fn base(alloc: Global) -> Result<Case, AllocError> {
    Ok(Case {
        counts: Counts {
            mesh: MESH,
            dimension: 3,
            cells: 2,
            faces: 5,
            facings: 6,
            borderings: 2,
        },
        adjacency: Vec::from_slice(alloc, &ADJACENCY)?,
        geometry: Vec::from_slice(alloc, &GEOMETRY)?,
        heads: Vec::from_slice(alloc, &HEADS)?,
        places: Vec::from_slice(alloc, &PLACES)?,
        number: MESH,
        codes: Vec::from_slice(alloc, &CODES)?,
        values: Vec::from_slice(alloc, &VALUES)?,
        responses: [0.5, 0.25],
    })
}

// The mesh with the distances that belong to it, and then so many changes, one after another.
pub(crate) fn made(alloc: Global, changes: &[Change]) -> Result<Case, AllocError> {
    let mut case = base(alloc)?;
    case.change(&[Change::Refilled])?;
    case.change(changes)?;
    Ok(case)
}

impl Case {
    pub(crate) fn change(&mut self, changes: &[Change]) -> Result<(), AllocError> {
        for change in changes {
            change.apply(self)?;
        }
        Ok(())
    }

    pub(crate) fn make_distances(&mut self) -> Answer {
        let faces = Faces {
            counts: self.counts,
            adjacency: &self.adjacency,
        };
        mesh::face_distances(
            &faces,
            &self.places,
            self.number,
            &self.codes,
            &mut self.geometry,
        )
    }

    fn grid(&self) -> Grid<'_> {
        Grid {
            counts: self.counts,
            adjacency: &self.adjacency,
            geometry: &self.geometry,
            places: &self.places,
        }
    }

    fn conditions(&self) -> Conditions<'_> {
        Conditions {
            number: self.number,
            codes: &self.codes,
            values: &self.values,
        }
    }

    pub(crate) fn check(&self) -> Answer {
        let mesh = Mesh {
            counts: self.counts,
            adjacency: &self.adjacency,
            geometry: &self.geometry,
            heads: &self.heads,
            places: &self.places,
            facing: &FACING,
            bordering: &BORDERING,
        };
        mesh.check(&self.conditions())
    }

    // The coefficients, with the links where `linked` says so.
    pub(crate) fn coefficients(&self, linked: bool, out: &mut [f64]) -> Answer {
        let responses = Field {
            number: MESH,
            values: &self.responses,
        };
        if !linked {
            return simple::pressure_face_coefficients(&self.grid(), &responses, out);
        }
        simple::pressure_face_coefficients_with_boundary(
            &self.grid(),
            &self.conditions(),
            &responses,
            out,
        )
    }

    // Adds a face like face 3.
    pub(crate) fn add_face(&mut self) -> Result<(), AllocError> {
        self.adjacency.extend_from_slice(&[0, 0])?;
        for i in 33..44 {
            if let Some(x) = self.geometry.get(i) {
                let x = *x;
                self.geometry.push(x)?;
            }
        }
        self.codes.extend_from_slice(&[1, 0])?;
        self.values.extend_from_slice(&[4.0, 0.0, 0.0, 0.0])?;
        self.counts.faces = self.adjacency.len() / 2;
        Ok(())
    }

    // The slice of whole numbers, or of floats, that a part is.
    pub(crate) fn whole_mut(&mut self, part: Part) -> Option<&mut Vec<usize>> {
        match part {
            Part::Adjacency => Some(&mut self.adjacency),
            Part::Heads => Some(&mut self.heads),
            Part::Codes => Some(&mut self.codes),
            _ => None,
        }
    }

    pub(crate) fn floats_mut(&mut self, part: Part) -> Option<&mut Vec<f64>> {
        match part {
            Part::Geometry => Some(&mut self.geometry),
            Part::Places => Some(&mut self.places),
            Part::Values => Some(&mut self.values),
            _ => None,
        }
    }
}
