// What is lent to a call: two cells, which faces 0 and 6 join, one from each side. Faces 1 and 2, one of each, are linked,
// and face 1 has a fixed value besides; face 3, of cell 0, has a fixed value, face 4, of cell 1, zero gradient, and face
// 5, of cell 0, no condition.
use crate::change::{Change, Part};
use mesh::{Answer, Conditions, Counts, Faces, Field, Grid};
use std::alloc::{AllocError, Global};
use std::fmt;

// An entry that is called.
#[derive(Clone, Copy)]
pub enum Entry {
    OfFaces,
    OfPressure,
    WithoutConditions,
}

impl Entry {
    pub const ALL: [Entry; 3] = [Entry::OfFaces, Entry::OfPressure, Entry::WithoutConditions];
}

impl fmt::Display for Entry {
    fn fmt<W: fmt::Write>(&self, f: &mut fmt::Formatter<W>) -> fmt::Result {
        f.write_str(match self {
            Entry::OfFaces => "gauss_gradient_from_faces",
            Entry::OfPressure => "pressure_coupling_gradient",
            Entry::WithoutConditions => "pressure_coupling_gradient_without_conditions",
        })
    }
}

// The mesh, its conditions, the pressure of its cells and values of its faces, with their mesh numbers, and the length of
// the output.
#[derive(Drop)]
pub struct Case {
    pub counts: Counts,
    pub adjacency: Vec<usize>,
    pub geometry: Vec<f64>,
    pub places: Vec<f64>,
    pub conditions: u64,
    pub codes: Vec<usize>,
    pub values: Vec<f64>,
    pub of_cells: u64,
    pub pressure: Vec<f64>,
    pub of_faces: u64,
    pub face_values: Vec<f64>,
    pub outs: usize,
}

// The number of the mesh.
const MESH: u64 = 7;

const ADJACENCY: [usize; 14] = [0, 2, 0, 0, 1, 0, 0, 0, 1, 0, 0, 0, 1, 1];

const CODES: [usize; 14] = [0, 0, 1, 3, 0, 2, 1, 0, 2, 0, 0, 0, 0, 0];

// In the places of the distances stands what none is.
const GEOMETRY: [f64; 77] = [
    1.0, 0.375, 0.25, 1.1, 0.25, 0.125, 1.0, 0.0, 0.0, -1.0, -1.0, // face 0
    -0.5, 0.5, 0.25, -1.1, 0.3, 0.0, -1.0, 0.0, 0.0, -1.0, -1.0, // face 1
    2.5, 0.25, 0.0, 1.1, -0.3, 0.0, 1.0, 0.0, 0.0, -1.0, -1.0, // face 2
    0.5, -0.2, 0.4, 0.1, -1.0, 0.2, 0.0, -1.0, 0.0, -1.0, -1.0, // face 3
    1.5, 1.0, -0.375, -0.2, 0.9, 0.3, 0.0, 1.0, 0.0, -1.0, -1.0, // face 4
    0.25, 0.6, 1.0, 0.0, 0.1, 1.3, 0.0, 0.0, 1.0, -1.0, -1.0, // face 5
    1.0, 0.2, -0.3, -0.4, 0.3, -0.7, 0.0, 0.0, -1.0, -1.0, -1.0, // face 6
];

// Face 3 again.
const FACE_3: [f64; 11] = [0.5, -0.2, 0.4, 0.1, -1.0, 0.2, 0.0, -1.0, 0.0, -1.0, -1.0];

const PLACES: [f64; 8] = [0.25, 0.5, 0.125, 1.7, 1.75, 0.25, -0.25, 0.7];

// The translations of the links are a little off: face 1 is 1.3287682265918313 from the image of cell 1.
const VALUES: [f64; 28] = [
    0.0, 0.0, 0.0, 0.0, // face 0
    5.0, 3.125, -0.25, 0.5, // face 1
    0.0, -3.125, 0.25, -0.5, // face 2
    4.0, 0.0, 0.0, 0.0, // face 3
    0.0, 0.0, 0.0, 0.0, // face 4
    0.0, 0.0, 0.0, 0.0, // face 5
    0.0, 0.0, 0.0, 0.0, // face 6
];

const PRESSURE: [f64; 2] = [1.1, -0.7];

const FACE_VALUES: [f64; 7] = [0.3, -1.1, 0.7, 2.0, -0.4, 0.9, 1.3];

// The mesh with the distances that belong to it, and then so many changes, one after another.
pub(crate) fn made(alloc: Global, changes: &[Change]) -> Result<Case, AllocError> {
    let mut case = Case {
        counts: Counts {
            mesh: MESH,
            dimension: 3,
            cells: 2,
            faces: 7,
            facings: 9,
            borderings: 2,
        },
        adjacency: Vec::from_slice(alloc, &ADJACENCY)?,
        geometry: Vec::from_slice(alloc, &GEOMETRY)?,
        places: Vec::from_slice(alloc, &PLACES)?,
        conditions: MESH,
        codes: Vec::from_slice(alloc, &CODES)?,
        values: Vec::from_slice(alloc, &VALUES)?,
        of_cells: MESH,
        pressure: Vec::from_slice(alloc, &PRESSURE)?,
        of_faces: MESH,
        face_values: Vec::from_slice(alloc, &FACE_VALUES)?,
        outs: 6,
    };
    case.change(&[Change::Refilled])?;
    case.change(changes)?;
    Ok(case)
}

impl Case {
    fn change(&mut self, changes: &[Change]) -> Result<(), AllocError> {
        for change in changes {
            change.apply(self)?;
        }
        Ok(())
    }

    pub(crate) fn make_distances(&mut self) -> Answer {
        let faces = Faces {
            counts: self.counts,
            adjacency: &self.adjacency,
        };
        mesh::face_distances(
            &faces,
            &self.places,
            self.counts.mesh,
            &self.codes,
            &mut self.geometry,
        )
    }

    pub(crate) fn call(&self, entry: Entry, out: &mut [f64]) -> Answer {
        let grid = Grid {
            counts: self.counts,
            adjacency: &self.adjacency,
            geometry: &self.geometry,
            places: &self.places,
        };
        let conditions = Conditions {
            number: self.conditions,
            codes: &self.codes,
            values: &self.values,
        };
        let pressure = Field {
            number: self.of_cells,
            values: &self.pressure,
        };
        let values = Field {
            number: self.of_faces,
            values: &self.face_values,
        };
        match entry {
            Entry::OfFaces => gauss::gauss_gradient_from_faces(&grid, &values, out),
            Entry::OfPressure => {
                gauss::pressure_coupling_gradient(&grid, &conditions, &pressure, out)
            }
            Entry::WithoutConditions => {
                gauss::pressure_coupling_gradient_without_conditions(&grid, &pressure, out)
            }
        }
    }

    // Adds a face like face 3.
    pub(crate) fn add_face(&mut self) -> Result<(), AllocError> {
        self.adjacency.extend_from_slice(&[0, 0])?;
        self.geometry.extend_from_slice(&FACE_3)?;
        self.codes.extend_from_slice(&[1, 0])?;
        self.values.extend_from_slice(&[4.0, 0.0, 0.0, 0.0])?;
        self.face_values.push(2.0)?;
        self.counts.faces = self.adjacency.len() / 2;
        Ok(())
    }

    // The slice of whole numbers, or of floats, that a part is.
    pub(crate) fn whole_mut(&mut self, part: Part) -> Option<&mut Vec<usize>> {
        match part {
            Part::Adjacency => Some(&mut self.adjacency),
            Part::Codes => Some(&mut self.codes),
            _ => None,
        }
    }

    pub(crate) fn floats_mut(&mut self, part: Part) -> Option<&mut Vec<f64>> {
        match part {
            Part::Geometry => Some(&mut self.geometry),
            Part::Places => Some(&mut self.places),
            Part::Values => Some(&mut self.values),
            Part::Pressure => Some(&mut self.pressure),
            Part::FaceValues => Some(&mut self.face_values),
            _ => None,
        }
    }

    // The mesh number beside a slice.
    pub(crate) fn number_mut(&mut self, part: Part) -> &mut u64 {
        match part {
            Part::Codes => &mut self.conditions,
            Part::Pressure => &mut self.of_cells,
            Part::FaceValues => &mut self.of_faces,
            _ => &mut self.counts.mesh,
        }
    }
}
