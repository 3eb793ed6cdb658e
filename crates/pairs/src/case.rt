// What is lent to a step: two cells, which faces 0 and 8 join, one from each side. Face 1, of cell 1, has a fixed value.
// Faces 2 and 3 are linked, and faces 4 and 5, of which the lower is cell 1's, with zero gradient, and the higher cell
// 0's, with a fixed value. Face 6, of cell 0, has a fixed value, face 7, of cell 1, zero gradient.
use crate::change::{Change, Part};
use mesh::{Answer, Conditions, Counts, Faces, Field, Mesh};
use std::alloc::{AllocError, Global};
use step::{Fields, Outputs};

// The number of the mesh.
const MESH: u64 = 7;

const COUNTS: Counts = Counts {
    mesh: MESH,
    dimension: 3,
    cells: 2,
    faces: 9,
    facings: 11,
    borderings: 2,
};

// One more than the stencil has.
pub const RECORDS: usize = 11;

const ADJACENCY: [usize; 18] = [0, 2, 1, 0, 0, 0, 1, 0, 1, 0, 0, 0, 0, 0, 1, 0, 1, 1];

const HEADS: [usize; 4] = [1, 1, 6, 2];

const BORDERING: [usize; 4] = [1, 0, 0, 0];

// What the cases change. The wall fluxes are a `Vec`, since they have another length in some case, and the others are
// arrays.
#[derive(Drop)]
pub struct Case {
    pub geometry: [f64; 99],
    pub places: [f64; 8],
    pub facing: [usize; 22],
    pub codes: [usize; 18],
    pub values: [f64; 36],
    pub velocity: [f64; 6],
    pub pressure: [f64; 2],
    pub responses: [f64; 2],
    pub number: u64,
    pub walls: Vec<f64>,
    pub correction: [f64; 2],
}

// The mesh with the distances that belong to it, and then so many changes, one after another. In the places of the
// distances stands what none is. No linked face is as far from the image before it as its peer is from its owner.
pub(crate) fn made(alloc: Global, changes: &[Change]) -> Result<Case, AllocError> {
    let mut case = Case {
        geometry: [
            1.0, 0.375, 0.25, 1.1, 0.25, 0.125, 1.0, 0.0, 0.0, -1.0, -1.0, // face 0
            1.9, 0.3, -1.2, 0.1, 0.0, -1.2, 0.0, 0.0, -1.0, -1.0, -1.0, // face 1
            -0.5, 0.5, 0.25, -1.1, -0.3, -0.25, -1.0, 0.0, 0.0, -1.0, -1.0, // face 2
            2.5, 0.25, 0.0, 1.1, 0.3, 0.25, 1.0, 0.0, 0.0, -1.0, -1.0, // face 3
            1.6, -0.75, -0.1, 0.1, -1.0, 0.2, 0.0, -1.0, 0.0, -1.0, -1.0, // face 4
            0.5, 1.25, 0.3, 0.0, 0.9, -0.3, 0.0, 1.0, 0.0, -1.0, -1.0, // face 5
            0.5, -0.2, 0.4, 0.1, -1.0, 0.2, 0.0, -1.0, 0.0, -1.0, -1.0, // face 6
            1.5, 1.0, -0.375, -0.2, 0.9, 0.3, 0.0, 1.0, 0.0, -1.0, -1.0, // face 7
            1.0, 0.2, -0.3, -0.4, 0.3, -0.7, 0.0, 0.0, -1.0, -1.0, -1.0, // face 8
        ],
        places: [0.25, 0.5, 0.125, 1.7, 1.75, 0.25, -0.25, 0.7],
        facing: [
            0, 2, 2, 3, 5, 4, 6, 5, 8, 0, // cell 0
            0, 7, 1, 8, 3, 9, 4, 10, 7, 11, 8, 0, // cell 1
        ],
        codes: [0, 0, 1, 0, 0, 4, 0, 3, 2, 6, 1, 5, 1, 0, 2, 0, 0, 0],
        values: [
            0.0, 0.0, 0.0, 0.0, // face 0
            2.0, 0.0, 0.0, 0.0, // face 1
            0.0, 3.125, -0.125, 0.5, // face 2
            0.0, -3.125, 0.125, -0.5, // face 3
            0.0, -1.125, 2.0, 0.375, // face 4
            5.0, 1.125, -2.0, -0.375, // face 5
            4.0, 0.0, 0.0, 0.0, // face 6
            0.0, 0.0, 0.0, 0.0, // face 7
            0.0, 0.0, 0.0, 0.0, // face 8
        ],
        velocity: [1.0, 0.5, 0.1, 3.0, -0.3, 0.2],
        pressure: [1.1, -0.7],
        responses: [0.7, 0.25],
        number: MESH,
        walls: vec![in alloc; 0.3, 0.2, 2.0, -2.0, 0.5, 0.1, -0.6, 0.3, 0.7]?,
        correction: [1.0, 3.0],
    };
    Change::Refilled.apply(&mut case)?;
    for change in changes {
        change.apply(&mut case)?;
    }
    Ok(case)
}

const fn field(values: &[f64]) -> Field<'_> {
    Field {
        number: MESH,
        values,
    }
}

impl Case {
    pub(crate) fn make_distances(&mut self) -> Answer {
        let faces = Faces {
            counts: COUNTS,
            adjacency: &ADJACENCY,
        };
        mesh::face_distances(&faces, &self.places, MESH, &self.codes, &mut self.geometry)
    }

    pub(crate) fn call(&self, out: &mut Outputs<'_>) -> Answer {
        let mesh = Mesh {
            counts: COUNTS,
            adjacency: &ADJACENCY,
            geometry: &self.geometry,
            heads: &HEADS,
            places: &self.places,
            facing: &self.facing,
            bordering: &BORDERING,
        };
        let conditions = Conditions {
            number: MESH,
            codes: &self.codes,
            values: &self.values,
        };
        let fields = Fields {
            velocity: field(&self.velocity),
            pressure: field(&self.pressure),
            responses: field(&self.responses),
            walls: Field {
                number: self.number,
                values: &self.walls,
            },
            correction: field(&self.correction),
        };
        step::step(&mesh, &conditions, &fields, out)
    }

    // The slice that a part is.
    pub(crate) fn floats_mut(&mut self, part: Part) -> &mut [f64] {
        match part {
            Part::Geometry => &mut self.geometry,
            Part::Places => &mut self.places,
            Part::Values => &mut self.values,
            Part::Velocity => &mut self.velocity,
            Part::Pressure => &mut self.pressure,
            Part::Responses => &mut self.responses,
            Part::Walls => &mut self.walls,
            Part::Correction => &mut self.correction,
        }
    }
}
