// What is lent to a call. The numbers are those of the program `edges`: two unit squares side by side. Face
// 0 joins cells 0 and 1; faces 1 and 2, to the left and to the right, are linked; faces 3 and 4 are below and
// above cell 0, faces 5 and 6 below and above cell 1. Faces 3 and 6 have a fixed value, faces 4 and 5 zero
// gradient.
use crate::change::Part;
use mesh::{Answer, Conditions, Counts, Faces, Field};
use simple::Corrections;

// The most numbers that a flux has in any case: one more than the mesh has faces.
const ROOM: usize = 8;

// A flux, which has another length in some case: the first `length` of these numbers.
#[derive(Clone, Copy)]
pub struct Flux {
    pub numbers: [f64; ROOM],
    pub length: usize,
}

impl Flux {
    pub(crate) fn as_slice(&self) -> &[f64] {
        &self.numbers[..self.length.min(ROOM)]
    }

    pub(crate) fn as_mut_slice(&mut self) -> &mut [f64] {
        &mut self.numbers[..self.length.min(ROOM)]
    }
}

// The mesh and the slices, each with its mesh number beside it. The flux is the predicted flux before the
// call, and the corrected flux after it.
#[derive(Clone, Copy)]
pub struct Case {
    pub counts: Counts,
    pub adjacency: [usize; 14],
    pub conditions: u64,
    pub codes: [usize; 14],
    pub coefficient: u64,
    pub coefficients: [f64; 7],
    pub correction: u64,
    pub corrections: [f64; 2],
    pub prediction: u64,
    pub flux: Flux,
}

// The number of the mesh.
const MESH: u64 = 7;

// The translations of faces 1 and 2, and the fixed values of faces 3 and 6.
const VALUES: [f64; 28] = [
    0.0, 0.0, 0.0, 0.0, // face 0
    0.0, 2.0, 0.0, 0.0, // face 1
    0.0, -2.0, 0.0, 0.0, // face 2
    4.0, 0.0, 0.0, 0.0, // face 3
    0.0, 0.0, 0.0, 0.0, // face 4
    0.0, 0.0, 0.0, 0.0, // face 5
    2.0, 0.0, 0.0, 0.0, // face 6
];

// The case that is accepted.
pub(crate) fn base() -> Case {
    Case {
        counts: Counts {
            mesh: MESH,
            dimension: 2,
            cells: 2,
            faces: 7,
            facings: 8,
            borderings: 2,
        },
        adjacency: [0, 2, 0, 0, 1, 0, 0, 0, 0, 0, 1, 0, 1, 0],
        conditions: MESH,
        codes: [0, 0, 0, 3, 0, 2, 1, 0, 2, 0, 2, 0, 1, 0],
        coefficient: MESH,
        coefficients: [0.5, 1.0, 1.0, 2.0, 0.0, 0.0, 0.7],
        correction: MESH,
        corrections: [1.0, 3.0],
        prediction: MESH,
        flux: Flux {
            numbers: [2.0, -1.0, 1.0, 0.0, 0.1, 0.2, -0.3, 1.0],
            length: 7,
        },
    }
}

impl Case {
    pub(crate) fn call(&mut self) -> Answer {
        let faces = Faces {
            counts: self.counts,
            adjacency: &self.adjacency,
        };
        let conditions = Conditions {
            number: self.conditions,
            codes: &self.codes,
            values: &VALUES,
        };
        let fields = Corrections {
            coefficients: Field {
                number: self.coefficient,
                values: &self.coefficients,
            },
            correction: Field {
                number: self.correction,
                values: &self.corrections,
            },
        };
        simple::correct_face_flux_in_place(
            &faces,
            &conditions,
            &fields,
            self.prediction,
            self.flux.as_mut_slice(),
        )
    }

    // The slice of whole numbers, or of floats, that a part is.
    pub(crate) fn whole_mut(&mut self, part: Part) -> Option<&mut [usize]> {
        match part {
            Part::Adjacency => Some(&mut self.adjacency),
            Part::Codes => Some(&mut self.codes),
            _ => None,
        }
    }

    pub(crate) fn floats_mut(&mut self, part: Part) -> Option<&mut [f64]> {
        match part {
            Part::Coefficients => Some(&mut self.coefficients),
            Part::Correction => Some(&mut self.corrections),
            Part::Predicted => Some(self.flux.as_mut_slice()),
            _ => None,
        }
    }

    // The mesh number beside a slice.
    pub(crate) fn number_mut(&mut self, part: Part) -> &mut u64 {
        match part {
            Part::Adjacency => &mut self.counts.mesh,
            Part::Codes => &mut self.conditions,
            Part::Coefficients => &mut self.coefficient,
            Part::Correction => &mut self.correction,
            Part::Predicted => &mut self.prediction,
        }
    }
}
