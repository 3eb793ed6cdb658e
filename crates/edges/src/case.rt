// What is lent to an entry.
use crate::change::{FLOATS, Part, copy_to};
use mesh::{Conditions, Counts, Field, Mesh};
use numerics::Stencil;

// An entry is lent some of these; what it hands out is as long as what the case has by that name.
#[derive(Clone, Copy)]
pub struct Case<'a> {
    pub mesh: Mesh<'a>,
    pub conditions: Conditions<'a>,
    pub stencil: Stencil<'a>,
    pub diagonal: &'a [f64],
    pub responses: Field<'a>,
    pub pressure: Field<'a>,
    pub velocity: Field<'a>,
    pub gradient: Field<'a>,
    pub walls: Field<'a>,
    pub predicted: Field<'a>,
    pub coefficients: Field<'a>,
    pub correction: Field<'a>,
    pub flux: Field<'a>,
    pub outflow: &'a [f64],
    pub metrics: &'a [f64],
    pub corrected: &'a [f64],
}

// The number of the mesh.
const MESH: u64 = 7;

// Two unit squares side by side: face 0 joins cells 0 and 1; faces 1 and 2, to the left and to the
// right, are linked; faces 3 and 4 are below and above cell 0, faces 5 and 6 below and above cell 1.
const SQUARES: Mesh<'static> = Mesh {
    counts: Counts {
        mesh: MESH,
        dimension: 2,
        cells: 2,
        faces: 7,
        facings: 8,
        borderings: 2,
    },
    adjacency: &[0, 2, 0, 0, 1, 0, 0, 0, 0, 0, 1, 0, 1, 0],
    geometry: &[
        1.0, 0.5, 0.0, 1.0, 0.0, 0.0, 1.0, 0.0, 0.0, 0.5, 0.5, // face 0
        0.0, 0.5, 0.0, -1.0, 0.0, 0.0, -1.0, 0.0, 0.0, 0.5, 0.5, // face 1
        2.0, 0.5, 0.0, 1.0, 0.0, 0.0, 1.0, 0.0, 0.0, 0.5, 0.5, // face 2
        0.5, 0.0, 0.0, 0.0, -1.0, 0.0, 0.0, -1.0, 0.0, 0.5, 0.0, // face 3
        0.5, 1.0, 0.0, 0.0, 1.0, 0.0, 0.0, 1.0, 0.0, 0.5, 0.0, // face 4
        1.5, 0.0, 0.0, 0.0, -1.0, 0.0, 0.0, -1.0, 0.0, 0.5, 0.0, // face 5
        1.5, 1.0, 0.0, 0.0, 1.0, 0.0, 0.0, 1.0, 0.0, 0.5, 0.0, // face 6
    ],
    heads: &[1, 1, 5, 2],
    places: &[0.5, 0.5, 0.0, 1.0, 1.5, 0.5, 0.0, 1.0],
    facing: &[0, 2, 1, 3, 3, 4, 4, 0, 0, 6, 2, 7, 5, 8, 6, 0],
    bordering: &[1, 0, 0, 0],
};

// Faces 3 and 6 have a fixed value, faces 4 and 5 zero gradient.
const CONDITIONS: Conditions<'static> = Conditions {
    number: MESH,
    codes: &[0, 0, 0, 3, 0, 2, 1, 0, 2, 0, 2, 0, 1, 0],
    values: &[
        0.0, 0.0, 0.0, 0.0, // face 0
        0.0, 2.0, 0.0, 0.0, // face 1
        0.0, -2.0, 0.0, 0.0, // face 2
        4.0, 0.0, 0.0, 0.0, // face 3
        0.0, 0.0, 0.0, 0.0, // face 4
        0.0, 0.0, 0.0, 0.0, // face 5
        2.0, 0.0, 0.0, 0.0, // face 6
    ],
};

// It has room for one record more than the stencil of the squares has.
const STENCIL: Stencil<'static> = Stencil {
    number: MESH,
    records: 7,
    starts: &[1, 4],
    equations: &[3, 2, 3, 3, 1, 0, 2, 5, 2, 6, 1, 7, 0, 0],
    weights: &[
        1.0, 0.0, 0.0, 0.0, // record 1
        -0.7, 0.0, 0.0, 0.0, // record 2
        0.0, -2.0, 0.0, 4.0, // record 3
        -1.0, 0.0, 0.0, 0.0, // record 4
        0.7, 0.0, 0.0, 0.0, // record 5
        0.0, 2.0, 0.0, 2.0, // record 6
        1.0, 1.0, 0.0, 0.0, // record 7
    ],
    inverses: &[
        0.5, 0.0, 0.0, 0.0, 1.0, 0.0, 0.0, 0.0, 0.0, // cell 0
        0.5, 0.1, 0.0, 0.1, 1.0, 0.0, 0.0, 0.0, 0.0, // cell 1
    ],
};

// `twocell` has the same for its own mesh.
const fn field(values: &[f64]) -> Field<'_> {
    Field {
        number: MESH,
        values,
    }
}

// The case that every entry accepts.
pub(crate) fn base<'a>() -> Case<'a> {
    Case {
        mesh: SQUARES,
        conditions: CONDITIONS,
        stencil: STENCIL,
        diagonal: &[2.0, 3.0],
        responses: field(&[0.5, 0.25]),
        pressure: field(&[0.1, 0.7]),
        velocity: field(&[1.0, 0.5, 0.0, 3.0, 0.3, 0.0]),
        gradient: field(&[1.0, 0.5, 0.0, 4.0, 0.3, 0.0]),
        walls: field(&[0.0, 2.0, -2.0, 0.5, -0.6, 0.3, 1.0]),
        predicted: field(&[2.0, -1.0, 1.0, 0.0, 0.1, 0.2, -0.3]),
        coefficients: field(&[0.5, 1.0, 1.0, 2.0, 0.0, 0.0, 0.7]),
        correction: field(&[1.0, 3.0]),
        flux: field(&[1.0, -1.0, 0.7, 0.1, 0.2, -0.5, 0.3]),
        outflow: &[0.0; 2],
        metrics: &[0.0; 2],
        corrected: &[0.0; 6],
    }
}

impl<'a> Case<'a> {
    // Puts a copy of the geometry in its place, with the distances of each face made anew. Where that is refused, as it
    // is in no case, they stay.
    pub(crate) fn make_distances(&mut self, copy: &'a mut [f64; FLOATS]) {
        copy_to(self.mesh.geometry, copy);
        let _ = mesh::face_distances(
            &self.mesh.grid().faces(),
            self.mesh.places,
            self.conditions.number,
            self.conditions.codes,
            copy,
        );
        self.mesh.geometry = copy;
    }

    // The slice of whole numbers, or of floats, that a part is.
    pub(crate) fn whole_mut(&mut self, part: Part) -> Option<&mut &'a [usize]> {
        match part {
            Part::Adjacency => Some(&mut self.mesh.adjacency),
            Part::Heads => Some(&mut self.mesh.heads),
            Part::Facing => Some(&mut self.mesh.facing),
            Part::Codes => Some(&mut self.conditions.codes),
            Part::Starts => Some(&mut self.stencil.starts),
            Part::Equations => Some(&mut self.stencil.equations),
            _ => None,
        }
    }

    pub(crate) fn floats_mut(&mut self, part: Part) -> Option<&mut &'a [f64]> {
        match part {
            Part::Geometry => Some(&mut self.mesh.geometry),
            Part::Places => Some(&mut self.mesh.places),
            Part::Values => Some(&mut self.conditions.values),
            Part::Diagonal => Some(&mut self.diagonal),
            Part::Outflow => Some(&mut self.outflow),
            Part::Metrics => Some(&mut self.metrics),
            _ => Some(&mut self.field_mut(part)?.values),
        }
    }

    fn field_mut(&mut self, part: Part) -> Option<&mut Field<'a>> {
        match part {
            Part::Responses => Some(&mut self.responses),
            Part::Pressure => Some(&mut self.pressure),
            Part::Velocity => Some(&mut self.velocity),
            Part::Gradient => Some(&mut self.gradient),
            Part::Walls => Some(&mut self.walls),
            Part::Coefficients => Some(&mut self.coefficients),
            Part::Correction => Some(&mut self.correction),
            Part::Flux => Some(&mut self.flux),
            _ => None,
        }
    }

    // The mesh number beside a slice.
    pub(crate) fn number_mut(&mut self, part: Part) -> Option<&mut u64> {
        match part {
            Part::Codes => Some(&mut self.conditions.number),
            Part::Starts => Some(&mut self.stencil.number),
            _ => Some(&mut self.field_mut(part)?.number),
        }
    }
}
