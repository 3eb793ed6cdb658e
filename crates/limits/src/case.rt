// Small meshes with their conditions and links.
use crate::change::Change;
use crate::lent::Lent;
use mesh::{Answer, Conditions, Counts, Mesh};

// What is lent: a mesh, and the conditions with the number of their mesh. The small meshes have zeros for
// floats: all centres are in one place, and every distance is right. An array has room for a number more than
// any mesh here needs: a longer slice, cut to it, has a wrong length still.
#[derive(Clone, Copy)]
pub struct Case {
    pub counts: Counts,
    pub adjacency: Lent<usize, 13>,
    pub geometry: Lent<f64, 67>,
    pub heads: Lent<usize, 9>,
    pub places: Lent<f64, 17>,
    pub facing: Lent<usize, 19>,
    pub bordering: Lent<usize, 13>,
    pub number: u64,
    pub codes: Lent<usize, 13>,
    pub values: Lent<f64, 25>,
}

// Two cells and three faces: face 0 joins the cells, and faces 1 and 2 are one-cell faces of cells
// 0 and 1.
pub(crate) fn pair() -> Case {
    Case {
        counts: Counts {
            mesh: 7,
            dimension: 2,
            cells: 2,
            faces: 3,
            facings: 4,
            borderings: 2,
        },
        adjacency: Lent::of(&[0, 2, 0, 0, 1, 0]),
        geometry: Lent::of(&[0.0; 33]),
        heads: Lent::of(&[1, 1, 3, 2]),
        places: Lent::of(&[0.0; 8]),
        facing: Lent::of(&[0, 2, 1, 0, 0, 4, 2, 0]),
        bordering: Lent::of(&[1, 0, 0, 0]),
        number: 7,
        codes: Lent::of(&[0, 0, 1, 0, 2, 0]),
        values: Lent::of(&[0.0; 12]),
    }
}

// Four cells in a row and six faces: faces 1, 2 and 3 join the cells, and faces 0, 4 and 5 are
// one-cell faces of cells 0, 3 and 2. Cells 0 to 3 have the face records 1 and 2, 3 and 4, 5 to 7,
// and 8 and 9, and the neighbour records 1, 2 and 3, 4 and 5, and 6.
pub(crate) fn row() -> Case {
    Case {
        counts: Counts {
            mesh: 7,
            dimension: 3,
            cells: 4,
            faces: 6,
            facings: 9,
            borderings: 6,
        },
        adjacency: Lent::of(&[0, 0, 0, 2, 1, 3, 2, 4, 3, 0, 2, 0]),
        geometry: Lent::of(&[0.0; 66]),
        heads: Lent::of(&[1, 1, 3, 2, 5, 4, 8, 6]),
        places: Lent::of(&[0.0; 16]),
        facing: Lent::of(&[0, 2, 1, 0, 1, 4, 2, 0, 2, 6, 3, 7, 5, 0, 3, 9, 4, 0]),
        bordering: Lent::of(&[1, 0, 0, 3, 2, 0, 1, 5, 3, 0, 2, 0]),
        number: 7,
        codes: Lent::of(&[1, 0, 0, 0, 0, 0, 0, 0, 2, 0, 0, 0]),
        values: Lent::of(&[0.0; 24]),
    }
}

impl Case {
    pub(crate) fn check(&self) -> Answer {
        let mesh = Mesh {
            counts: self.counts,
            adjacency: self.adjacency.as_slice(),
            geometry: self.geometry.as_slice(),
            heads: self.heads.as_slice(),
            places: self.places.as_slice(),
            facing: self.facing.as_slice(),
            bordering: self.bordering.as_slice(),
        };
        mesh.check(&Conditions {
            number: self.number,
            codes: self.codes.as_slice(),
            values: self.values.as_slice(),
        })
    }

    // The case with so many changes, one after another.
    pub(crate) fn with(&self, changes: &[Change]) -> Case {
        let mut case = *self;
        for change in changes {
            change.apply(&mut case);
        }
        case
    }
}
