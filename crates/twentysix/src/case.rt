// Meshes to which the cases add faces, with their conditions and links.
use crate::change::Change;
use mesh::{Answer, Conditions, Counts, Mesh};
use std::alloc::{AllocError, Global};

// The first of 30 records, each chained to the next, from which a chain has 26 records, and 27.
pub const HEAD_OF_26: usize = 5;

pub const HEAD_OF_27: usize = 4;

// What is lent: a mesh, and the conditions with the number of their mesh. The floats are zeros: all centres are in
// one place, and every distance is right.
#[derive(Drop)]
pub struct Case {
    pub counts: Counts,
    pub adjacency: Vec<usize>,
    pub geometry: Vec<f64>,
    pub heads: Vec<usize>,
    pub places: Vec<f64>,
    pub facing: Vec<usize>,
    pub bordering: Vec<usize>,
    pub number: u64,
    pub codes: Vec<usize>,
    pub values: Vec<f64>,
}

// 30 records, each but the last chained to the next. Each names face 0, or cell 0.
fn chain(alloc: Global) -> Result<Vec<usize>, AllocError> {
    let mut records = Vec::new(alloc);
    for next in 2..=30 {
        records.extend_from_slice(&[0, next])?;
    }
    records.extend_from_slice(&[0, 0])?;
    Ok(records)
}

// So many cells with no face and no chain. There are 30 face records and 30 neighbour records.
fn with_cells(alloc: Global, cells: u16) -> Result<Case, AllocError> {
    let cells = usize::from(cells);
    Ok(Case {
        counts: Counts {
            mesh: 7,
            dimension: 3,
            cells,
            faces: 0,
            facings: 30,
            borderings: 30,
        },
        adjacency: Vec::new(alloc),
        geometry: Vec::new(alloc),
        heads: vec![in alloc; 0; 2 * cells]?,
        places: vec![in alloc; 0.0; 4 * cells]?,
        facing: chain(alloc)?,
        bordering: chain(alloc)?,
        number: 7,
        codes: Vec::new(alloc),
        values: Vec::new(alloc),
    })
}

impl Case {
    pub(crate) fn check(&self) -> Answer {
        let mesh = Mesh {
            counts: self.counts,
            adjacency: &self.adjacency,
            geometry: &self.geometry,
            heads: &self.heads,
            places: &self.places,
            facing: &self.facing,
            bordering: &self.bordering,
        };
        mesh.check(&Conditions {
            number: self.number,
            codes: &self.codes,
            values: &self.values,
        })
    }

    // Adds so many faces, each with this owner and with its neighbour as it is stored, a cell + 1.
    pub(crate) fn extend(
        &mut self,
        faces: u8,
        owner: u16,
        stored: usize,
    ) -> Result<(), AllocError> {
        for _ in 0..faces {
            self.adjacency
                .extend_from_slice(&[usize::from(owner), stored])?;
            self.geometry.extend_from_slice(&[0.0; 11])?;
            self.codes.extend_from_slice(&[0; 2])?;
            self.values.extend_from_slice(&[0.0; 4])?;
        }
        self.counts.faces = self.adjacency.len() / 2;
        Ok(())
    }
}

// So many cells with so many changes, one after another.
pub(crate) fn of(alloc: Global, cells: u16, changes: &[Change]) -> Result<Case, AllocError> {
    let mut case = with_cells(alloc, cells)?;
    for change in changes {
        change.apply(&mut case)?;
    }
    Ok(case)
}
