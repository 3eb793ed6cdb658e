// What the cases change.
use crate::case::Case;
use std::alloc::AllocError;

#[derive(Clone, Copy)]
pub enum Change {
    Dimension(usize),

    // The number of the conditions' mesh.
    Number(u64),

    // So many faces more, of one cell.
    Of(u8, u16),

    // So many faces more of each of the first cells, as many cells as the second number says.
    Each(u8, u16),

    // So many faces more, with this owner and this neighbour.
    Between(u8, u16, u16),

    // The number of faces that is counted, whatever is lent.
    Counted(usize),

    // A face's condition code, and its link's peer as it is stored, a face + 1.
    Code(u8, usize),
    Peer(u8, usize),

    // A face's own distance.
    Own(u16, f64),

    // The first records of a cell's chains. Records are counted from 1.
    FirstFace(u8, usize),
    FirstNeighbour(u8, usize),

    // The face that a face record names, and the record that follows it.
    Face(u8, usize),
    NextFace(u8, usize),
}

// Makes number `member` of the pair i of a slice x.
fn set(pairs: &mut [usize], i: u8, member: u8, x: usize) {
    if let Some(number) = pairs.get_mut(2 * usize::from(i) + usize::from(member)) {
        *number = x;
    }
}

impl Change {
    pub(crate) fn apply(self, case: &mut Case) -> Result<(), AllocError> {
        match self {
            Change::Dimension(n) => case.counts.dimension = n,
            Change::Number(n) => case.number = n,
            Change::Of(n, cell) => case.extend(n, cell, 0)?,
            Change::Each(n, cells) => {
                for cell in 0..cells {
                    case.extend(n, cell, 0)?;
                }
            }
            Change::Between(n, owner, neighbour) => {
                case.extend(n, owner, usize::from(neighbour) + 1)?
            }
            Change::Counted(n) => case.counts.faces = n,
            Change::Code(face, code) => set(&mut case.codes, face, 0, code),
            Change::Peer(face, stored) => set(&mut case.codes, face, 1, stored),
            Change::Own(face, x) => {
                if let Some(number) = case.geometry.get_mut(11 * usize::from(face) + 9) {
                    *number = x;
                }
            }
            Change::FirstFace(cell, r) => set(&mut case.heads, cell, 0, r),
            Change::FirstNeighbour(cell, r) => set(&mut case.heads, cell, 1, r),
            Change::Face(r, face) => set(&mut case.facing, r.saturating_sub(1), 0, face),
            Change::NextFace(r, next) => set(&mut case.facing, r.saturating_sub(1), 1, next),
        }
        Ok(())
    }
}
