// What the cases change.
ghost use Rattle.std.specs.Prelude.{◌<◌};

use crate::case::Case;
use crate::lent::Lent;

// A lent slice.
#[derive(Clone, Copy)]
pub enum Part {
    Adjacency,
    Geometry,
    Heads,
    Places,
    Facing,
    Bordering,
    Codes,
    Values,
}

#[derive(Clone, Copy)]
pub enum Change {
    Dimension(usize),

    // The number of the mesh itself, and that of the conditions.
    Mesh(u64),
    Number(u64),

    // The length of a slice.
    Length(Part, usize),

    // A face's owner, its neighbour as it is stored, a cell + 1, its condition code, and its link's peer
    // as it is stored, a face + 1.
    Owner(u8, usize),
    Neighbour(u8, usize),
    Code(u8, usize),
    Peer(u8, usize),

    // The first records of a cell's chains.
    FirstFace(u8, usize),
    FirstNeighbour(u8, usize),

    // So many face records, the face that one names, and the record that follows it. Records are counted
    // from 1.
    Facings(u8),
    Face(u8, usize),
    NextFace(u8, usize),

    // The same of neighbour records.
    Borderings(u8),
    Cell(u8, usize),
    NextNeighbour(u8, usize),

    // x of a face's centre and of a cell's, and a face's distances.
    FaceCenter(u8, f64),
    CellCenter(u8, f64),
    Own(u8, f64),
    Other(u8, f64),
}

impl Part {
    // Lends so many numbers of a slice, with zeros past its end.
    fn resize(self, case: &mut Case, n: usize) {
        match self {
            Part::Adjacency => case.adjacency.resize(n),
            Part::Geometry => case.geometry.resize(n),
            Part::Heads => case.heads.resize(n),
            Part::Places => case.places.resize(n),
            Part::Facing => case.facing.resize(n),
            Part::Bordering => case.bordering.resize(n),
            Part::Codes => case.codes.resize(n),
            Part::Values => case.values.resize(n),
        }
    }
}

// Makes number `member` of the pair i x.
fn set<const CAP: usize>(pairs: &mut Lent<usize, CAP>, i: u8, member: usize, x: usize)
    requires { member < 2 }
{
    pairs.put(2 * usize::from(i) + member, x);
}

impl Change {
    pub(crate) fn apply(self, case: &mut Case) {
        match self {
            Change::Dimension(n) => case.counts.dimension = n,
            Change::Mesh(n) => case.counts.mesh = n,
            Change::Number(n) => case.number = n,
            Change::Length(part, n) => part.resize(case, n),
            Change::Owner(face, cell) => set(&mut case.adjacency, face, 0, cell),
            Change::Neighbour(face, stored) => set(&mut case.adjacency, face, 1, stored),
            Change::Code(face, code) => set(&mut case.codes, face, 0, code),
            Change::Peer(face, stored) => set(&mut case.codes, face, 1, stored),
            Change::FirstFace(cell, r) => set(&mut case.heads, cell, 0, r),
            Change::FirstNeighbour(cell, r) => set(&mut case.heads, cell, 1, r),
            Change::Facings(n) => {
                case.counts.facings = usize::from(n);
                case.facing.truncate(2 * usize::from(n));
            }
            Change::Face(r, face) => set(&mut case.facing, r.saturating_sub(1), 0, face),
            Change::NextFace(r, next) => set(&mut case.facing, r.saturating_sub(1), 1, next),
            Change::Borderings(n) => {
                case.counts.borderings = usize::from(n);
                case.bordering.truncate(2 * usize::from(n));
            }
            Change::Cell(r, cell) => set(&mut case.bordering, r.saturating_sub(1), 0, cell),
            Change::NextNeighbour(r, next) => {
                set(&mut case.bordering, r.saturating_sub(1), 1, next)
            }
            Change::FaceCenter(face, x) => case.geometry.put(11 * usize::from(face), x),
            Change::CellCenter(cell, x) => case.places.put(4 * usize::from(cell), x),
            Change::Own(face, x) => case.geometry.put(11 * usize::from(face) + 9, x),
            Change::Other(face, x) => case.geometry.put(11 * usize::from(face) + 10, x),
        }
    }
}
