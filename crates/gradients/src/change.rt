// What the cases change.
use crate::case::Case;
use std::alloc::AllocError;

// A slice that a case changes.
#[derive(Clone, Copy)]
pub enum Part {
    Adjacency,
    Geometry,
    Places,
    Codes,
    Values,
    Pressure,
    FaceValues,
    Gradient,
}

#[derive(Clone, Copy)]
pub enum Change {
    Dimension(usize),

    // The number of face records that is counted, whatever is lent.
    FaceRecords(usize),

    // The length of a slice, lent or handed out.
    Length(Part, usize),

    // The mesh number beside a slice.
    Number(Part, u64),

    // One number of a slice.
    Whole(Part, usize, usize),
    Float(Part, usize, f64),

    // The lowest bit of a number of the geometry.
    Flipped(usize),

    // The distances of every face made anew.
    Refilled,

    // So many faces more, like face 3.
    Faces(u8),
}

impl Change {
    pub(crate) fn apply(self, case: &mut Case) -> Result<(), AllocError> {
        match self {
            Change::Dimension(n) => case.counts.dimension = n,
            Change::FaceRecords(n) => case.counts.facings = n,
            Change::Length(part, n) => {
                if let Some(slice) = case.whole_mut(part) {
                    slice.resize(n, 1)?;
                } else if let Some(slice) = case.floats_mut(part) {
                    slice.resize(n, 1.0)?;
                } else {
                    case.outs = n;
                }
            }
            Change::Number(part, n) => *case.number_mut(part) = n,
            Change::Whole(part, i, n) => {
                if let Some(slice) = case.whole_mut(part)
                    && let Some(number) = slice.get_mut(i)
                {
                    *number = n;
                }
            }
            Change::Float(part, i, x) => {
                if let Some(slice) = case.floats_mut(part)
                    && let Some(number) = slice.get_mut(i)
                {
                    *number = x;
                }
            }
            Change::Flipped(i) => {
                if let Some(number) = case.geometry.get_mut(i) {
                    *number = pattern::value(pattern::bits(*number) ^ 1);
                }
            }
            // It is accepted, and a case that is not would show it.
            Change::Refilled => {
                let _ = case.make_distances();
            }
            Change::Faces(n) => {
                for _ in 0..n {
                    case.add_face()?;
                }
            }
        }
        Ok(())
    }
}
