// What the cases change.
use crate::case::Case;
use std::alloc::AllocError;

// A slice of floats that a case changes.
#[derive(Clone, Copy)]
pub enum Part {
    Geometry,
    Places,
    Values,
    Velocity,
    Pressure,
    Responses,
    Walls,
    Correction,
}

#[derive(Clone, Copy)]
pub enum Change {
    // The length of the wall fluxes.
    Length(usize),

    // The mesh number beside the wall fluxes.
    Number(u64),

    // One of the codes, and one number of the face records.
    Code(usize, usize),
    Record(usize, usize),

    // One number of a slice.
    Float(Part, usize, f64),

    // The distances of every face made anew.
    Refilled,
}

impl Change {
    pub(crate) fn apply(self, case: &mut Case) -> Result<(), AllocError> {
        match self {
            Change::Length(n) => case.walls.resize(n, 1.0)?,
            Change::Number(n) => case.number = n,
            Change::Code(i, n) => {
                if let Some(code) = case.codes.get_mut(i) {
                    *code = n;
                }
            }
            Change::Record(i, n) => {
                if let Some(number) = case.facing.get_mut(i) {
                    *number = n;
                }
            }
            Change::Float(part, i, x) => {
                if let Some(number) = case.floats_mut(part).get_mut(i) {
                    *number = x;
                }
            }
            // It is accepted, and a case that is not would show it.
            Change::Refilled => {
                let _ = case.make_distances();
            }
        }
        Ok(())
    }
}
