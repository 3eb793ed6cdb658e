// What the cases change in the base.
use crate::case::Case;

// A slice that a case changes.
#[derive(Clone, Copy)]
pub enum Part {
    Adjacency,
    Codes,
    Coefficients,
    Correction,
    Predicted,
}

// `edges` changes slices that are lent, and this program its own, so `Change` stands in both.
#[derive(Clone, Copy)]
pub enum Change {
    Nothing,
    Dimension(usize),

    // The length of the predicted flux.
    Length(usize),

    // The mesh number beside a slice.
    Number(Part, u64),

    // One number of a slice.
    Whole(Part, usize, usize),
    Float(Part, usize, f64),
}

impl Change {
    pub(crate) fn apply(self, case: &mut Case) {
        match self {
            Change::Nothing => {}
            Change::Dimension(n) => case.counts.dimension = n,
            Change::Length(n) => case.flux.length = n,
            Change::Number(part, n) => *case.number_mut(part) = n,
            Change::Whole(part, i, n) => {
                if let Some(slice) = case.whole_mut(part)
                    && let Some(number) = slice.get_mut(i)
                {
                    *number = n;
                }
            }
            Change::Float(part, i, x) => {
                if let Some(slice) = case.floats_mut(part)
                    && let Some(number) = slice.get_mut(i)
                {
                    *number = x;
                }
            }
        }
    }
}
