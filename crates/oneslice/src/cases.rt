// The cases: their names, and their one change to the base. oracle/src/edges.rs has the same, in the same
// order and by the same names.
use crate::change::Change::{self, Dimension, Float, Length, Nothing, Number, Whole};
use crate::change::Part::{Adjacency, Codes, Coefficients, Correction, Predicted};

pub const CASES: &[(&str, Change)] = &[
    ("as it stands", Nothing),
    ("code 1 at linked face 1", Whole(Codes, 2, 1)),
    (
        "predicted flux of face 4 a NaN",
        Float(Predicted, 4, f64::NAN),
    ),
    ("predicted flux of face 5 -0", Float(Predicted, 5, -0.0)),
    ("dimension 4", Dimension(4)),
    ("predicted flux one long", Length(8)),
    ("predicted flux one short", Length(6)),
    ("conditions of another mesh", Number(Codes, 8)),
    ("coefficients of another mesh", Number(Coefficients, 8)),
    ("correction of another mesh", Number(Correction, 8)),
    ("predicted flux of another mesh", Number(Predicted, 8)),
    ("neighbour of face 0 its owner", Whole(Adjacency, 1, 1)),
    ("code 3 at face 4", Whole(Codes, 8, 3)),
    ("link of face 4 to face 5", Whole(Codes, 9, 6)),
    ("coefficient 0 at face 0", Float(Coefficients, 0, 0.0)),
    ("coefficient 0 at face 6", Float(Coefficients, 6, 0.0)),
    (
        "correction of cell 0 -1.7e308",
        Float(Correction, 0, -1.7e308),
    ),
    (
        "predicted flux of face 2 a NaN",
        Float(Predicted, 2, f64::NAN),
    ),
    ("no condition at face 4", Whole(Codes, 8, 0)),
];
