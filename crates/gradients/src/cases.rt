// The cases: their names, and their changes. oracle/src/gradients.rs has the same, in the same order and by the same
// names.
use crate::change::Change::{
    self, Dimension, FaceRecords, Faces, Flipped, Float, Length, Number, Refilled, Whole,
};
use crate::change::Part::{
    Adjacency, Codes, FaceValues, Geometry, Gradient, Places, Pressure, Values,
};

// Of each entry.
pub const ALL: &[(&str, &[Change])] = &[
    ("as it stands", &[]),
    ("volume of cell 0 a NaN", &[Float(Places, 3, f64::NAN)]),
    (
        "volume of cell 1 infinite",
        &[Float(Places, 7, f64::INFINITY)],
    ),
    ("volume of cell 1 2^-1074", &[Float(Places, 7, 5.0e-324)]),
    (
        "volume of cell 0 -infinite",
        &[Float(Places, 3, f64::NEG_INFINITY)],
    ),
    ("volume of cell 0 0", &[Float(Places, 3, 0.0)]),
    ("volume of cell 1 -0", &[Float(Places, 7, -0.0)]),
    ("volume of cell 1 -1", &[Float(Places, 7, -1.0)]),
    ("volume of cell 1 -2^-1074", &[Float(Places, 7, -5.0e-324)]),
    (
        "volume of cell 0 0, of cell 1 -1",
        &[Float(Places, 3, 0.0), Float(Places, 7, -1.0)],
    ),
    (
        "volume of cell 0 a NaN, of cell 1 0",
        &[Float(Places, 3, f64::NAN), Float(Places, 7, 0.0)],
    ),
    (
        "volume of cell 0 0, owner's of face 0 one bit off",
        &[Float(Places, 3, 0.0), Flipped(9)],
    ),
    (
        "volume of cell 0 0, 27 faces of cell 0",
        &[Float(Places, 3, 0.0), Faces(22)],
    ),
    ("owner's of face 3 one bit off", &[Flipped(42)]),
    ("other of face 1 one bit off", &[Flipped(21)]),
    ("other of face 3 -0", &[Float(Geometry, 43, -0.0)]),
    ("dimension 4", &[Dimension(4)]),
    ("adjacency one short", &[Length(Adjacency, 13)]),
    ("geometry one long", &[Length(Geometry, 78)]),
    ("places one short", &[Length(Places, 7)]),
    ("output one short", &[Length(Gradient, 5)]),
    ("owner of face 3 missing", &[Whole(Adjacency, 6, 2)]),
    (
        "area of face 0 infinite",
        &[Float(Geometry, 3, f64::INFINITY)],
    ),
];

// Of values of the faces.
pub const OF_FACES: &[(&str, &[Change])] = &[
    ("65536 face records counted", &[FaceRecords(65536)]),
    ("values one short", &[Length(FaceValues, 6)]),
    ("values of another mesh", &[Number(FaceValues, 8)]),
    (
        "values of another mesh, volume of cell 0 0",
        &[Number(FaceValues, 8), Float(Places, 3, 0.0)],
    ),
    ("value of face 0 a NaN", &[Float(FaceValues, 0, f64::NAN)]),
    (
        "value of face 3 infinite",
        &[Float(FaceValues, 3, f64::INFINITY)],
    ),
    (
        "value of face 0 1.7e308, of face 3 -1.7e308",
        &[
            Float(FaceValues, 0, 1.7e308),
            Float(FaceValues, 3, -1.7e308),
        ],
    ),
    (
        "values of cell 0's faces -0",
        &[
            Float(FaceValues, 0, -0.0),
            Float(FaceValues, 1, -0.0),
            Float(FaceValues, 3, -0.0),
            Float(FaceValues, 5, -0.0),
            Float(FaceValues, 6, -0.0),
        ],
    ),
];

// Of a pressure, with conditions and without.
pub const OF_PRESSURE: &[(&str, &[Change])] = &[
    ("pressure one short", &[Length(Pressure, 1)]),
    ("pressure of another mesh", &[Number(Pressure, 8)]),
    (
        "pressure of another mesh, volume of cell 1 0",
        &[Number(Pressure, 8), Float(Places, 7, 0.0)],
    ),
    (
        "pressures -0",
        &[Float(Pressure, 0, -0.0), Float(Pressure, 1, -0.0)],
    ),
    ("pressure of cell 0 a NaN", &[Float(Pressure, 0, f64::NAN)]),
    (
        "pressure of cell 1 infinite",
        &[Float(Pressure, 1, f64::INFINITY)],
    ),
    (
        "centre of face 0 its owner's",
        &[
            Float(Geometry, 0, 0.25),
            Float(Geometry, 1, 0.5),
            Float(Geometry, 2, 0.125),
            Refilled,
        ],
    ),
    (
        "centres of face 0 and of both cells in one place",
        &[
            Float(Geometry, 0, 0.25),
            Float(Geometry, 1, 0.5),
            Float(Geometry, 2, 0.125),
            Float(Places, 4, 0.25),
            Float(Places, 5, 0.5),
            Float(Places, 6, 0.125),
            Refilled,
        ],
    ),
    (
        "centre of face 0 1e-170 from that of both cells",
        &[
            Float(Geometry, 0, 1.0e-170),
            Float(Geometry, 1, 0.5),
            Float(Geometry, 2, 0.125),
            Float(Places, 0, 0.0),
            Float(Places, 4, 0.0),
            Float(Places, 5, 0.5),
            Float(Places, 6, 0.125),
            Refilled,
        ],
    ),
    (
        "centre of cell 1 at 1e300",
        &[Float(Places, 4, 1.0e300), Refilled],
    ),
];

// Of a pressure with conditions.
pub const OF_CONDITIONS: &[(&str, &[Change])] = &[
    ("code 0 at linked face 1", &[Whole(Codes, 2, 0)]),
    ("code 2 at linked face 1", &[Whole(Codes, 2, 2)]),
    ("code 1 at face 0", &[Whole(Codes, 0, 1)]),
    ("no condition at face 3", &[Whole(Codes, 6, 0)]),
    ("zero gradient at face 3", &[Whole(Codes, 6, 2)]),
    ("fixed value a NaN", &[Float(Values, 12, f64::NAN)]),
    (
        "links gone, distances made anew",
        &[Whole(Codes, 3, 0), Whole(Codes, 5, 0), Refilled],
    ),
    (
        "faces 4 and 5 linked, distances made anew",
        &[Whole(Codes, 9, 6), Whole(Codes, 11, 5), Refilled],
    ),
    (
        "no translation of face 1",
        &[
            Float(Values, 5, 0.0),
            Float(Values, 6, 0.0),
            Float(Values, 7, 0.0),
        ],
    ),
    (
        "centre of face 1 that of the image",
        &[
            Float(Geometry, 11, -1.375),
            Float(Geometry, 13, -0.75),
            Refilled,
        ],
    ),
    (
        "centres of face 1 and of its owner that of the image",
        &[
            Float(Geometry, 11, -1.375),
            Float(Geometry, 13, -0.75),
            Float(Places, 0, -1.375),
            Float(Places, 2, -0.75),
            Refilled,
        ],
    ),
    ("codes one short", &[Length(Codes, 13)]),
    ("condition values one long", &[Length(Values, 29)]),
    ("conditions of another mesh", &[Number(Codes, 8)]),
    (
        "conditions of another mesh, volume of cell 0 0",
        &[Number(Codes, 8), Float(Places, 3, 0.0)],
    ),
    ("code 3 at face 4", &[Whole(Codes, 8, 3)]),
    ("link of face 4 to face 3", &[Whole(Codes, 9, 4)]),
    (
        "link of face 4 to face 3, volume of cell 0 0",
        &[Whole(Codes, 9, 4), Float(Places, 3, 0.0)],
    ),
];

// Numbers that are handed out, and how many records there are for them.
pub const HANDED: &[(&str, &[f64], usize)] = &[
    (
        "two records",
        &[f64::NAN, -0.0, 5.0e-324, f64::INFINITY, -1.0, 1.7e308],
        2,
    ),
    ("one record too few", &[1.0, 2.0, 3.0, 4.0, 5.0, 6.0], 1),
    ("one record too many", &[1.0, 2.0, 3.0, 4.0, 5.0, 6.0], 3),
    ("one number too few", &[1.0, 2.0, 3.0, 4.0, 5.0], 2),
    ("nothing", &[], 0),
];
