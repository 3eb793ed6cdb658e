// The cases: their names, and their changes. oracle/src/distances.rs has the same, in the same order and by the same
// names.
use crate::change::Change::{
    self, Dimension, FaceRecords, Faces, Flipped, Float, Length, Number, Refilled, Responses, Whole,
};
use crate::change::Part::{Adjacency, Codes, Geometry, Heads, Places, Values};

// Distances made in the mesh as it stands.
pub const MADE: &[(&str, &[Change])] = &[
    ("as it stands", &[]),
    (
        "other numbers in their places",
        &[
            Float(Geometry, 9, 0.0),
            Float(Geometry, 10, 1.0),
            Float(Geometry, 20, f64::INFINITY),
            Float(Geometry, 21, f64::NAN),
            Float(Geometry, 43, -0.0),
            Float(Geometry, 54, 5.0e-324),
        ],
    ),
    ("no links", &[Whole(Codes, 3, 0), Whole(Codes, 5, 0)]),
    ("no neighbour at face 0", &[Whole(Adjacency, 1, 0)]),
    (
        "owners of faces 1 and 2 exchanged",
        &[Whole(Adjacency, 2, 1), Whole(Adjacency, 4, 0)],
    ),
    (
        "translations of another length",
        &[Float(Values, 5, 4.0), Float(Values, 9, 1.0)],
    ),
    ("centre of face 3 a NaN", &[Float(Geometry, 33, f64::NAN)]),
    ("centre of cell 1 a NaN", &[Float(Places, 6, f64::NAN)]),
    (
        "centre of face 2 infinite",
        &[Float(Geometry, 22, f64::INFINITY)],
    ),
    (
        "centres of cell 0 and face 3 infinite",
        &[
            Float(Places, 0, f64::INFINITY),
            Float(Geometry, 33, f64::INFINITY),
        ],
    ),
    ("centre of face 4 at 1e300", &[Float(Geometry, 44, 1.0e300)]),
    (
        "centre of face 3 its cell's",
        &[
            Float(Geometry, 33, 0.25),
            Float(Geometry, 34, 0.5),
            Float(Geometry, 35, 0.125),
        ],
    ),
    (
        "centre of face 3 5e-160 from its cell's",
        &[
            Float(Places, 0, 0.0),
            Float(Geometry, 33, 5.0e-160),
            Float(Geometry, 34, 0.5),
            Float(Geometry, 35, 0.125),
        ],
    ),
    (
        "centre of face 3 1e-170 from its cell's",
        &[
            Float(Places, 0, 0.0),
            Float(Geometry, 33, 1.0e-170),
            Float(Geometry, 34, 0.5),
            Float(Geometry, 35, 0.125),
        ],
    ),
    ("65535 face records counted", &[FaceRecords(65535)]),
    ("65536 face records counted", &[FaceRecords(65536)]),
    ("dimension 4", &[Dimension(4)]),
    ("adjacency one short", &[Length(Adjacency, 9)]),
    ("places one long", &[Length(Places, 9)]),
    ("codes one short", &[Length(Codes, 9)]),
    ("geometry one short", &[Length(Geometry, 54)]),
    ("geometry one long", &[Length(Geometry, 56)]),
    ("nine numbers a face", &[Length(Geometry, 45)]),
    ("conditions of another mesh", &[Number(8)]),
    ("owner of face 3 missing", &[Whole(Adjacency, 6, 2)]),
    ("neighbour of face 0 its owner", &[Whole(Adjacency, 1, 1)]),
    ("code 3 at face 4", &[Whole(Codes, 8, 3)]),
    ("27 faces of cell 0", &[Faces(24)]),
    ("link of face 4 to face 3", &[Whole(Codes, 9, 4)]),
    (
        "27 faces of cell 0, link of face 4 to face 3",
        &[Faces(24), Whole(Codes, 9, 4)],
    ),
];

// Distances checked: the changes are those of the mesh with the distances that belong to it.
pub const CHECKED: &[(&str, &[Change])] = &[
    ("as made", &[]),
    ("owner's of face 0 one bit off", &[Flipped(9)]),
    ("other of face 0 one bit off", &[Flipped(10)]),
    ("owner's of face 1 one bit off", &[Flipped(20)]),
    ("other of face 1 one bit off", &[Flipped(21)]),
    ("owner's of face 2 one bit off", &[Flipped(31)]),
    ("other of face 2 one bit off", &[Flipped(32)]),
    ("owner's of face 4 one bit off", &[Flipped(53)]),
    ("image distance at face 1", &[Float(Geometry, 21, 1.25)]),
    ("other of face 3 -0", &[Float(Geometry, 43, -0.0)]),
    ("other of face 3 2^-1074", &[Float(Geometry, 43, 5.0e-324)]),
    ("other of face 4 a NaN", &[Float(Geometry, 54, f64::NAN)]),
    ("owner's of face 3 0", &[Float(Geometry, 42, 0.0)]),
    ("owner's of face 3 a NaN", &[Float(Geometry, 42, f64::NAN)]),
    (
        "owner's of face 3 infinite",
        &[Float(Geometry, 42, f64::INFINITY)],
    ),
    (
        "centre of face 3 a NaN",
        &[Float(Geometry, 33, f64::NAN), Refilled],
    ),
    (
        "centre of face 3 a NaN, a NaN stored",
        &[
            Float(Geometry, 33, f64::NAN),
            Refilled,
            Float(Geometry, 42, f64::NAN),
        ],
    ),
    (
        "centre of face 3 a NaN, its negative stored",
        &[
            Float(Geometry, 33, f64::NAN),
            Refilled,
            Float(Geometry, 42, -f64::NAN),
        ],
    ),
    (
        "centre of face 3 a NaN, a number stored",
        &[
            Float(Geometry, 33, f64::NAN),
            Refilled,
            Float(Geometry, 42, 1.0),
        ],
    ),
    (
        "centre of face 3 a NaN, infinity stored",
        &[
            Float(Geometry, 33, f64::NAN),
            Refilled,
            Float(Geometry, 42, f64::INFINITY),
        ],
    ),
    (
        "centre of face 3 infinite",
        &[Float(Geometry, 33, f64::INFINITY), Refilled],
    ),
    (
        "centre of face 3 infinite, the largest number stored",
        &[
            Float(Geometry, 33, f64::INFINITY),
            Refilled,
            Float(Geometry, 42, f64::MAX),
        ],
    ),
    (
        "centre of face 3 infinite, -infinity stored",
        &[
            Float(Geometry, 33, f64::INFINITY),
            Refilled,
            Float(Geometry, 42, f64::NEG_INFINITY),
        ],
    ),
    (
        "centre of face 2 infinite",
        &[Float(Geometry, 22, f64::INFINITY), Refilled],
    ),
    (
        "centre of face 2 infinite, other of face 1 the largest number",
        &[
            Float(Geometry, 22, f64::INFINITY),
            Refilled,
            Float(Geometry, 21, f64::MAX),
        ],
    ),
    ("centre of face 3 one bit off", &[Flipped(33)]),
    ("centre of face 3 elsewhere", &[Float(Geometry, 33, 0.75)]),
    (
        "centre of face 3 elsewhere, distances made anew",
        &[Float(Geometry, 33, 0.75), Refilled],
    ),
    ("centre of cell 1 elsewhere", &[Float(Places, 4, 2.0)]),
    ("links gone", &[Whole(Codes, 3, 0), Whole(Codes, 5, 0)]),
    (
        "links gone, distances made anew",
        &[Whole(Codes, 3, 0), Whole(Codes, 5, 0), Refilled],
    ),
    (
        "faces 3 and 4 linked",
        &[Whole(Codes, 7, 5), Whole(Codes, 9, 4)],
    ),
    (
        "owner's of faces 4 and 2 one bit off",
        &[Flipped(53), Flipped(31)],
    ),
    (
        "owner's of face 4 and other of face 0 one bit off",
        &[Flipped(53), Flipped(10)],
    ),
    (
        "other of face 3 -0 and owner's of face 4 one bit off",
        &[Float(Geometry, 43, -0.0), Flipped(53)],
    ),
    (
        "owner's of face 0 one bit off, conditions of another mesh",
        &[Flipped(9), Number(8)],
    ),
    (
        "owner's of face 0 one bit off, code 3 at face 4",
        &[Flipped(9), Whole(Codes, 8, 3)],
    ),
    (
        "owner's of face 0 one bit off, first face of cell 1 missing",
        &[Flipped(9), Whole(Heads, 2, 7)],
    ),
    (
        "owner's of face 0 one bit off, 26 faces of cell 0",
        &[Flipped(9), Faces(23)],
    ),
    (
        "owner's of face 0 one bit off, 27 faces of cell 0",
        &[Flipped(9), Faces(24)],
    ),
    (
        "owner's of face 0 one bit off, link of face 4 to face 3",
        &[Flipped(9), Whole(Codes, 9, 4)],
    ),
    ("responses below 0", &[Responses(-0.5, -0.25)]),
    (
        "owner's of face 4 one bit off, responses below 0",
        &[Flipped(53), Responses(-0.5, -0.25)],
    ),
];
