// Refusal 20: the distances of faces, on the row of four cells, whose one-cell faces are 0, 4 and 5. All centres are
// in one place but those that a name says are moved along x, and all distances are 0 but those that it gives.
use crate::case::Case;
use crate::change::Change::{
    self, CellCenter, Code, FaceCenter, FirstFace, Number, Other, Own, Owner, Peer,
};
use crate::run;
use std::io;

const LEAST: f64 = 5.0e-324;

// The number after 3.
const AFTER_3: f64 = 3.000000000000000444089209850062616169452667236328125;

const ONE_PLACE: &[(&str, &[Change])] = &[
    ("own distance of the first face 2^-1074", &[Own(0, LEAST)]),
    ("own distance of the last face 2^-1074", &[Own(5, LEAST)]),
    (
        "other distance of the first face 2^-1074",
        &[Other(0, LEAST)],
    ),
    (
        "other distance of the last face 2^-1074",
        &[Other(5, LEAST)],
    ),
    ("own distance of two-cell face 2 -0", &[Own(2, -0.0)]),
    ("other distance of two-cell face 2 -0", &[Other(2, -0.0)]),
    ("own distance of one-cell face 4 -0", &[Own(4, -0.0)]),
    ("other distance of one-cell face 4 -0", &[Other(4, -0.0)]),
    ("own distance of two-cell face 3 a NaN", &[Own(3, f64::NAN)]),
    (
        "other distance of two-cell face 3 infinite",
        &[Other(3, f64::INFINITY)],
    ),
];

// Cell 1 is the neighbour of face 1 and the owner of face 2.
const CELL_1: &[(&str, &[Change])] = &[
    ("cell 1 at 3", &[CellCenter(1, 3.0)]),
    (
        "cell 1 at 3, other distance of face 1 3",
        &[CellCenter(1, 3.0), Other(1, 3.0)],
    ),
    (
        "cell 1 at 3, own distance of face 2 3",
        &[CellCenter(1, 3.0), Own(2, 3.0)],
    ),
    (
        "cell 1 at 3, both 3",
        &[CellCenter(1, 3.0), Other(1, 3.0), Own(2, 3.0)],
    ),
    (
        "cell 1 at -3, both 3",
        &[CellCenter(1, -3.0), Other(1, 3.0), Own(2, 3.0)],
    ),
    (
        "cell 1 at -3, both -3",
        &[CellCenter(1, -3.0), Other(1, -3.0), Own(2, -3.0)],
    ),
    (
        "cell 1 at 3, own distance of face 2 the number after 3",
        &[CellCenter(1, 3.0), Other(1, 3.0), Own(2, AFTER_3)],
    ),
    (
        "cell 1 at 3, other distance of face 1 the number after 3",
        &[CellCenter(1, 3.0), Other(1, AFTER_3), Own(2, 3.0)],
    ),
    ("cell 1 at 1e-200", &[CellCenter(1, 1.0e-200)]),
    (
        "cell 1 at 1e-200, own distance of face 2 1e-200",
        &[CellCenter(1, 1.0e-200), Own(2, 1.0e-200)],
    ),
    (
        "cell 1 at 1e200, both 1e200",
        &[CellCenter(1, 1.0e200), Other(1, 1.0e200), Own(2, 1.0e200)],
    ),
    (
        "cell 1 at 1e200, both infinite",
        &[
            CellCenter(1, 1.0e200),
            Other(1, f64::INFINITY),
            Own(2, f64::INFINITY),
        ],
    ),
    (
        "cell 1 at minus infinity, both infinite",
        &[
            CellCenter(1, f64::NEG_INFINITY),
            Other(1, f64::INFINITY),
            Own(2, f64::INFINITY),
        ],
    ),
    (
        "cell 1 at a NaN, both infinite",
        &[
            CellCenter(1, f64::NAN),
            Other(1, f64::INFINITY),
            Own(2, f64::INFINITY),
        ],
    ),
    (
        "cell 1 at a NaN, both a NaN",
        &[
            CellCenter(1, f64::NAN),
            Other(1, f64::NAN),
            Own(2, f64::NAN),
        ],
    ),
    (
        "cell 1 and face 2 infinite, own distance of face 2 a NaN",
        &[
            CellCenter(1, f64::INFINITY),
            FaceCenter(2, f64::INFINITY),
            Other(1, f64::INFINITY),
            Own(2, f64::NAN),
            Other(2, f64::INFINITY),
        ],
    ),
];

// Face 4 at 3, with its own distance.
const FACE_4: &[Change] = &[FaceCenter(4, 3.0), Own(4, 3.0)];

const UNLINKED: &[(&str, &[Change])] = &[
    ("face 4 at 3", &[]),
    ("face 4 at 3, its other distance 3", &[Other(4, 3.0)]),
    ("face 4 at 3, other distance of face 0 3", &[Other(0, 3.0)]),
];

const LINKED: &[(&str, &[Change])] = &[
    (
        "face 4 at 3 and linked with face 0",
        &[Peer(0, 5), Peer(4, 1)],
    ),
    (
        "face 4 at 3 and linked with face 0, other distance of face 0 3",
        &[Peer(0, 5), Peer(4, 1), Other(0, 3.0)],
    ),
    (
        "face 4 at 3 and linked with face 0, other distances of both 3",
        &[Peer(0, 5), Peer(4, 1), Other(0, 3.0), Other(4, 3.0)],
    ),
    (
        "face 4 at 3 and linked with face 0, other distance of face 0 3, own of face 4 0",
        &[Peer(0, 5), Peer(4, 1), Other(0, 3.0), Own(4, 0.0)],
    ),
    (
        "face 4 at 3 and linked with face 0, other distance of face 0 2, own of face 4 2",
        &[Peer(0, 5), Peer(4, 1), Other(0, 2.0), Own(4, 2.0)],
    ),
    (
        "face 4 at 3 and linked with face 5",
        &[Peer(4, 6), Peer(5, 5)],
    ),
    (
        "face 4 at 3 and linked with face 5, other distance of face 5 3",
        &[Peer(4, 6), Peer(5, 5), Other(5, 3.0)],
    ),
];

const LOWEST: &[(&str, &[Change])] = &[
    (
        "own distance of face 5 1, other distance of face 2 1",
        &[Own(5, 1.0), Other(2, 1.0)],
    ),
    (
        "own distance of face 2 1, other distance of face 5 1",
        &[Own(2, 1.0), Other(5, 1.0)],
    ),
    ("both distances of face 3 1", &[Own(3, 1.0), Other(3, 1.0)]),
    (
        "own distance of face 0 1, another mesh number",
        &[Own(0, 1.0), Number(8)],
    ),
    (
        "own distance of face 0 1, bad face at face 5",
        &[Own(0, 1.0), Owner(5, 4)],
    ),
    (
        "own distance of face 0 1, unknown code at face 5",
        &[Own(0, 1.0), Code(5, 3)],
    ),
    (
        "own distance of face 0 1, broken chain at cell 3",
        &[Own(0, 1.0), FirstFace(3, 10)],
    ),
    (
        "own distance of face 0 1, bad link at face 5",
        &[Own(0, 1.0), Peer(5, 6)],
    ),
];

pub(crate) fn all(rt: &impl Print, row: &Case) -> io::Result<()> {
    let moved = row.with(FACE_4);
    run(rt, row, ONE_PLACE)?;
    run(rt, row, CELL_1)?;
    run(rt, &moved, UNLINKED)?;
    run(rt, &moved, LINKED)?;
    run(rt, row, LOWEST)
}
