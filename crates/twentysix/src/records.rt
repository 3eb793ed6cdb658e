// Cells by the records of their chains of faces, and by both tests. Every record names face 0.
use crate::case::{HEAD_OF_26, HEAD_OF_27};
use crate::change::Change::{self, Between, FirstFace, FirstNeighbour, Of};

pub const CASES: &[(&str, &[Change])] = &[
    // One face, and records.
    (
        "26 records of cell 0",
        &[Of(1, 0), FirstFace(0, HEAD_OF_26)],
    ),
    (
        "27 records of cell 0",
        &[Of(1, 0), FirstFace(0, HEAD_OF_27)],
    ),
    ("30 records of cell 0", &[Of(1, 0), FirstFace(0, 1)]),
    (
        "27 records of cell 1",
        &[Of(1, 0), FirstFace(1, HEAD_OF_27)],
    ),
    (
        "27 records of cell 2",
        &[Of(1, 0), FirstFace(2, HEAD_OF_27)],
    ),
    (
        "26 records of every cell",
        &[
            Of(1, 0),
            FirstFace(0, HEAD_OF_26),
            FirstFace(1, HEAD_OF_26),
            FirstFace(2, HEAD_OF_26),
        ],
    ),
    (
        "26 records of cells 0 and 1, 27 of cell 2",
        &[
            Of(1, 0),
            FirstFace(0, HEAD_OF_26),
            FirstFace(1, HEAD_OF_26),
            FirstFace(2, HEAD_OF_27),
        ],
    ),
    (
        "26 records of cell 0, 27 of cells 1 and 2",
        &[
            Of(1, 0),
            FirstFace(0, HEAD_OF_26),
            FirstFace(1, HEAD_OF_27),
            FirstFace(2, HEAD_OF_27),
        ],
    ),
    (
        "30 neighbour records of cell 0",
        &[Of(1, 0), FirstNeighbour(0, 1)],
    ),
    (
        "30 neighbour records of every cell",
        &[
            Of(1, 0),
            FirstNeighbour(0, 1),
            FirstNeighbour(1, 1),
            FirstNeighbour(2, 1),
        ],
    ),
    // Both tests.
    (
        "26 faces and 26 records of cell 0",
        &[Of(26, 0), FirstFace(0, HEAD_OF_26)],
    ),
    (
        "26 faces and 27 records of cell 0",
        &[Of(26, 0), FirstFace(0, HEAD_OF_27)],
    ),
    (
        "27 faces and 26 records of cell 0",
        &[Of(27, 0), FirstFace(0, HEAD_OF_26)],
    ),
    (
        "27 faces and 27 records of cell 1",
        &[Between(26, 1, 0), Of(1, 1), FirstFace(1, HEAD_OF_27)],
    ),
    (
        "27 faces of cell 0, 27 records of cell 2",
        &[Of(27, 0), FirstFace(2, HEAD_OF_27)],
    ),
    (
        "27 records of cell 0, 27 faces of cell 2",
        &[Between(26, 2, 1), Of(1, 2), FirstFace(0, HEAD_OF_27)],
    ),
    (
        "27 faces of cell 1, 27 records of cell 2",
        &[Between(26, 1, 0), Of(1, 1), FirstFace(2, HEAD_OF_27)],
    ),
    (
        "27 records of cell 1, 27 faces of cell 2",
        &[Between(26, 2, 1), Of(1, 2), FirstFace(1, HEAD_OF_27)],
    ),
];
