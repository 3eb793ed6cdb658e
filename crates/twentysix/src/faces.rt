// Cells by the faces that name them, as owner or as neighbour.
use crate::change::Change::{self, Between, Of};

pub const CASES: &[(&str, &[Change])] = &[
    ("25 faces of cell 0", &[Of(25, 0)]),
    ("26 faces of cell 0", &[Of(26, 0)]),
    ("27 faces of cell 0", &[Of(27, 0)]),
    ("28 faces of cell 0", &[Of(28, 0)]),
    ("27 faces of cell 1", &[Between(26, 1, 0), Of(1, 1)]),
    ("27 faces of cell 2", &[Between(26, 2, 1), Of(1, 2)]),
    // Every face with two cells.
    ("26 faces between cells 0 and 1", &[Between(26, 1, 0)]),
    ("27 faces between cells 0 and 1", &[Between(27, 1, 0)]),
    ("26 faces between cells 1 and 2", &[Between(26, 2, 1)]),
    ("27 faces between cells 1 and 2", &[Between(27, 2, 1)]),
    // 26 faces, and another before or after them.
    (
        "26 faces of cell 0, then one of cell 1",
        &[Of(26, 0), Of(1, 1)],
    ),
    (
        "one face of cell 1, then 26 of cell 0",
        &[Of(1, 1), Of(26, 0)],
    ),
    (
        "26 faces with owner 0, then one with neighbour 0",
        &[Of(26, 0), Between(1, 1, 0)],
    ),
    (
        "one face with neighbour 0, then 26 with owner 0",
        &[Between(1, 1, 0), Of(26, 0)],
    ),
    (
        "26 faces between cells 1 and 2, then one between cells 2 and 0",
        &[Between(26, 2, 1), Between(1, 2, 0)],
    ),
    (
        "26 faces between cells 1 and 2, then one between cells 0 and 1",
        &[Between(26, 2, 1), Between(1, 0, 1)],
    ),
    (
        "26 faces between cells 1 and 2, then one of cell 0",
        &[Between(26, 2, 1), Of(1, 0)],
    ),
];
