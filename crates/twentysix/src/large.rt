// The last of many cells, and the most faces with as many to a cell as there may be.
use crate::change::Change::{self, Between, Each, Of, Own};

// Faces of the last cell, all but the first between it and the one before.
pub const LAST_OF_4096: &[(&str, &[Change])] = &[
    (
        "26 faces of the last of 4096 cells",
        &[Of(1, 4095), Between(25, 4095, 4094)],
    ),
    (
        "27 faces of the last of 4096 cells",
        &[Of(1, 4095), Between(26, 4095, 4094)],
    ),
];

pub const LAST_OF_4097: &[(&str, &[Change])] = &[
    (
        "26 faces of the last of 4097 cells",
        &[Of(1, 4096), Between(25, 4096, 4095)],
    ),
    (
        "27 faces of the last of 4097 cells",
        &[Of(1, 4096), Between(26, 4096, 4095)],
    ),
];

pub const LAST_OF_65535: &[(&str, &[Change])] = &[
    (
        "26 faces of the last of 65535 cells",
        &[Of(1, 65534), Between(25, 65534, 65533)],
    ),
    (
        "27 faces of the last of 65535 cells",
        &[Of(1, 65534), Between(26, 65534, 65533)],
    ),
];

// Cells 0 to 2519 have 26 faces each, and cell 2520 has the last 15.
pub const MOST_FACES: &[(&str, &[Change])] = &[
    ("65535 faces, 26 to a cell", &[Each(26, 2520), Of(15, 2520)]),
    (
        "65535 faces, 26 to a cell, own distance of the last 1",
        &[Each(26, 2520), Of(15, 2520), Own(65534, 1.0)],
    ),
    (
        "65535 faces, the last of cell 0 too",
        &[Each(26, 2520), Of(14, 2520), Between(1, 2520, 0)],
    ),
    (
        "65535 faces, the last of cell 2519 too",
        &[Each(26, 2520), Of(14, 2520), Between(1, 2520, 2519)],
    ),
    (
        "65535 faces, the last of the last cell too",
        &[Each(26, 2520), Of(14, 2520), Between(1, 2520, 65534)],
    ),
];
