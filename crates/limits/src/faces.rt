// Refusal 4: the cells and the condition codes of faces.
use crate::case::Case;
use crate::change::Change::{self, Code, Neighbour, Owner};
use crate::run;
use std::io;

const CELLS: &[(&str, &[Change])] = &[
    ("two cells and three faces", &[]),
    ("owner past the last cell, first face", &[Owner(0, 2)]),
    ("owner past the last cell, last face", &[Owner(2, 2)]),
    (
        "owner the largest number, first face",
        &[Owner(0, usize::MAX)],
    ),
    (
        "owner the largest number, last face",
        &[Owner(2, usize::MAX)],
    ),
    ("owner the last cell", &[Owner(1, 1)]),
    (
        "neighbour past the last cell, first face",
        &[Neighbour(0, 3)],
    ),
    (
        "neighbour past the last cell, last face",
        &[Neighbour(2, 3)],
    ),
    (
        "neighbour the largest number, first face",
        &[Neighbour(0, usize::MAX)],
    ),
    (
        "neighbour the largest number, last face",
        &[Neighbour(2, usize::MAX)],
    ),
    ("neighbour the owner, first face", &[Neighbour(0, 1)]),
    ("neighbour the owner, last face", &[Neighbour(2, 2)]),
    ("neighbour the last cell", &[Neighbour(1, 2)]),
];

const CODES: &[(&str, &[Change])] = &[
    ("code 3, first face", &[Code(0, 3)]),
    ("code 3, last face", &[Code(2, 3)]),
    (
        "code the largest number, first face",
        &[Code(0, usize::MAX)],
    ),
    ("code the largest number, last face", &[Code(2, usize::MAX)]),
    ("code 0 on a one-cell face", &[Code(1, 0)]),
    ("code 1 on a one-cell face", &[Code(1, 1)]),
    ("code 2 on a one-cell face", &[Code(1, 2)]),
];

const CODES_OF_THE_ROW: &[(&str, &[Change])] = &[
    ("code 1 on a two-cell face", &[Code(3, 1)]),
    ("code 2 on a two-cell face", &[Code(3, 2)]),
    ("code 3 on a two-cell face", &[Code(3, 3)]),
];

// Several bad faces, of which the lowest is named.
const LOWEST: &[(&str, &[Change])] = &[
    ("bad owners at faces 1 and 2", &[Owner(1, 2), Owner(2, 2)]),
    (
        "bad neighbour at face 0, bad owner at face 2",
        &[Neighbour(0, 3), Owner(2, 2)],
    ),
    (
        "unknown code at face 1, bad owner at face 2",
        &[Code(1, 3), Owner(2, 2)],
    ),
    (
        "bad owner at face 1, unknown code at face 2",
        &[Owner(1, 2), Code(2, 3)],
    ),
    (
        "bad owner and unknown code at face 2",
        &[Owner(2, 2), Code(2, 3)],
    ),
];

pub(crate) fn all(rt: &impl Print, pair: &Case, row: &Case) -> io::Result<()> {
    run(rt, pair, CELLS)?;
    run(rt, pair, CODES)?;
    run(rt, row, CODES_OF_THE_ROW)?;
    run(rt, pair, LOWEST)
}
