// Refusal 5: the chains of faces and of neighbours, on the row of four cells.
use crate::case::Case;
use crate::change::Change::{
    self, Borderings, Cell, Code, Face, Facings, FirstFace, FirstNeighbour, NextFace,
    NextNeighbour, Owner,
};
use crate::run;
use std::io;

const FACE_RECORDS: &[(&str, &[Change])] = &[
    ("four cells and six faces", &[]),
    (
        "first face record past the last, first cell",
        &[FirstFace(0, 10)],
    ),
    (
        "first face record past the last, last cell",
        &[FirstFace(3, 10)],
    ),
    (
        "first face record the largest number, first cell",
        &[FirstFace(0, usize::MAX)],
    ),
    (
        "first face record the largest number, last cell",
        &[FirstFace(3, usize::MAX)],
    ),
    ("one face record fewer", &[Facings(8)]),
    ("no face record", &[Facings(0)]),
    ("a cell with no face record", &[FirstFace(2, 0)]),
    (
        "next face record past the last, first cell",
        &[NextFace(2, 10)],
    ),
    (
        "next face record past the last, last cell",
        &[NextFace(9, 10)],
    ),
    (
        "next face record the largest number, first cell",
        &[NextFace(2, usize::MAX)],
    ),
    (
        "next face record the largest number, last cell",
        &[NextFace(9, usize::MAX)],
    ),
    ("missing face, first record", &[Face(1, 6)]),
    ("missing face, last record", &[Face(9, 6)]),
    (
        "missing face of the largest number, first record",
        &[Face(1, usize::MAX)],
    ),
    (
        "missing face of the largest number, last record",
        &[Face(9, usize::MAX)],
    ),
    ("last face, first record", &[Face(1, 5)]),
    (
        "missing face in a record of no chain",
        &[FirstFace(3, 0), Face(9, 6)],
    ),
];

const FACE_CIRCLES: &[(&str, &[Change])] = &[
    ("circle of one face record, first cell", &[NextFace(1, 1)]),
    ("circle of one face record, last cell", &[NextFace(9, 9)]),
];

// Every face record but the last chained to the next.
const FACE_CHAIN: &[Change] = &[NextFace(2, 3), NextFace(4, 5), NextFace(7, 8)];

const FACE_CHAINS: &[(&str, &[Change])] = &[
    ("circle of all face records, every cell", &[NextFace(9, 1)]),
    (
        "circle of all face records, last cell only",
        &[
            NextFace(9, 1),
            FirstFace(0, 0),
            FirstFace(1, 0),
            FirstFace(2, 0),
            FirstFace(3, 1),
        ],
    ),
    ("chain of all face records, every cell", &[NextFace(9, 0)]),
    (
        "chain of all face records, last cell only",
        &[
            NextFace(9, 0),
            FirstFace(0, 0),
            FirstFace(1, 0),
            FirstFace(2, 0),
            FirstFace(3, 1),
        ],
    ),
];

const NEIGHBOUR_RECORDS: &[(&str, &[Change])] = &[
    ("face chain of two cells", &[FirstFace(1, 1)]),
    (
        "first neighbour record past the last, first cell",
        &[FirstNeighbour(0, 7)],
    ),
    (
        "first neighbour record past the last, last cell",
        &[FirstNeighbour(3, 7)],
    ),
    (
        "first neighbour record the largest number, first cell",
        &[FirstNeighbour(0, usize::MAX)],
    ),
    (
        "first neighbour record the largest number, last cell",
        &[FirstNeighbour(3, usize::MAX)],
    ),
    ("one neighbour record fewer", &[Borderings(5)]),
    ("no neighbour record", &[Borderings(0)]),
    ("a cell with no neighbour record", &[FirstNeighbour(2, 0)]),
    (
        "next neighbour record past the last, first cell",
        &[NextNeighbour(1, 7)],
    ),
    (
        "next neighbour record past the last, last cell",
        &[NextNeighbour(6, 7)],
    ),
    (
        "next neighbour record the largest number, first cell",
        &[NextNeighbour(1, usize::MAX)],
    ),
    (
        "next neighbour record the largest number, last cell",
        &[NextNeighbour(6, usize::MAX)],
    ),
    ("missing cell, first record", &[Cell(1, 4)]),
    ("missing cell, last record", &[Cell(6, 4)]),
    (
        "missing cell of the largest number, first record",
        &[Cell(1, usize::MAX)],
    ),
    (
        "missing cell of the largest number, last record",
        &[Cell(6, usize::MAX)],
    ),
    ("last cell, first record", &[Cell(1, 3)]),
    (
        "missing cell in a record of no chain",
        &[FirstNeighbour(3, 0), Cell(6, 4)],
    ),
    (
        "circle of one neighbour record, first cell",
        &[NextNeighbour(1, 1)],
    ),
    (
        "circle of one neighbour record, last cell",
        &[NextNeighbour(6, 6)],
    ),
];

// Every neighbour record but the last chained to the next.
const NEIGHBOUR_CHAIN: &[Change] = &[
    NextNeighbour(1, 2),
    NextNeighbour(3, 4),
    NextNeighbour(5, 6),
];

const NEIGHBOUR_CHAINS: &[(&str, &[Change])] = &[
    (
        "circle of all neighbour records, every cell",
        &[NextNeighbour(6, 1)],
    ),
    (
        "chain of all neighbour records, every cell",
        &[NextNeighbour(6, 0)],
    ),
];

const LOWEST: &[(&str, &[Change])] = &[
    ("neighbour chain of two cells", &[FirstNeighbour(1, 1)]),
    (
        "face chains broken at cells 1 and 3",
        &[NextFace(4, 10), FirstFace(3, 10)],
    ),
    (
        "neighbour chain broken at cell 1, face chain at cell 2",
        &[Cell(2, 4), Face(5, 6)],
    ),
    (
        "face chain broken at cell 1, neighbour chain at cell 2",
        &[Face(3, 6), Cell(4, 4)],
    ),
    ("both chains broken at cell 2", &[Face(5, 6), Cell(4, 4)]),
    (
        "bad face at face 4, broken chain at cell 0",
        &[Owner(4, 4), FirstFace(0, 10)],
    ),
    (
        "unknown code at face 5, broken chain at cell 0",
        &[Code(5, 3), FirstNeighbour(0, 7)],
    ),
];

pub(crate) fn all(rt: &impl Print, row: &Case) -> io::Result<()> {
    run(rt, row, FACE_RECORDS)?;
    run(rt, row, FACE_CIRCLES)?;
    run(rt, &row.with(FACE_CHAIN), FACE_CHAINS)?;
    run(rt, row, NEIGHBOUR_RECORDS)?;
    run(rt, &row.with(NEIGHBOUR_CHAIN), NEIGHBOUR_CHAINS)?;
    run(rt, row, LOWEST)
}
