// Cells with too many faces or records beside what other checks refuse.
use crate::case::{HEAD_OF_26, HEAD_OF_27};
use crate::change::Change::{
    self, Between, Code, Counted, Dimension, Face, FirstFace, FirstNeighbour, NextFace, Number, Of,
    Own, Peer,
};

pub const CASES: &[(&str, &[Change])] = &[
    // Shape.
    (
        "27 faces of cell 0 and dimension 4",
        &[Of(27, 0), Dimension(4)],
    ),
    ("27 faces of cell 0, 28 counted", &[Of(27, 0), Counted(28)]),
    (
        "27 faces of cell 0 and another mesh number",
        &[Of(27, 0), Number(8)],
    ),
    // Bad faces.
    (
        "27 faces of cell 0, neighbour of the last missing",
        &[Of(26, 0), Between(1, 0, 3)],
    ),
    (
        "27 faces of cell 0, neighbour of the last its owner",
        &[Of(26, 0), Between(1, 0, 0)],
    ),
    (
        "27 faces of cell 0, code 3 at the last",
        &[Of(27, 0), Code(26, 3)],
    ),
    (
        "27 faces of cell 0, owner of face 27 missing",
        &[Of(27, 0), Of(1, 3)],
    ),
    (
        "27 records of cell 0, owner of face 0 missing",
        &[Of(1, 3), FirstFace(0, HEAD_OF_27)],
    ),
    // Broken chains.
    (
        "27 faces of cell 0, chain of faces broken at cell 2",
        &[Of(27, 0), FirstFace(2, 31)],
    ),
    (
        "27 faces of cell 0, chain of neighbours broken at cell 2",
        &[Of(27, 0), FirstNeighbour(2, 31)],
    ),
    (
        "27 faces of cell 2, chain of faces broken at cell 0",
        &[Between(26, 2, 1), Of(1, 2), FirstFace(0, 31)],
    ),
    (
        "27 records of cell 0, chain of faces broken at cell 2",
        &[Of(1, 0), FirstFace(0, HEAD_OF_27), FirstFace(2, 31)],
    ),
    (
        "27 records of cell 0, chain of neighbours broken at cell 2",
        &[Of(1, 0), FirstFace(0, HEAD_OF_27), FirstNeighbour(2, 31)],
    ),
    // A chain of 27 records, which is sound in the last case alone.
    (
        "circle of 27 records",
        &[Of(1, 0), FirstFace(0, HEAD_OF_27), NextFace(30, HEAD_OF_27)],
    ),
    (
        "27 records, the last its own next",
        &[Of(1, 0), FirstFace(0, HEAD_OF_27), NextFace(30, 30)],
    ),
    (
        "27 records and a missing one",
        &[Of(1, 0), FirstFace(0, HEAD_OF_27), NextFace(30, 31)],
    ),
    (
        "27 records, missing face in the last",
        &[Of(1, 0), FirstFace(0, HEAD_OF_27), Face(30, 1)],
    ),
    (
        "27 records, missing face in a record before them",
        &[Of(1, 0), FirstFace(0, HEAD_OF_27), Face(3, 1)],
    ),
    // Bad links.
    (
        "27 faces of cell 2, face 0 linked to itself",
        &[Between(26, 2, 1), Of(1, 2), Peer(0, 1)],
    ),
    (
        "27 faces of cell 0, last face linked to itself",
        &[Of(27, 0), Peer(26, 27)],
    ),
    (
        "27 records of cell 2, face 0 linked to itself",
        &[Of(1, 0), FirstFace(2, HEAD_OF_27), Peer(0, 1)],
    ),
    (
        "26 faces and 26 records of cell 0, last face linked to itself",
        &[Of(26, 0), FirstFace(0, HEAD_OF_26), Peer(25, 26)],
    ),
    (
        "27 faces of cell 0, faces 0 and 1 linked",
        &[Of(27, 0), Peer(0, 2), Peer(1, 1)],
    ),
    (
        "26 faces of cell 0, faces 0 and 1 linked",
        &[Of(26, 0), Peer(0, 2), Peer(1, 1)],
    ),
    // Wrong distances.
    (
        "27 faces of cell 0, own distance of face 0 1",
        &[Of(27, 0), Own(0, 1.0)],
    ),
    (
        "27 records of cell 2, own distance of face 0 1",
        &[Of(1, 0), FirstFace(2, HEAD_OF_27), Own(0, 1.0)],
    ),
    (
        "26 faces and 26 records of cell 0, own distance of the last face 1",
        &[Of(26, 0), FirstFace(0, HEAD_OF_26), Own(25, 1.0)],
    ),
];
