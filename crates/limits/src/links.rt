// Refusal 6: the links of faces, on the row of four cells, whose one-cell faces are 0, 4 and 5. Where
// several faces are badly linked, the lowest is named.
use crate::change::Change::{self, FirstFace, Owner, Peer};

pub const CASES: &[(&str, &[Change])] = &[
    ("first face and face 4 linked", &[Peer(0, 5), Peer(4, 1)]),
    ("first and last face linked", &[Peer(0, 6), Peer(5, 1)]),
    ("face 4 and last face linked", &[Peer(4, 6), Peer(5, 5)]),
    (
        "two-cell face 2 and face 4 linked",
        &[Peer(2, 5), Peer(4, 3)],
    ),
    (
        "two-cell face 3 and face 0 linked",
        &[Peer(3, 1), Peer(0, 4)],
    ),
    (
        "two-cell face 1 linked to face 4, which has no link",
        &[Peer(1, 5)],
    ),
    ("first face linked to itself", &[Peer(0, 1)]),
    ("last face linked to itself", &[Peer(5, 6)]),
    ("first face linked past the last face", &[Peer(0, 7)]),
    ("last face linked past the last face", &[Peer(5, 7)]),
    (
        "first face linked to the largest number",
        &[Peer(0, usize::MAX)],
    ),
    (
        "last face linked to the largest number",
        &[Peer(5, usize::MAX)],
    ),
    (
        "first face linked to face 4, which has no link",
        &[Peer(0, 5)],
    ),
    (
        "face 4 linked to the first face, which has no link",
        &[Peer(4, 1)],
    ),
    (
        "first face linked to two-cell face 1, which has no link",
        &[Peer(0, 2)],
    ),
    (
        "first face linked to face 4, which is linked with face 5",
        &[Peer(4, 6), Peer(5, 5), Peer(0, 5)],
    ),
    (
        "last face linked to face 4, which is linked with face 0",
        &[Peer(0, 5), Peer(4, 1), Peer(5, 5)],
    ),
    (
        "first and last face linked to themselves",
        &[Peer(0, 1), Peer(5, 6)],
    ),
    ("two-cell faces 1 and 2 linked", &[Peer(1, 3), Peer(2, 2)]),
    (
        "faces 0, 5 and 4 linked in a circle",
        &[Peer(0, 6), Peer(5, 5), Peer(4, 1)],
    ),
    (
        "faces 0 and 4 linked, faces 3 and 5 linked past the last face",
        &[Peer(0, 5), Peer(4, 1), Peer(5, 7), Peer(3, 7)],
    ),
    (
        "bad link at face 0, bad face at face 5",
        &[Peer(0, 1), Owner(5, 4)],
    ),
    (
        "bad link at face 0, broken chain at cell 3",
        &[Peer(0, 1), FirstFace(3, 10)],
    ),
];
