// The refusals of shape on two cells and three faces: the dimension, the slices' lengths and the mesh numbers.
use crate::case::Case;
use crate::change::Change::{self, Dimension, FirstFace, Length, Mesh, Number, Owner, Peer};
use crate::change::Part::{Adjacency, Bordering, Codes, Facing, Geometry, Heads, Places, Values};
use crate::run;
use std::io;

const DIMENSIONS: &[(&str, &[Change])] = &[
    ("dimension 0", &[Dimension(0)]),
    ("dimension 1", &[Dimension(1)]),
    ("dimension 2", &[Dimension(2)]),
    ("dimension 3", &[Dimension(3)]),
    ("dimension 4", &[Dimension(4)]),
    ("dimension the largest number", &[Dimension(usize::MAX)]),
    (
        "dimension 4 and a slice one short",
        &[Dimension(4), Length(Heads, 3)],
    ),
];

const LENGTHS: &[(&str, &[Change])] = &[
    ("adjacency one short", &[Length(Adjacency, 5)]),
    ("adjacency one long", &[Length(Adjacency, 7)]),
    ("adjacency a record short", &[Length(Adjacency, 4)]),
    ("adjacency a record long", &[Length(Adjacency, 8)]),
    ("geometry one short", &[Length(Geometry, 32)]),
    ("geometry one long", &[Length(Geometry, 34)]),
    ("geometry a record short", &[Length(Geometry, 22)]),
    ("geometry a record long", &[Length(Geometry, 44)]),
    ("heads one short", &[Length(Heads, 3)]),
    ("heads one long", &[Length(Heads, 5)]),
    ("heads a record short", &[Length(Heads, 2)]),
    ("heads a record long", &[Length(Heads, 6)]),
    ("places one short", &[Length(Places, 7)]),
    ("places one long", &[Length(Places, 9)]),
    ("places a record short", &[Length(Places, 4)]),
    ("places a record long", &[Length(Places, 12)]),
    ("face records one short", &[Length(Facing, 7)]),
    ("face records one long", &[Length(Facing, 9)]),
    ("face records a record short", &[Length(Facing, 6)]),
    ("face records a record long", &[Length(Facing, 10)]),
    ("neighbour records one short", &[Length(Bordering, 3)]),
    ("neighbour records one long", &[Length(Bordering, 5)]),
    ("neighbour records a record short", &[Length(Bordering, 2)]),
    ("neighbour records a record long", &[Length(Bordering, 6)]),
    ("codes one short", &[Length(Codes, 5)]),
    ("codes one long", &[Length(Codes, 7)]),
    ("codes a record short", &[Length(Codes, 4)]),
    ("codes a record long", &[Length(Codes, 8)]),
    ("values one short", &[Length(Values, 11)]),
    ("values one long", &[Length(Values, 13)]),
    ("values a record short", &[Length(Values, 8)]),
    ("values a record long", &[Length(Values, 16)]),
];

const NUMBERS: &[(&str, &[Change])] = &[
    ("another mesh number", &[Number(8)]),
    (
        "a mesh number that differs in its high half",
        &[Number(4294967303)],
    ),
    (
        "the largest mesh number",
        &[Mesh(u64::MAX), Number(u64::MAX)],
    ),
    (
        "another mesh number and a slice one short",
        &[Number(8), Length(Values, 11)],
    ),
    (
        "another mesh number and dimension 4",
        &[Number(8), Dimension(4)],
    ),
    (
        "another mesh number and a bad face",
        &[Number(8), Owner(0, 2)],
    ),
    (
        "another mesh number and a broken chain",
        &[Number(8), FirstFace(0, 5)],
    ),
    (
        "another mesh number and a bad link",
        &[Number(8), Peer(1, 2)],
    ),
];

pub(crate) fn all(rt: &impl Print, pair: &Case) -> io::Result<()> {
    run(rt, pair, DIMENSIONS)?;
    run(rt, pair, LENGTHS)?;
    run(rt, pair, NUMBERS)
}
