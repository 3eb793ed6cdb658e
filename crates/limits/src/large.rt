// The limits of the counts, each slice as long as its count says, and a chain of the most records.
ghost use Rattle.std.specs.Prelude.{◌≡◌, take};

use crate::tell;
use mesh::{Conditions, Counts, Mesh};
use std::io;

// So many cells, faces, face records and neighbour records.
const COUNTS: &[(&str, [u32; 4])] = &[
    ("no cell", [0, 0, 0, 0]),
    ("no cell but a face", [0, 1, 0, 0]),
    ("one cell with no face", [1, 0, 0, 0]),
    ("65535 cells", [65535, 0, 0, 0]),
    ("65536 cells", [65536, 0, 0, 0]),
    ("65535 faces", [1, 65535, 0, 0]),
    ("65536 faces", [1, 65536, 0, 0]),
    ("65535 face records", [1, 0, 65535, 0]),
    ("65536 face records", [1, 0, 65536, 0]),
    ("65535 neighbour records", [1, 0, 0, 65535]),
    ("65536 neighbour records", [1, 0, 0, 65536]),
    ("65535 of each", [65535, 65535, 65535, 65535]),
];

// Where the last face record of a chain of 65,535 leads.
const ENDS: &[(&str, usize)] = &[
    ("chain of 65535 face records", 0),
    ("circle of 65535 face records", 1),
    ("chain of 65535 face records and a missing one", 65536),
];

// The first n numbers of a slice, or all where it has no more.
fn part<T>(s: &[T], n: usize) -> &[T]
    ensures { result.now ≡ take n s.now }
{
    if n <= s.len() { &s[..n] } else { s }
}

// A mesh of these counts with its conditions, in parts of zeros: every face has the owner 0 and no neighbour, and
// every chain is empty.
fn zeros<'a>(
    numbers: &'a [usize],
    floats: &'a [f64],
    counts: [u32; 4],
) -> (Mesh<'a>, Conditions<'a>) {
    let [cells, faces, facings, borderings] = counts;
    let (cells, faces) = (cells as usize, faces as usize);
    let (facings, borderings) = (facings as usize, borderings as usize);
    let mesh = Mesh {
        counts: Counts {
            mesh: 7,
            dimension: 3,
            cells,
            faces,
            facings,
            borderings,
        },
        adjacency: part(numbers, 2 * faces),
        geometry: part(floats, 11 * faces),
        heads: part(numbers, 2 * cells),
        places: part(floats, 4 * cells),
        facing: part(numbers, 2 * facings),
        bordering: part(numbers, 2 * borderings),
    };
    let conditions = Conditions {
        number: 7,
        codes: part(numbers, 2 * faces),
        values: part(floats, 4 * faces),
    };
    (mesh, conditions)
}

// Writes the line of each case, which lends parts of the same zeros.
fn lend(rt: &impl Print, numbers: &[usize], floats: &[f64]) -> io::Result<()> {
    for (name, counts) in COUNTS {
        let (mesh, conditions) = zeros(numbers, floats, *counts);
        tell(rt, name, mesh.check(&conditions))?;
    }
    Ok(())
}

// Zeros for the largest counts, as constants: a run holds only those of them that a check reads.
pub(crate) fn counts(rt: &impl Print) -> io::Result<()> {
    lend(rt, &[0; 131072], &[0.0; 720896])
}

// Chains each record of face 0 to the next.
fn chain(records: &mut [usize; 131070]) {
    for r in 1..65535 {
        records[2 * r - 1] = r + 1;
    }
}

// A cell with a face, whose chain of faces starts at record 1.
pub(crate) fn chains(rt: &impl Print) -> io::Result<()> {
    let (mesh, conditions) = zeros(&[0; 2], &[0.0; 11], [1, 1, 65535, 0]);
    let mut records = [0; 131070];
    chain(&mut records);
    for (name, end) in ENDS {
        records[131069] = *end;
        let chained = Mesh {
            heads: &[1, 0],
            facing: &records,
            ..mesh
        };
        tell(rt, name, chained.check(&conditions))?;
    }
    Ok(())
}
