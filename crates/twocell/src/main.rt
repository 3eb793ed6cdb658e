// Prints the two-cell sheet of document 01: the corrected flux of each face, and the outflow of each
// cell. Face 0 joins cells 0 and 1, and faces 1 and 2 are zero-gradient faces of cells 0 and 1. The
// expected output, the crate's file `stdout`, is document 01's.
#![tactic(auto)]

use mesh::{Answer, Conditions, Counts, Faces, Field};
use refusal::Refusal;
use simple::Corrections;
use std::{fmt, io};

// The mesh's number, which every slice has too.
const MESH: u64 = 1;

// The owner of each face, and its neighbour + 1.
const FACES: Faces<'static> = Faces {
    counts: Counts {
        mesh: MESH,
        dimension: 2,
        cells: 2,
        faces: 3,
        facings: 4,
        borderings: 2,
    },
    adjacency: &[0, 2, 0, 0, 1, 0],
};

const CONDITIONS: Conditions<'static> = Conditions {
    number: MESH,
    codes: &[0, 0, 2, 0, 2, 0],
    values: &[0.0; 12],
};

// A line for each number: its place, and the 16 hex digits of its pattern.
#[derive(Clone, Copy)]
struct Rows<'a>(&'a [f64]);

impl fmt::Display for Rows<'_> {
    fn fmt<W: fmt::Write>(&self, f: &mut fmt::Formatter<W>) -> fmt::Result {
        for (i, x) in self.0.iter().enumerate() {
            writeln!(f, "{i} {:016x}", pattern::bits(*x))?;
        }
        Ok(())
    }
}

// The flux of each face, and the outflow of each cell: arrays, since a sheet has three faces and two cells.
#[derive(Clone, Copy)]
struct Sheet {
    flux: [f64; 3],
    outflow: [f64; 2],
}

impl fmt::Display for Sheet {
    fn fmt<W: fmt::Write>(&self, f: &mut fmt::Formatter<W>) -> fmt::Result {
        write!(f, "face flux\n{}", Rows(&self.flux))?;
        write!(f, "cell outflow\n{}", Rows(&self.outflow))
    }
}

// Floats with the number of this program's mesh; `edges` has the same for its own, a number that no library
// knows.
const fn field(values: &[f64]) -> Field<'_> {
    Field {
        number: MESH,
        values,
    }
}

fn correct(flux: &mut [f64; 3]) -> Answer {
    let fields = Corrections {
        coefficients: field(&[0.5, 0.0, 0.0]),
        correction: field(&[1.0, 3.0]),
    };
    let predicted = field(&[2.0, -1.0, 1.0]);
    simple::correct_face_flux_with_boundary(&FACES, &CONDITIONS, &predicted, &fields, flux)
}

fn computed() -> Result<Sheet, Refusal> {
    let mut flux = [0.0; 3];
    let mut outflow = [0.0; 2];
    correct(&mut flux)?;
    numerics::integrated_divergence(&FACES, &field(&flux), &mut outflow)?;
    Ok(Sheet { flux, outflow })
}

fn main(rt: HostRuntime) -> io::Result<()> {
    match computed() {
        Ok(sheet) => print!(rt; "{sheet}"),
        Err(refusal) => println!(rt; "{refusal}"),
    }
}
