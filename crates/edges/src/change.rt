// What the cases change in the base.
use crate::case::{Case, base};
use std::io;

// A slice that a case changes.
#[derive(Clone, Copy)]
pub enum Part {
    Adjacency,
    Geometry,
    Heads,
    Places,
    Facing,
    Codes,
    Values,
    Starts,
    Equations,
    Diagonal,
    Responses,
    Pressure,
    Velocity,
    Gradient,
    Walls,
    Coefficients,
    Correction,
    Flux,
    Outflow,
    Metrics,
}

#[derive(Clone, Copy)]
pub enum Change {
    Nothing,
    Dimension(usize),

    // Room for so many equation records.
    Records(u8),

    // The length of a slice, lent or handed out.
    Length(Part, usize),

    // The mesh number beside a slice.
    Number(Part, u64),

    // One number of a slice.
    Whole(Part, usize, usize),
    Float(Part, usize, f64),
}

// The most numbers of a slice that a case changes: the facings', and the geometry's.
const WHOLES: usize = 16;

pub const FLOATS: usize = 77;

// Copies the numbers of a slice into the front of a copy, as far as they fit, which is all of them in every case.
pub(crate) fn copy_to<T: Copy>(slice: &[T], copy: &mut [T]) {
    for (number, x) in copy.iter_mut().zip(slice) {
        *number = *x;
    }
}

// Puts a copy of a slice in its place, cut or with the zeros of the copy past its end.
fn resize<'a, T: Copy>(slice: &mut &'a [T], n: usize, copy: &'a mut [T]) {
    copy_to(slice, copy);
    if let Some(numbers) = copy.get(..n) {
        *slice = numbers;
    }
}

// Puts a copy of a slice in its place, with x for number i.
fn set<'a, T: Copy>(slice: &mut &'a [T], i: usize, x: T, copy: &'a mut [T]) {
    copy_to(slice, copy);
    if let Some(number) = copy.get_mut(i) {
        *number = x;
    }
    if let Some(numbers) = copy.get(..slice.len()) {
        *slice = numbers;
    }
}

impl Change {
    // Changes a case; a slice is changed in a copy.
    fn apply<'a>(
        self,
        case: &mut Case<'a>,
        whole: &'a mut [usize; WHOLES],
        floats: &'a mut [f64; FLOATS],
    ) {
        match self {
            Change::Nothing => {}
            Change::Dimension(n) => case.mesh.counts.dimension = n,
            Change::Records(n) => {
                let records = usize::from(n);
                case.stencil.records = records;
                resize(&mut case.stencil.equations, 2 * records, whole);
                resize(&mut case.stencil.weights, 4 * records, floats);
            }
            Change::Length(part, n) => {
                if let Some(slice) = case.whole_mut(part) {
                    resize(slice, n, whole);
                } else if let Some(slice) = case.floats_mut(part) {
                    resize(slice, n, floats);
                }
            }
            Change::Number(part, n) => {
                if let Some(number) = case.number_mut(part) {
                    *number = n;
                }
            }
            Change::Whole(part, i, n) => {
                if let Some(slice) = case.whole_mut(part) {
                    set(slice, i, n, whole);
                }
            }
            Change::Float(part, i, x) => {
                if let Some(slice) = case.floats_mut(part) {
                    set(slice, i, x, floats);
                }
            }
        }
    }

    // Whether a centre may be another.
    fn moves(self) -> bool {
        matches!(self, Change::Float(Part::Geometry | Part::Places, _, _))
    }

    // Makes a call with the changed base, whose distances are those of its centres.
    pub(crate) fn show<R: Print, F: Fn(&R, &Case<'_>) -> io::Result<()>>(
        self,
        rt: &R,
        call: &F,
    ) -> io::Result<()>
        requires { F.IsAlwaysCallable call.now }
    {
        let mut whole = [0; WHOLES];
        let mut floats = [0.0; FLOATS];
        let mut geometry = [0.0; FLOATS];
        let mut case = base();
        self.apply(&mut case, &mut whole, &mut floats);
        if self.moves() {
            case.make_distances(&mut geometry);
        }
        call(rt, &case)
    }
}
