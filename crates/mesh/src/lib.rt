// What is lent, by C too: the records of a mesh and of its conditions, the checks of shape and of the mesh, and the
// clearing of outputs. Records stand in flat slices; `inner` reads them by value.
#![tactic(auto)]

ghost use Rattle.std.specs.Prelude.{◌≡◌, ◌*◌, true, eqb, length, replicate, None};
ghost use Rattle.binary64.specs.Numbers.{zero64};
ghost use Rattle.mesh.specs.Answers.{pass, at, shape, accepted};
ghost use Rattle.mesh.specs.Records.{condition_of};
ghost use Rattle.mesh.specs.Checks.{sizes_ok, lowest_unknown_code};
ghost use Rattle.mesh.specs.FaceDistances.{distance_checks, DistancesCall, Passing};

use crate::inner::distances::{Linked, Sided};
use refusal::{Reason, Refusal};
use vector::Vec3;

pub mod inner;
mod lent;
mod test;

pub use lent::{Bounds, Conditions, Faces, Field, Grid, Mesh};

// The most that a mesh may have of cells, of faces or of records of a chain.
pub const LARGEST_COUNT: usize = 65535;

// A mesh's number, its dimension, and how many cells, faces, face records and neighbour records it
// has.
#[repr(C)]
#[derive(Clone, Copy)]
pub struct Counts {
    pub mesh: u64,
    pub dimension: usize,
    pub cells: usize,
    pub faces: usize,
    pub facings: usize,
    pub borderings: usize,
}

// A face. `area` is the area vector.
#[derive(Clone, Copy)]
pub struct Face {
    pub owner: usize,
    pub center: Vec3,
    pub area: Vec3,
    pub normal: Vec3,
}

#[derive(Clone, Copy)]
pub struct Cell {
    pub center: Vec3,
    pub volume: f64,
}

// What holds at a one-cell face.
#[derive(Clone, Copy)]
pub enum Condition {
    Absent,
    Fixed(f64),
    ZeroGradient,
}

// An entry's answer.
pub type Answer = Result<(), Refusal>;

// What a face or a cell is given.
pub type Outcome = Result<f64, Reason>;

impl Condition {
    // What a code and its value stand for: two numbers, so that this is a constructor and no `From`.
    pub fn of(code: usize, value: f64) -> Condition
        ensures { result ≡ condition_of code value }
    {
        match code {
            1 => Condition::Fixed(value),
            2 => Condition::ZeroGradient,
            _ => Condition::Absent,
        }
    }
}

// Check 1: the counts are those of a mesh.
pub fn sizes_ok(counts: Counts) -> bool
    ensures { result ≡ sizes_ok counts }
{
    (0 < counts.cells)
        & (counts.cells <= LARGEST_COUNT)
        & (counts.faces <= LARGEST_COUNT)
        & (counts.facings <= LARGEST_COUNT)
        & (counts.borderings <= LARGEST_COUNT)
        & ((counts.dimension == 2) | (counts.dimension == 3))
}

// Check 2: a slice's length is that of `count` records of `width` numbers.
pub fn is_sized(len: usize, width: usize, count: usize) -> bool
    ensures { result ≡ eqb len (width * count) }
{
    width.checked_mul(count) == Some(len)
}

// Check 4, of a face's condition code.
pub fn lowest_unknown_code(codes: &[usize]) -> Option<usize>
    ensures { result ≡ lowest_unknown_code codes.now }
{
    chain::lowest(codes.len() / 2, |f| 2 < codes[2 * f])
}

// A test that has to pass.
#[tactic(auto, unfolding(crate::specs::Answers::pass))]
pub fn pass(reason: Reason, test: bool) -> Answer
    ensures { result ≡ pass reason test }
{
    if test { Ok(()) } else { Err(reason.at(0)) }
}

// A search that has to find nothing.
#[tactic(auto, unfolding(crate::specs::Answers::at))]
pub fn at(reason: Reason, found: Option<usize>) -> Answer
    ensures checked { result ≡ at reason found }
    ensures nothing { result ≡ accepted → found ≡ None }
{
    match found {
        None => Ok(()),
        Some(i) => Err(reason.at(i)),
    }
}

// The checks of shape: of the counts, of the lengths, of the mesh numbers.
#[tactic(auto, using(crate::proofs::Facts::in_order, crate::proofs::Facts::passed), unfolding(crate::specs::Answers::first_of, crate::specs::Answers::shape))]
pub fn shape(counts: bool, lengths: bool, numbers: bool) -> Answer
    ensures checked { result ≡ shape counts lengths numbers }
    ensures counted { result ≡ accepted → counts ≡ true }
    ensures sized { result ≡ accepted → lengths ≡ true }
{
    pass(Reason::BadSize, counts)?;
    pass(Reason::WrongLength, lengths)?;
    pass(Reason::OtherMesh, numbers)
}

// Every number +0.0.
pub fn clear(out: &mut [f64])
    ensures { out.new ≡ replicate (length out.old) zero64 }
{
    out.fill(0.0)
}

#[tactic(auto, using(crate::proofs::Facts::in_order, crate::proofs::Facts::shape_first), unfolding(crate::specs::FaceDistances::distance_checks))]
fn check_distances(
    faces: &Faces<'_>,
    places: &[f64],
    number: u64,
    codes: &[usize],
    geometry: usize,
) -> Answer
    ensures checked { let m = faces.now in
        result ≡ distance_checks m.counts m.adjacency.now places.now number codes.now geometry }
{
    let counts = faces.counts;
    let sized = is_sized(faces.adjacency.len(), 2, counts.faces)
        & is_sized(places.len(), 4, counts.cells)
        & is_sized(codes.len(), 2, counts.faces)
        & is_sized(geometry, 11, counts.faces);
    shape(sizes_ok(counts), sized, number == counts.mesh)?;
    #[tactic(auto, using(crate::proofs::Facts::small))]
    faces.check_links(codes)
}

// The distances that the faces carry, by the centres that stand there, with these links; `number` is the mesh number
// of the conditions that they are a part of. Whatever builds a mesh calls it.
#[tactic(auto, using(crate::proofs::Made::measurable), unfolding(crate::specs::Pass::if_refused))]
pub fn face_distances<'a>(
    faces: &Faces<'a>,
    places: &'a [f64],
    number: u64,
    codes: &[usize],
    geometry: &mut [f64],
) -> Answer
    ensures call { let m = faces.now in
        DistancesCall m.counts m.adjacency.now places.now number codes.now geometry.old result geometry.new }
    ensures passes { Passing result faces.now.adjacency.now places.now codes.now geometry.new }
{
    check_distances(faces, places, number, codes, geometry.len())?;
    let sided = Sided {
        faces: *faces,
        places,
    };
    Linked { sided, codes }.measure(geometry);
    Ok(())
}
