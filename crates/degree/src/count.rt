// The count of the faces that name each cell, where check 4 has passed. How many cells there are and the adjacency go
// apart: the struct that has both, `Faces`, is of `mesh`, above this crate.
ghost use Rattle.std.specs.Prelude.{◌≡◌, ◌+◌, ◌*◌, ◌/◌, ◌<◌, ◌≤◌, length, replicate};
ghost use Rattle.degree.specs.Degree.{CellsOf, FacesIn, lowest_crowded};
ghost use Rattle.degree.specs.Counts.{bumped, with_face, counted};

use crate::MOST_FACES;
use chain::inner::{first_of, named_at};

// One more for a cell, as far as a byte goes.
fn bump(named: &mut [u8], cell: usize)
    requires { cell < length named.old }
    ensures { named.new ≡ bumped named.old cell }
{
    named[cell] = named[cell].saturating_add(1);
}

// One more for each cell that the face f names.
#[tactic(auto, unfolding(crate::specs::Counts::with_face))]
fn add_face(adjacency: &[usize], f: usize, named: &mut [u8])
    requires face { 2 * f + 1 < length adjacency.now }
    requires cells { CellsOf (length named.old) adjacency.now f }
    ensures { named.new ≡ with_face adjacency.now f named.old }
{
    bump(named, first_of(adjacency, f));
    if let Some(neighbour) = named_at(adjacency, f) {
        bump(named, neighbour);
    }
}

// The faces that name each cell, as far as a count goes.
#[tactic(auto, using(crate::proofs::Counting::length_counted), unfolding(crate::specs::Counts::counted))]
fn count(adjacency: &[usize], named: &mut [u8])
    requires { FacesIn (length named.old) adjacency.now }
    ensures counts { let a = adjacency.now in
        named.new ≡ counted a named.old (length a / 2) }
{
    for f in 0..adjacency.len() / 2 {
        add_face(adjacency, f, named);
    }
}

// The lowest of so many cells that more than 26 faces name, counted in a slice of zeros.
fn lowest_in(cells: usize, adjacency: &[usize], named: &mut [u8]) -> Option<usize>
    requires room { cells ≤ length named.old }
    requires zeros { named.old ≡ replicate (length named.old) 0 }
    requires faces { FacesIn cells adjacency.now }
    ensures { result ≡ lowest_crowded cells adjacency.now }
{
    count(adjacency, named);
    chain::lowest(cells, |c| MOST_FACES < usize::from(named[c]))
}

// The same with room for N cells, in an array: the engine has no heap.
pub(crate) fn lowest_of<const N: usize>(cells: usize, adjacency: &[usize]) -> Option<usize>
    requires room { cells ≤ N }
    requires few { N ≤ 65536 }
    requires faces { FacesIn cells adjacency.now }
    ensures { result ≡ lowest_crowded cells adjacency.now }
{
    let mut named = [0u8; N];
    lowest_in(cells, adjacency, &mut named)
}
