// The faces that name each cell, counted in a local array, for callers that have made check 4.
ghost use Rattle.std.specs.Prelude.{◌≡◌, ◌≤◌};
ghost use Rattle.degree.specs.Degree.{FacesIn, lowest_crowded};

use crate::count;

// Check 14, of the faces that name a cell, of up to 65,536 cells: the lowest cell that more than 26 faces name.
// The cells and the adjacency go apart, as in count.rt.
pub fn lowest_crowded(cells: usize, adjacency: &[usize]) -> Option<usize>
    requires few { cells ≤ 65536 }
    requires faces { FacesIn cells adjacency.now }
    ensures { result ≡ lowest_crowded cells adjacency.now }
{
    if cells <= 4096 {
        return count::lowest_of::<4096>(cells, adjacency);
    }
    count::lowest_of::<65536>(cells, adjacency)
}
