// For callers that have made checks: records read by value, and the checks that come after others.
ghost use Rattle.std.specs.Prelude.{◌≡◌, ◌+◌, ◌*◌, ◌<◌, length};
ghost use Rattle.mesh.specs.Records.{cell_at};

mod checks;
pub(crate) mod distances;

use crate::Cell;
use vector::inner::vector_at;

pub fn cell_at(places: &[f64], c: usize) -> Cell
    requires { 4 * c + 3 < length places.now }
    ensures { result ≡ cell_at places.now c }
{
    let p = 4 * c;
    Cell {
        center: vector_at(places, p),
        volume: places[p + 3],
    }
}
