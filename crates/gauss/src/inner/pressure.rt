// The pressure of a face, from those of the cells.
ghost use Rattle.std.specs.Prelude.{◌≡◌, ◌+◌, ◌<◌};
ghost use Rattle.mesh.specs.Bundles.{bounds_of_lent};
ghost use Rattle.mesh.specs.Records.{neighbour_at, peer_at};
ghost use Rattle.coupling.specs.Grid.{grid_of_lent};
ghost use Rattle.gauss.specs.Pressure.{one_sided, between, linked, face_pressure, pressure_without_conditions};

use chain::inner::first_of;
use mesh::Condition;
use predictor::inner::boundary::Boundary;
use predictor::inner::coefficients::{Coupling, pair_at};

// Of a face with one cell and no link, which has the pressure `own`. The sum is the Rust's, with no density beside it:
// it turns -0.0 into +0.0.
#[tactic(auto, unfolding(crate::specs::Pressure::one_sided))]
fn one_sided(condition: Condition, own: f64) -> f64
    ensures { result ≡ one_sided condition own }
{
    match condition {
        Condition::Fixed(v) => v,
        Condition::ZeroGradient | Condition::Absent => own + 0.0,
    }
}

// Of the face f between its owner and the cell n.
#[tactic(auto, unfolding(crate::specs::Pressure::between))]
fn between(cells: &Coupling<'_>, f: usize, n: usize) -> f64
    requires face { f < cells.now.grid.counts.faces }
    requires neighbour { neighbour_at cells.now.grid.adjacency.now f ≡ n + 1 }
    ensures { result ≡ between (grid_of_lent cells.now.grid) cells.now.values.now f }
{
    let owner = first_of(cells.grid.adjacency, f);
    coupling::interpolated(cells.distances(f), pair_at(cells.values, owner, n))
}

// Of the face f, which is linked with the face `peer`.
#[tactic(auto, unfolding(crate::specs::Pressure::linked))]
fn linked(sides: &Boundary<'_>, f: usize, peer: usize) -> f64
    requires face { f < sides.now.coupling.grid.counts.faces }
    requires peer { peer_at sides.now.bounds.codes.now f ≡ peer + 1 }
    ensures { let m = grid_of_lent sides.now.coupling.grid in
        let k = bounds_of_lent sides.now.bounds in
        result ≡ linked m k sides.now.coupling.values.now f }
{
    let beyond = sides.beyond(f, peer);
    let owner = first_of(sides.coupling.grid.adjacency, f);
    let pressures = pair_at(sides.coupling.values, owner, beyond.cell);
    coupling::interpolated(beyond.distances, pressures)
}

// Of a face with one cell.
#[tactic(auto, unfolding(crate::specs::Pressure::face_pressure))]
fn outer(sides: &Boundary<'_>, f: usize) -> f64
    requires face { f < sides.now.coupling.grid.counts.faces }
    requires one_cell { neighbour_at sides.now.coupling.grid.adjacency.now f ≡ 0 }
    ensures { let m = grid_of_lent sides.now.coupling.grid in
        let k = bounds_of_lent sides.now.bounds in
        result ≡ face_pressure m k sides.now.coupling.values.now f }
{
    match sides.bounds.peer(f) {
        Some(peer) => linked(sides, f, peer),
        None => {
            let owner = first_of(sides.coupling.grid.adjacency, f);
            one_sided(sides.bounds.condition_at(f), sides.coupling.values[owner])
        }
    }
}

// Of the face f, with conditions and links.
#[tactic(auto, unfolding(crate::specs::Pressure::face_pressure))]
pub fn face_pressure(sides: &Boundary<'_>, f: usize) -> f64
    requires face { f < sides.now.coupling.grid.counts.faces }
    ensures { let m = grid_of_lent sides.now.coupling.grid in
        let k = bounds_of_lent sides.now.bounds in
        result ≡ face_pressure m k sides.now.coupling.values.now f }
{
    match sides.coupling.grid.neighbour(f) {
        Some(n) => between(&sides.coupling, f, n),
        None => outer(sides, f),
    }
}

// And without.
#[tactic(auto, unfolding(crate::specs::Pressure::pressure_without_conditions))]
pub fn pressure_without_conditions(cells: &Coupling<'_>, f: usize) -> f64
    requires face { f < cells.now.grid.counts.faces }
    ensures { result ≡ pressure_without_conditions (grid_of_lent cells.now.grid) cells.now.values.now f }
{
    match cells.grid.neighbour(f) {
        Some(n) => between(cells, f, n),
        None => {
            let owner = first_of(cells.grid.adjacency, f);
            one_sided(Condition::Absent, cells.values[owner])
        }
    }
}
