// The arithmetic of one face and of one cell in the coupling of pressure and velocity, in the Rust's
// order of float operations. A face is given by its two sides: its owner's and the other, which is
// that of its neighbour or, at a linked face, of the peer's owner. And check 2 of the slices that are read of a face.
#![tactic(auto)]

ghost use Rattle.std.specs.Prelude.{◌≡◌};
ghost use Rattle.coupling.specs.Cell.{inverse_diagonal, corrected_velocity, stands, divergence};
ghost use Rattle.coupling.specs.Grid.{grid_of_lent, grid_sized};
ghost use Rattle.coupling.specs.Face.{interpolated, projected, positive, internal_coefficient, linked_coefficient, fixed_coefficient, mixed, predicted, predicted_flux, corrected_flux};

use mesh::{Grid, Outcome};
use refusal::Reason;
use vector::Vec3;

// A face's centre and area vector, and the centres on its two sides.
#[derive(Clone, Copy)]
pub struct Span {
    pub center: Vec3,
    pub area: Vec3,
    pub owner: Vec3,
    pub other: Vec3,
}

// A number of each side: their distances from the face's centre, or the values of a field.
#[derive(Clone, Copy)]
pub struct Pair {
    pub owner: f64,
    pub other: f64,
}

// What a side brings to the predicted flux.
#[derive(Clone, Copy)]
pub struct Side {
    pub velocity: Vec3,
    pub gradient: Vec3,
    pub pressure: f64,
    pub response: f64,
}

// The value at the face of a field that is v on its two sides, at these distances.
#[tactic(auto, unfolding(crate::specs::Face::interpolated))]
pub fn interpolated(d: Pair, v: Pair) -> f64
    ensures { result ≡ interpolated d v }
{
    (d.other * v.owner + d.owner * v.other) / (d.owner + d.other)
}

// A response times the area projected onto d, over its length.
#[tactic(auto, unfolding(crate::specs::Face::projected))]
fn projected(response: f64, area: Vec3, d: Vec3) -> f64
    ensures { result ≡ projected response area d }
{
    response * area.dot(d) / d.norm_squared()
}

#[tactic(auto, unfolding(crate::specs::Face::positive))]
fn positive(k: f64) -> Outcome
    ensures { result ≡ positive k }
{
    if binary64::usable(k) {
        Ok(k)
    } else {
        Err(Reason::BadCoefficient)
    }
}

// The coefficient of a face with two cells, at these distances.
#[tactic(auto, unfolding(crate::specs::Face::internal_coefficient))]
pub fn internal_coefficient(s: Span, d: Pair, r: Pair) -> Outcome
    ensures { result ≡ internal_coefficient s d r }
{
    let away = s.other.sub(s.owner);
    if !binary64::far(away.norm_squared()) {
        return Err(Reason::TooNear);
    }
    if !binary64::far(d.owner + d.other) {
        return Err(Reason::TooNear);
    }
    positive(projected(interpolated(d, r), s.area, away))
}

// The coefficient of a linked face, likewise.
#[tactic(auto, unfolding(crate::specs::Face::linked_coefficient))]
pub fn linked_coefficient(s: Span, d: Pair, r: Pair) -> Outcome
    ensures { result ≡ linked_coefficient s d r }
{
    let response = interpolated(d, r);
    positive(projected(response, s.area, s.other.sub(s.owner)))
}

// The coefficient of a fixed-value face, whose centre is `away` from its owner's.
#[tactic(auto, unfolding(crate::specs::Face::fixed_coefficient))]
pub fn fixed_coefficient(area: Vec3, away: Vec3, response: f64) -> Outcome
    ensures { result ≡ fixed_coefficient area away response }
{
    positive(projected(response, area, away))
}

#[tactic(auto, unfolding(crate::specs::Face::mixed))]
fn mixed(a: Vec3, s: f64, b: Vec3, t: f64) -> Vec3
    ensures { result ≡ mixed a s b t }
{
    a.scale(s).add(b.scale(t))
}

#[tactic(auto, unfolding(crate::specs::Face::predicted))]
fn predicted(s: Span, d: Pair, k: f64, a: Side, b: Side) -> f64
    ensures { result ≡ predicted s d k a b }
{
    let w = d.other / (d.owner + d.other);
    let u = 1.0 - w;
    let velocity = mixed(a.velocity, w, b.velocity, u);
    let gradient = mixed(a.gradient, w, b.gradient, u);
    let weighted = mixed(a.gradient, w * a.response, b.gradient, u * b.response);
    let covariance = weighted.sub(gradient.scale(w * a.response + u * b.response));
    velocity.dot(s.area)
        + covariance.dot(s.area)
        + k * (gradient.dot(s.other.sub(s.owner)) - (b.pressure - a.pressure))
}

// The predicted flux of a face of the coefficient k, at these distances; a is the owner's side. That a number is finite
// is tested where it is made, here and below: a function for it would be a definition more, and no plainer.
#[tactic(auto, unfolding(crate::specs::Face::predicted_flux))]
pub fn predicted_flux(s: Span, d: Pair, k: f64, a: Side, b: Side) -> Outcome
    ensures { result ≡ predicted_flux s d k a b }
{
    let flux = predicted(s, d, k, a, b);
    if binary64::finite(flux) {
        Ok(flux)
    } else {
        Err(Reason::BadCoefficient)
    }
}

// The corrected flux of a face of the coefficient k between the corrections `own`, of its owner, and
// `other`.
#[tactic(auto, unfolding(crate::specs::Face::corrected_flux))]
pub fn corrected_flux(predicted: f64, k: f64, other: f64, own: f64) -> Outcome
    ensures { result ≡ corrected_flux predicted k other own }
{
    if !binary64::usable(k) {
        return Err(Reason::BadCoefficient);
    }
    let corrected = predicted - k * (other - own);
    if binary64::finite(corrected) {
        Ok(corrected)
    } else {
        Err(Reason::BadCoefficient)
    }
}

// One over a momentum diagonal.
#[tactic(auto, unfolding(crate::specs::Cell::inverse_diagonal))]
pub fn inverse_diagonal(value: f64) -> Outcome
    ensures { result ≡ inverse_diagonal value }
{
    if binary64::usable(value) {
        Ok(1.0 / value)
    } else {
        Err(Reason::BadDiagonal)
    }
}

#[tactic(auto, unfolding(crate::specs::Cell::corrected_velocity))]
pub fn corrected_velocity(velocity: Vec3, response: f64, gradient: Vec3) -> Vec3
    ensures { result ≡ corrected_velocity velocity response gradient }
{
    velocity.sub(gradient.scale(response))
}

// Whether a velocity that was corrected by a response may stand.
#[tactic(auto, unfolding(crate::specs::Cell::stands))]
pub fn stands(response: f64, v: Vec3) -> bool
    ensures { result ≡ stands response v }
{
    binary64::usable(response)
        & (binary64::finite(v.x) & binary64::finite(v.y) & binary64::finite(v.z))
}

// The magnitude of an outflow over the cell's volume.
#[tactic(auto, unfolding(crate::specs::Cell::divergence))]
pub fn divergence(outflow: f64, volume: f64) -> Outcome
    ensures { result ≡ divergence outflow volume }
{
    if !binary64::usable(volume) {
        return Err(Reason::BadVolume);
    }
    let d = binary64::abs(outflow / volume);
    if binary64::finite(d) {
        Ok(d)
    } else {
        Err(Reason::BadCoefficient)
    }
}

// Check 2, of adjacency, geometry and places. Each check writes out the slices that it is lent: a part shared with the
// checks of `mesh` or of `step` would want a definition of its own, and be no plainer.
pub fn is_grid_sized(grid: &Grid<'_>) -> bool
    ensures { result ≡ grid_sized grid.now.counts (grid_of_lent grid.now) }
{
    let counts = grid.counts;
    mesh::is_sized(grid.adjacency.len(), 2, counts.faces)
        & mesh::is_sized(grid.geometry.len(), 11, counts.faces)
        & mesh::is_sized(grid.places.len(), 4, counts.cells)
}
