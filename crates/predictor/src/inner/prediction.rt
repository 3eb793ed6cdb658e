// The predicted flux of all faces.
ghost use Rattle.std.specs.Prelude.{◌≡◌, ◌+◌, ◌*◌, ◌<◌, length};
ghost use Rattle.mesh.specs.Pass.{handed_out};
ghost use Rattle.predictor.specs.Coefficients.{internal_at, coefficients};
ghost use Rattle.coupling.specs.Grid.{grid_of_lent};
ghost use Rattle.predictor.specs.Prediction.{side_at, predicted_at, prediction_answer, predicted_fluxes};
ghost use Rattle.passes.specs.Staged.{staged, stored_at, Passes, Fills};

use crate::inner::coefficients::Coupling;
use coupling::Side;
use mesh::Answer;
use numerics::inner::gradient::Slope;
use passes::{Stage, settle, store};
use vector::inner::vector_at;

// What a flux is predicted from: the responses, the pressure with its stencil, the velocity, and the
// fluxes of the walls.
#[derive(Clone, Copy)]
pub struct Momentum<'s, 'a> {
    pub coupling: Coupling<'a>,
    pub slope: Slope<'s>,
    pub velocity: &'a [f64],
    pub walls: &'a [f64],
    pub ghost sized: { (length velocity.now ≡ 3 * length slope.field.now)
        × (length coupling.values.now ≡ length slope.field.now)
        × (length walls.now ≡ coupling.grid.counts.faces) },
}

// The same with a gradient of the pressure in place of the stencil.
#[derive(Clone, Copy)]
pub struct Flow<'s, 'g, 'a> {
    pub coupling: Coupling<'a>,
    pub velocity: &'a [f64],
    pub pressure: &'s [f64],
    pub gradient: &'g [f64],
    pub walls: &'a [f64],
    pub ghost sized: { (length velocity.now ≡ 3 * length pressure.now)
        × (length gradient.now ≡ 3 * length pressure.now)
        × (length coupling.values.now ≡ length pressure.now)
        × (length walls.now ≡ coupling.grid.counts.faces) },
}

// A method asks that its cell or face is there, or that its output is as long as the faces are, as those of a
// `Boundary` do: of a number and of a slice that are no part of the struct.
impl<'s, 'g, 'a> Flow<'s, 'g, 'a> {
    ghost use Rattle.predictor.specs.Bundles.{flow_of_lent};

    // What the cell c brings to a flux.
    pub fn side_at(&self, c: usize) -> Side
        requires { c < length self.now.pressure.now }
        ensures answer { result ≡ side_at (flow_of_lent self.now) c }
    {
        let b = 3 * c;
        Side {
            velocity: vector_at(self.velocity, b),
            gradient: vector_at(self.gradient, b),
            pressure: self.pressure[c],
            response: self.coupling.values[c],
        }
    }

    // The flux of the face f; one with one cell keeps its wall flux. The coefficient of one with two cells,
    // which is stored where there is room, refuses before any flux.
    #[tactic(auto, unfolding(crate::specs::Coefficients::internal_at, crate::specs::Prediction::predicted_at, passes::specs::Staged::staged, passes::specs::Staged::stored_at, mesh::specs::Pass::value_of))]
    fn stage_at(&self, f: usize, internal: &mut [f64]) -> Stage
        requires f_in_bounds { f < length self.now.walls.now }
        ensures answer { let m = grid_of_lent self.now.coupling.grid in
            let q = flow_of_lent self.now in
            result ≡ staged (internal_at m q.responses f) (predicted_at m q self.now.walls.now f) }
        ensures stored { let m = grid_of_lent self.now.coupling.grid in
            internal.new ≡ stored_at internal.old f (internal_at m self.now.coupling.values.now f) }
    {
        let Some(n) = self.coupling.grid.neighbour(f) else {
            store(internal, f, 0.0);
            return Ok(Ok(self.walls[f]));
        };
        let joint = self.coupling.joint_at(f, n);
        let d = self.coupling.distances(f);
        let k = coupling::internal_coefficient(joint.span, d, joint.responses)?;
        store(internal, f, k);
        let (owner, other) = (self.side_at(joint.owner), self.side_at(n));
        Ok(coupling::predicted_flux(joint.span, d, k, owner, other))
    }

    // Writes the fluxes up to the first refusal of a coefficient, and the coefficients of the faces with
    // two cells where there is room for all. The loop is that of a `Boundary`, and stands here once more: it stores a
    // coefficient beside the flux, which a closure would write through what it captures, and of that its caller
    // would learn nothing.
    #[tactic(auto, using(passes::proofs::Stages::stop))]
    fn predict(&self, internal: &mut [f64], out: &mut [f64]) -> Answer
        requires out_len { length out.old ≡ length self.now.walls.now }
        ensures passes { let m = grid_of_lent self.now.coupling.grid in
            let q = flow_of_lent self.now in
            let walls = self.now.walls.now in
            Passes (prediction_answer m q walls) (predicted_fluxes m q walls) result out.new }
        ensures coefficients { let m = grid_of_lent self.now.coupling.grid in
            let w = self.now.coupling.values.now in
            let n = length self.now.walls.now in
            Fills (length internal.old) n (coefficients m w n) result internal.new }
    {
        let mut late = Ok(());
        for f in 0..self.walls.len() {
            match self.stage_at(f, internal) {
                Ok(Ok(v)) => out[f] = v,
                Ok(Err(reason)) => late = late.and(Err(reason.at(f))),
                Err(reason) => return Err(reason.at(f)),
            }
        }
        late
    }

    #[tactic(auto, unfolding(mesh::specs::Pass::handed_out))]
    pub fn predicted_flux(&self, internal: &mut [f64], out: &mut [f64]) -> Answer
        requires out_len { length out.old ≡ length self.now.walls.now }
        ensures answer { let m = grid_of_lent self.now.coupling.grid in
            result ≡ prediction_answer m (flow_of_lent self.now) self.now.walls.now }
        ensures contents { let m = grid_of_lent self.now.coupling.grid in
            let walls = self.now.walls.now in
            out.new ≡ handed_out result (length walls) (predicted_fluxes m (flow_of_lent self.now) walls) }
        ensures coefficients { let m = grid_of_lent self.now.coupling.grid in
            let w = self.now.coupling.values.now in
            let n = length self.now.walls.now in
            Fills (length internal.old) n (coefficients m w n) result internal.new }
    {
        let answer = self.predict(internal, out);
        settle(out, answer)
    }
}

// Its outputs are no part of the struct, as those of a `Flow`.
impl<'s, 'a> Momentum<'s, 'a> {
    ghost use Rattle.predictor.specs.Bundles.{slopes_of, flow_with};

    // The gradient of the pressure from its stencil, and the flux that is predicted with it; a refusal
    // clears both. Of an accepted call the coefficients of the faces with two cells are left in
    // `internal`, where there is room for all.
    pub fn rhie_chow_predicted_flux(
        &self,
        internal: &mut [f64],
        gradient: &mut [f64],
        out: &mut [f64],
    ) -> Answer
        requires gradient_len { length gradient.old ≡ 3 * length self.now.slope.field.now }
        requires out_len { length out.old ≡ length self.now.walls.now }
        ensures answer { let m = grid_of_lent self.now.coupling.grid in
            let q = flow_with self.now (slopes_of self.now.slope) in
            result ≡ prediction_answer m q self.now.walls.now }
        ensures slopes { gradient.new ≡ handed_out result (length gradient.old) (slopes_of self.now.slope) }
        ensures contents { let m = grid_of_lent self.now.coupling.grid in
            let q = flow_with self.now (slopes_of self.now.slope) in
            let walls = self.now.walls.now in
            out.new ≡ handed_out result (length walls) (predicted_fluxes m q walls) }
        ensures coefficients { let m = grid_of_lent self.now.coupling.grid in
            let n = length self.now.walls.now in
            Fills (length internal.old) n (coefficients m self.now.coupling.values.now n) result internal.new }
    {
        self.slope.least_squares_gradient(gradient);
        let flow = Flow {
            coupling: self.coupling,
            velocity: self.velocity,
            pressure: self.slope.field,
            gradient,
            walls: self.walls,
        };
        let answer = flow.predicted_flux(internal, out);
        settle(gradient, answer)
    }
}
