// What a step is lent beside a mesh and conditions: fields, and slices for its outputs.
ghost use Rattle.std.specs.Prelude.{◌≡◌, [], ◌∷◌, eqb, length};
ghost use Rattle.chain.specs.Search.{every_of};
ghost use Rattle.step.specs.Bundles.{outputs_of, Same};
ghost use Rattle.step.specs.Call.{cleared, fields_sized, outputs_sized};

use mesh::{Counts, Field};
use numerics::Lengths;

#[derive(Clone, Copy)]
pub struct Fields<'a> {
    pub velocity: Field<'a>,
    pub pressure: Field<'a>,
    pub responses: Field<'a>,
    pub walls: Field<'a>,
    pub correction: Field<'a>,
}

// The stencil with room for so many records, the gradient of the pressure, the predicted flux, the coefficients,
// the corrected flux, the outflow of each cell, and in `metrics` their root mean square and the largest divergence.
// The stencil's slices stand beside the others: a struct that holds another loses what its slices hold where C lends them.
#[derive(Drop)]
pub struct Outputs<'a> {
    pub records: usize,
    pub starts: &'a mut [usize],
    pub equations: &'a mut [usize],
    pub weights: &'a mut [f64],
    pub inverses: &'a mut [f64],
    pub gradient: &'a mut [f64],
    pub predicted: &'a mut [f64],
    pub coefficients: &'a mut [f64],
    pub flux: &'a mut [f64],
    pub outflow: &'a mut [f64],
    pub metrics: &'a mut [f64],
}

impl<'a> Fields<'a> {
    // Check 2.
    pub(crate) fn are_sized(&self, counts: Counts) -> bool
        ensures sized { let x = self.now in
            result ≡ fields_sized counts (length x.velocity.values.now) (length x.pressure.values.now) (length x.responses.values.now) (length x.walls.values.now) (length x.correction.values.now) }
    {
        mesh::is_sized(self.velocity.values.len(), 3, counts.cells)
            & (self.pressure.values.len() == counts.cells)
            & (self.responses.values.len() == counts.cells)
            & (self.walls.values.len() == counts.faces)
            & (self.correction.values.len() == counts.cells)
    }

    // Check 3.
    pub(crate) fn are_of(&self, mesh: u64) -> bool
        ensures same { let x = self.now in
            result ≡ every_of (eqb x.velocity.number mesh ∷ eqb x.pressure.number mesh ∷ eqb x.responses.number mesh ∷ eqb x.walls.number mesh ∷ eqb x.correction.number mesh ∷ []) }
    {
        (self.velocity.number == mesh)
            & (self.pressure.number == mesh)
            & (self.responses.number == mesh)
            & (self.walls.number == mesh)
            & (self.correction.number == mesh)
    }
}

impl<'a> Outputs<'a> {
    // Check 2.
    pub(crate) fn are_sized(&self, counts: Counts) -> bool
        ensures sized { result ≡ outputs_sized counts self.now.records (outputs_of self.now) }
    {
        let lengths = Lengths {
            starts: self.starts.len(),
            equations: self.equations.len(),
            weights: self.weights.len(),
            inverses: self.inverses.len(),
        };
        lengths.are_of(counts.cells, self.records)
            & mesh::is_sized(self.gradient.len(), 3, counts.cells)
            & (self.predicted.len() == counts.faces)
            & (self.coefficients.len() == counts.faces)
            & (self.flux.len() == counts.faces)
            & (self.outflow.len() == counts.cells)
            & (self.metrics.len() == 2)
    }

    // 0 and +0.0 throughout.
    pub(crate) fn clear(&mut self)
        ensures contents { outputs_of self.new ≡ cleared (outputs_of self.old) }
        ensures same { Same self.old self.new }
    {
        self.starts.fill(0);
        self.equations.fill(0);
        mesh::clear(self.weights);
        mesh::clear(self.inverses);
        mesh::clear(self.gradient);
        mesh::clear(self.predicted);
        mesh::clear(self.coefficients);
        mesh::clear(self.flux);
        mesh::clear(self.outflow);
        mesh::clear(self.metrics);
    }
}
