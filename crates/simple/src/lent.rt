// The fields that travel together.
ghost use Rattle.std.specs.Prelude.{◌≡◌};
ghost use Rattle.mesh.specs.Bundles.{conditions_of, bounds_in};
ghost use Rattle.corrector.specs.Correction.{CorrectableFaces};
ghost use Rattle.coupling.specs.Grid.{field_of};
ghost use Rattle.predictor.specs.Prediction.{sizes_of, flow_sized};
ghost use Rattle.simple.specs.Bundles.{flow_fields_of};

use corrector::inner::correction::Correction;
use mesh::{Conditions, Counts, Faces, Field};

// What a flux is predicted from: of the cells the velocity, the pressure and the response, and of the
// faces the wall fluxes.
#[derive(Clone, Copy)]
pub struct FlowFields<'a> {
    pub velocity: Field<'a>,
    pub pressure: Field<'a>,
    pub responses: Field<'a>,
    pub walls: Field<'a>,
}

// What a flux is corrected by: the coefficients of the faces, and the pressure corrections of the cells.
#[derive(Clone, Copy)]
pub struct Corrections<'a> {
    pub coefficients: Field<'a>,
    pub correction: Field<'a>,
}

impl<'a> Corrections<'a> {
    // On faces and conditions, which passed the checks with them.
    pub(crate) fn correction_on(
        &self,
        faces: &Faces<'a>,
        conditions: &Conditions<'a>,
    ) -> Correction<'a>
        requires { let m = faces.now in
            let k = conditions_of conditions.now in
            let x = self.now.correction.values.now in
            CorrectableFaces m.counts.faces m.adjacency.now k.codes k.values self.now.coefficients.values.now x }
        ensures faces { result.faces ≡ faces.now }
        ensures bounds { result.bounds ≡ bounds_in conditions.now }
        ensures coefficients { result.coefficients.now ≡ self.now.coefficients.values.now }
        ensures values { result.values.now ≡ self.now.correction.values.now }
    {
        Correction {
            faces: *faces,
            bounds: conditions.bounds(),
            coefficients: self.coefficients.values,
            values: self.correction.values,
        }
    }
}

impl<'a> FlowFields<'a> {
    // Check 2, of the fields and of two outputs, which have so many numbers.
    pub(crate) fn are_sized(&self, counts: Counts, slopes: usize, outs: usize) -> bool
        ensures { result ≡ flow_sized counts (sizes_of (flow_fields_of self.now)) slopes outs }
    {
        mesh::is_sized(self.velocity.values.len(), 3, counts.cells)
            & (self.pressure.values.len() == counts.cells)
            & (self.responses.values.len() == counts.cells)
            & (self.walls.values.len() == counts.faces)
            & mesh::is_sized(slopes, 3, counts.cells)
            & (outs == counts.faces)
    }
}
