// The calls of the list, made again.
use crate::entry::Entry;
use crate::fault::Broken;
use crate::words::Words;
use mesh::{Conditions, Mesh};

mod equations;
mod of_numerics;
mod of_records;
mod of_simple;
mod of_step;

// What a call is made on: the mesh and the conditions that stand last above it.
#[derive(Clone, Copy)]
pub struct Setting<'a> {
    pub mesh: Mesh<'a>,
    pub conditions: Conditions<'a>,
}

impl<'a> Setting<'a> {
    // Whether the call of an entry agrees with the list. The words of a call start with the number of
    // equation records.
    pub fn agrees(&self, entry: Entry, mut words: Words<'a>) -> Result<bool, Broken> {
        let records = words.number()?;
        match entry {
            Entry::MomentumInverseDiagonal => self.diagonal(words),
            Entry::LeastSquaresStencil => self.stencil(records, words),
            Entry::LeastSquaresGradient => self.gradient(records, words),
            Entry::PressureFaceCoefficients => self.coefficients(words),
            Entry::PressureFaceCoefficientsWithBoundary => self.coefficients_with_boundary(words),
            Entry::RhieChowPredictedFlux => self.prediction(records, words),
            Entry::CorrectFaceFluxWithBoundary => self.flux(words),
            Entry::CorrectCellVelocityFromGradient => self.velocity(words),
            Entry::IntegratedDivergence => self.outflow(words),
            Entry::ContinuityMetrics => self.metrics(words),
            Entry::Step => self.step(records, words),
        }
    }
}
