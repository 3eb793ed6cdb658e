// The calls of `numerics`.
use crate::calls::Setting;
use crate::fault::Broken;
use crate::words::Words;

impl<'a> Setting<'a> {
    // The gradient, as numbers and as records.
    pub(crate) fn gradient(&self, records: usize, mut words: Words<'a>) -> Result<bool, Broken> {
        let stencil = words.stencil(records)?;
        let pressure = words.field()?;
        let is_right = words.one(|out| {
            numerics::least_squares_gradient(self.mesh.counts, &stencil, &pressure, out)
        })?;
        Ok(is_right && self.gradient_of_records(&stencil, &pressure, words)?)
    }

    pub(crate) fn outflow(&self, mut words: Words<'a>) -> Result<bool, Broken> {
        let flux = words.field()?;
        words.one(|out| { numerics::integrated_divergence(&self.mesh.grid().faces(), &flux, out) })
    }
}
