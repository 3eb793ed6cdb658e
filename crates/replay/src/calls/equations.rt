// The calls of `stencil`. Outputs as an array of a const parameter's length were tried here: the borrow checker
// does not cover such arrays of structs that name a lifetime.
use crate::calls::Setting;
use crate::fault::Broken;
use crate::outputs::LONGEST;
use crate::words::Words;
use pattern::{FILL, fill};
use stencil::StencilMut;

impl<'a> Setting<'a> {
    pub(crate) fn stencil(&self, records: usize, words: Words<'a>) -> Result<bool, Broken> {
        let mut outputs = words.outputs(4)?;
        let mut numbers = ([FILL; LONGEST], [FILL; LONGEST]);
        let mut reals = ([fill(); LONGEST], [fill(); LONGEST]);
        let starts = outputs.output(&mut numbers.0)?;
        let equations = outputs.output(&mut numbers.1)?;
        let weights = outputs.output(&mut reals.0)?;
        let inverses = outputs.output(&mut reals.1)?;
        let mut out = StencilMut {
            records,
            starts: &mut *starts.values,
            equations: &mut *equations.values,
            weights: &mut *weights.values,
            inverses: &mut *inverses.values,
        };
        let answer = stencil::least_squares_stencil(&self.mesh, &self.conditions, &mut out);
        Ok(
            outputs.is_right(answer)?
                && starts.is_right()
                && equations.is_right()
                && weights.is_right()
                && inverses.is_right(),
        )
    }
}
