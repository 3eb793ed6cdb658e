// The calls of `step`.
use crate::calls::Setting;
use crate::fault::Broken;
use crate::outputs::LONGEST;
use crate::words::Words;
use pattern::{FILL, fill};
use step::Fields;

// Room for the outputs of a step. Each is a field of its own: outputs that come as an array of a const parameter's
// length were tried, and the borrow checker does not cover such arrays of structs that name a lifetime.
#[derive(Clone, Copy)]
struct Rooms {
    starts: [usize; LONGEST],
    equations: [usize; LONGEST],
    weights: [f64; LONGEST],
    inverses: [f64; LONGEST],
    gradient: [f64; LONGEST],
    predicted: [f64; LONGEST],
    coefficients: [f64; LONGEST],
    flux: [f64; LONGEST],
    outflow: [f64; LONGEST],
    metrics: [f64; LONGEST],
}

impl Rooms {
    fn new() -> Rooms {
        let numbers = [FILL; LONGEST];
        let reals = [fill(); LONGEST];
        Rooms {
            starts: numbers,
            equations: numbers,
            weights: reals,
            inverses: reals,
            gradient: reals,
            predicted: reals,
            coefficients: reals,
            flux: reals,
            outflow: reals,
            metrics: reals,
        }
    }
}

impl<'a> Setting<'a> {
    pub(crate) fn step(&self, records: usize, mut words: Words<'a>) -> Result<bool, Broken> {
        let fields = Fields {
            velocity: words.field()?,
            pressure: words.field()?,
            responses: words.field()?,
            walls: words.field()?,
            correction: words.field()?,
        };
        let mut rooms = Rooms::new();
        let mut outputs = words.outputs(10)?;
        let starts = outputs.output(&mut rooms.starts)?;
        let equations = outputs.output(&mut rooms.equations)?;
        let weights = outputs.output(&mut rooms.weights)?;
        let inverses = outputs.output(&mut rooms.inverses)?;
        let gradient = outputs.output(&mut rooms.gradient)?;
        let predicted = outputs.output(&mut rooms.predicted)?;
        let coefficients = outputs.output(&mut rooms.coefficients)?;
        let flux = outputs.output(&mut rooms.flux)?;
        let outflow = outputs.output(&mut rooms.outflow)?;
        let metrics = outputs.output(&mut rooms.metrics)?;
        let mut out = step::Outputs {
            records,
            starts: &mut *starts.values,
            equations: &mut *equations.values,
            weights: &mut *weights.values,
            inverses: &mut *inverses.values,
            gradient: &mut *gradient.values,
            predicted: &mut *predicted.values,
            coefficients: &mut *coefficients.values,
            flux: &mut *flux.values,
            outflow: &mut *outflow.values,
            metrics: &mut *metrics.values,
        };
        let answer = step::step(&self.mesh, &self.conditions, &fields, &mut out);
        Ok(
            outputs.is_right(answer)?
                && starts.is_right()
                && equations.is_right()
                && weights.is_right()
                && inverses.is_right()
                && gradient.is_right()
                && predicted.is_right()
                && coefficients.is_right()
                && flux.is_right()
                && outflow.is_right()
                && metrics.is_right(),
        )
    }
}
