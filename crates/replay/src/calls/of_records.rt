// The calls of a gradient through `records`, which hands out a record a cell.
ghost use Rattle.std.specs.Prelude.{◌*◌, ◌≤◌};

use crate::calls::Setting;
use crate::fault::Broken;
use crate::outputs::LONGEST;
use crate::words::Words;
use mesh::Field;
use numerics::Stencil;
use pattern::fill;
use vector::Vec3;

// As many records as the longest output has numbers for.
const RECORDS: usize = LONGEST / 3;

// How many records are lent where the list has an output of n numbers: a third as many, and none
// where that is not whole, since no mesh has that length.
fn records_of(n: usize) -> usize
    ensures { 3 * result ≤ n }
{
    if n % 3 == 0 { n / 3 } else { 0 }
}

impl<'a> Setting<'a> {
    pub(crate) fn gradient_of_records(
        &self,
        stencil: &Stencil<'_>,
        pressure: &Field<'_>,
        words: Words<'a>,
    ) -> Result<bool, Broken> {
        let mut outputs = words.outputs(1)?;
        let mut room = [fill(); LONGEST];
        let out = outputs.output(&mut room)?;
        let filled = Vec3 {
            x: fill(),
            y: fill(),
            z: fill(),
        };
        let mut gradients = [filled; RECORDS];
        let gradients = &mut gradients[..records_of(out.values.len())];
        let answer = records::least_squares_gradient(
            self.mesh.counts,
            stencil,
            pressure,
            gradients,
        );
        let (numbers, _) = out.values.as_chunks_mut::<3>();
        for (components, gradient) in numbers.iter_mut().zip(&*gradients) {
            *components = [gradient.x, gradient.y, gradient.z];
        }
        // the last of the longest output stands in no record, and is handed out as 0
        if let Some(last) = out.values.get_mut(LONGEST - 1) {
            *last = 0.0;
        }
        Ok(outputs.is_right(answer)? && out.is_right())
    }
}
