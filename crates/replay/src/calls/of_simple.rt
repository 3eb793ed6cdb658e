// The calls of `simple`.
use crate::calls::Setting;
use crate::fault::Broken;
use crate::words::Words;
use simple::{Corrections, FlowFields};

impl<'a> Setting<'a> {
    pub(crate) fn diagonal(&self, mut words: Words<'a>) -> Result<bool, Broken> {
        let diagonal = words.slice()?.reals;
        words.one(|out| { simple::momentum_inverse_diagonal(self.mesh.counts, diagonal, out) })
    }

    pub(crate) fn coefficients(&self, mut words: Words<'a>) -> Result<bool, Broken> {
        let responses = words.field()?;
        words.one(|out| { simple::pressure_face_coefficients(&self.mesh.grid(), &responses, out) })
    }

    pub(crate) fn coefficients_with_boundary(&self, mut words: Words<'a>) -> Result<bool, Broken> {
        let responses = words.field()?;
        words.one(|out| {
            simple::pressure_face_coefficients_with_boundary(
                &self.mesh.grid(),
                &self.conditions,
                &responses,
                out,
            )
        })
    }

    pub(crate) fn prediction(&self, records: usize, mut words: Words<'a>) -> Result<bool, Broken> {
        let stencil = words.stencil(records)?;
        let fields = FlowFields {
            velocity: words.field()?,
            pressure: words.field()?,
            responses: words.field()?,
            walls: words.field()?,
        };
        words.two(|gradient, predicted| {
            simple::rhie_chow_predicted_flux(
                &self.mesh.grid(),
                &stencil,
                &fields,
                gradient,
                predicted,
            )
        })
    }

    pub(crate) fn flux(&self, mut words: Words<'a>) -> Result<bool, Broken> {
        let predicted = words.field()?;
        let fields = Corrections {
            coefficients: words.field()?,
            correction: words.field()?,
        };
        words.one(|out| {
            simple::correct_face_flux_with_boundary(
                &self.mesh.grid().faces(),
                &self.conditions,
                &predicted,
                &fields,
                out,
            )
        })
    }

    pub(crate) fn velocity(&self, mut words: Words<'a>) -> Result<bool, Broken> {
        let velocity = words.field()?;
        let responses = words.field()?;
        let gradient = words.field()?;
        words.one(|out| {
            simple::correct_cell_velocity_from_gradient(
                self.mesh.counts,
                &velocity,
                &responses,
                &gradient,
                out,
            )
        })
    }

    pub(crate) fn metrics(&self, mut words: Words<'a>) -> Result<bool, Broken> {
        let flux = words.field()?;
        words.two(|outflow, metrics| {
            simple::continuity_metrics(
                &self.mesh.grid().faces(),
                self.mesh.places,
                &flux,
                outflow,
                metrics,
            )
        })
    }
}
