// The entries that a list has calls of: a kind of its blocks each.
use std::fmt;

// An entry's number is the kind of the blocks that have its calls.
#[derive(Clone, Copy, Debug, PartialEq, Eq, PartialOrd, Ord)]
pub enum Entry {
    MomentumInverseDiagonal = 16,
    LeastSquaresStencil,
    LeastSquaresGradient,
    PressureFaceCoefficients,
    PressureFaceCoefficientsWithBoundary,
    RhieChowPredictedFlux,
    CorrectFaceFluxWithBoundary,
    CorrectCellVelocityFromGradient,
    IntegratedDivergence,
    ContinuityMetrics,
    Step,
}

// The kind of no call.
#[derive(Clone, Copy, Debug)]
pub struct UnknownKind;

impl Entry {
    pub const ALL: [Entry; 11] = [
        Entry::MomentumInverseDiagonal,
        Entry::LeastSquaresStencil,
        Entry::LeastSquaresGradient,
        Entry::PressureFaceCoefficients,
        Entry::PressureFaceCoefficientsWithBoundary,
        Entry::RhieChowPredictedFlux,
        Entry::CorrectFaceFluxWithBoundary,
        Entry::CorrectCellVelocityFromGradient,
        Entry::IntegratedDivergence,
        Entry::ContinuityMetrics,
        Entry::Step,
    ];
}

impl TryFrom<usize> for Entry {
    type Error = UnknownKind;

    fn try_from(kind: usize) -> Result<Entry, UnknownKind> {
        Entry::ALL
            .into_iter()
            .find(|entry| *entry as usize == kind)
            .ok_or(UnknownKind)
    }
}

impl fmt::Display for Entry {
    fn fmt<W: fmt::Write>(&self, f: &mut fmt::Formatter<W>) -> fmt::Result {
        f.write_str(match self {
            Entry::MomentumInverseDiagonal => "momentum_inverse_diagonal",
            Entry::LeastSquaresStencil => "least_squares_stencil",
            Entry::LeastSquaresGradient => "least_squares_gradient",
            Entry::PressureFaceCoefficients => "pressure_face_coefficients",
            Entry::PressureFaceCoefficientsWithBoundary => {
                "pressure_face_coefficients_with_boundary"
            }
            Entry::RhieChowPredictedFlux => "rhie_chow_predicted_flux",
            Entry::CorrectFaceFluxWithBoundary => "correct_face_flux_with_boundary",
            Entry::CorrectCellVelocityFromGradient => "correct_cell_velocity_from_gradient",
            Entry::IntegratedDivergence => "integrated_divergence",
            Entry::ContinuityMetrics => "continuity_metrics",
            Entry::Step => "step",
        })
    }
}
