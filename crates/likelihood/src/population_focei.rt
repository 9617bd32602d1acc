// A row of a fit with one random effect: `row_terms` of population_focei.rs. Each function is defined for all
// floats.
ghost use Rattle.std.specs.Prelude.{◌≡◌, true};
ghost use Rattle.std.specs.Float.Ieee.{le};
ghost use Rattle.float64.specs.Arithmetic.{word};
ghost use Rattle.float64.specs.Float64.{nonfinite};
ghost use Rattle.float64.specs.Pick.{pick};
ghost use Rattle.likelihood.specs.RowTerms.{number, answer, row_terms};

use float64::LARGEST;

// log 2π, which each observation adds to twice its negative log likelihood.
pub const LOG_2PI: f64 = 1.8378770664093453;

// A measured value, the output and the row of the simulator's reply that predict it, and the additive and the
// proportional deviation of its error.
#[repr(C)]
#[derive(Clone, Copy)]
pub struct Observation {
    pub output: usize,
    pub row: usize,
    pub value: f64,
    pub additive: f64,
    pub proportional: f64,
}

// What a row adds to the negative log likelihood, to its derivative by eta, and to the expected information.
#[derive(Clone, Copy)]
pub struct RowTerms {
    pub nll: f64,
    pub score: f64,
    pub information: f64,
}

// Why a row is refused: the source's two errors.
#[derive(Clone, Copy)]
pub enum RowError {
    InvalidVariance,
    Overflow,
}

impl RowError {
    // Document 01's number of the refusal.
    pub fn number(self) -> u32
        ensures { result ≡ number self }
    {
        match self {
            RowError::InvalidVariance => 11,
            RowError::Overflow => 12,
        }
    }
}

// Whether a variance is refused. A variance is above 0 and at most the largest finite float; that is the
// source's two tests, `!variance.is_finite()` and `variance <= 0.`, in one. A NaN is refused.
pub fn is_no_variance(variance: f64) -> bool
    ensures { result ≡ pick (nonfinite variance) true (le variance (word 0)) }
{
    if 0.0 < variance {
        LARGEST < variance
    } else {
        true
    }
}

// The terms of a row, the source's `row_terms`. `f_eta` is the derivative of the prediction by eta;
// `additive` is the observation's own additive deviation, or the one that overrides it.
pub fn row_terms(
    observation: Observation,
    prediction: f64,
    f_eta: f64,
    additive: f64,
) -> Result<RowTerms, RowError>
    ensures { answer result ≡ row_terms observation prediction f_eta additive }
{
    let proportional = observation.proportional;
    let prop = proportional * prediction;
    let variance = additive * additive + prop * prop;
    if is_no_variance(variance) || float64::is_nonfinite(f_eta) {
        return Err(RowError::InvalidVariance);
    }
    let residual = observation.value - prediction;
    let r_eta = 2.0 * (proportional * proportional) * prediction * f_eta;
    let scaled_r_eta = r_eta / variance;
    let z2 = residual * residual / variance;
    let nll = 0.5 * (z2 + libm::log(variance) + LOG_2PI);
    let score = -residual * f_eta / variance + 0.5 * (1.0 - z2) * scaled_r_eta;
    let information = f_eta * f_eta / variance + 0.5 * scaled_r_eta * scaled_r_eta;
    if float64::is_nonfinite(nll)
        || float64::is_nonfinite(score)
        || float64::is_nonfinite(information)
    {
        return Err(RowError::Overflow);
    }
    Ok(RowTerms {
        nll,
        score,
        information,
    })
}
