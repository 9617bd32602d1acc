// A row of a fit with two random effects: the body of the loop over the rows in `subject` of
// population_focei_2d.rs. Everywhere `f_eta` holds the derivative of the prediction by each effect. Each
// function is defined for all floats.
ghost use Rattle.std.specs.Prelude.{◌≡◌};
ghost use Rattle.likelihood.specs.Row2.{answer, row_variance, scaled_row, add_nll, add_score, add_information};

use super::population_focei::{LOG_2PI, Observation, RowError, is_no_variance};

// What the terms of a row have in common: the residual, its variance, the square of the residual over the
// variance (z2), and the derivative of the variance by each effect, over the variance (r_eta).
#[derive(Clone, Copy)]
pub struct Row2 {
    pub residual: f64,
    pub variance: f64,
    pub z2: f64,
    pub r_eta: [f64; 2],
}

// The variance of a row's residual, if it, the prediction and both derivatives pass check 11.
#[tactic(auto, using(crate::proofs::Variance::refuses), unfolding(crate::specs::Row2::row_variance, crate::specs::Row2::answer))]
pub fn row_variance(
    observation: Observation,
    prediction: f64,
    f_eta: [f64; 2],
) -> Result<f64, RowError>
    ensures { answer result ≡ row_variance observation prediction f_eta }
{
    let prop = observation.proportional * prediction;
    let variance = observation.additive * observation.additive + prop * prop;
    if is_no_variance(variance)
        || float64::is_nonfinite(prediction)
        || float64::is_nonfinite(f_eta[0])
        || float64::is_nonfinite(f_eta[1])
    {
        return Err(RowError::InvalidVariance);
    }
    Ok(variance)
}

// What the terms of a row have in common, where `variance` is the one that row_variance gave.
#[tactic(auto, unfolding(crate::specs::Row2::scaled_row))]
pub fn scaled_row(observation: Observation, prediction: f64, f_eta: [f64; 2], variance: f64) -> Row2
    ensures { result ≡ scaled_row observation prediction f_eta variance }
{
    let prop = observation.proportional;
    let residual = observation.value - prediction;
    let z2 = residual * residual / variance;
    let scaled = |f: f64| 2.0 * prop * prop * prediction * f / variance;
    Row2 {
        residual,
        variance,
        z2,
        r_eta: [scaled(f_eta[0]), scaled(f_eta[1])],
    }
}

// The sum `nll` with a row's term of the negative log likelihood added. The term is rounded whole before it
// is added, as by the source's `+=`.
#[tactic(auto, unfolding(crate::specs::Row2::add_nll))]
pub fn add_nll(nll: f64, row: Row2) -> f64
    ensures { result ≡ add_nll nll row }
{
    nll + 0.5 * (row.z2 + libm::log(row.variance) + LOG_2PI)
}

// The sum `score` with a row's term of the score added for each effect. Each term is rounded whole before it
// is added, as by the source's `+=`.
#[tactic(auto, unfolding(crate::specs::Row2::add_score))]
pub fn add_score(score: [f64; 2], row: Row2, f_eta: [f64; 2]) -> [f64; 2]
    ensures { result ≡ add_score score row f_eta }
{
    let Row2 {
        residual,
        variance,
        z2,
        r_eta,
    } = row;
    let weight = 0.5 * (1.0 - z2);
    let term = |f: f64, r: f64| -residual * f / variance + weight * r;
    [
        score[0] + term(f_eta[0], r_eta[0]),
        score[1] + term(f_eta[1], r_eta[1]),
    ]
}

// The sum `information` with a row's term of the expected information added for each pair of effects. Each
// term is rounded whole before it is added, as by the source's `+=`.
#[tactic(auto, unfolding(crate::specs::Row2::add_information))]
pub fn add_information(information: [[f64; 2]; 2], row: Row2, f_eta: [f64; 2]) -> [[f64; 2]; 2]
    ensures { result ≡ add_information information row f_eta }
{
    let variance = row.variance;
    let [f_0, f_1] = f_eta;
    let [r_0, r_1] = row.r_eta;
    let term = |f: f64, g: f64, r: f64, q: f64| f * g / variance + 0.5 * r * q;
    [
        [
            information[0][0] + term(f_0, f_0, r_0, r_0),
            information[0][1] + term(f_0, f_1, r_0, r_1),
        ],
        [
            information[1][0] + term(f_1, f_0, r_1, r_0),
            information[1][1] + term(f_1, f_1, r_1, r_1),
        ],
    ]
}
