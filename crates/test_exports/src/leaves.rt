// Matrices and rows: the leaves of the calculation over numbers and lent arrays.
ghost use Rattle.std.specs.Prelude.{◌≡◌};
ghost use Rattle.float64.specs.Answer.{number_of};
ghost use Rattle.matrix.specs.Matrix.{determinant, inverse_positive, product, dot};
ghost use Rattle.likelihood.specs.RowTerms.{row_terms};
ghost use Rattle.likelihood.specs.Row2.{row_variance};
ghost use Rattle.test_exports.specs.Leaves.{exists, inverse_or, det_or, observation_of, terms_or, sums, add_row};

use likelihood::population_focei::Observation;

// The determinant of a matrix (`matrix::determinant`).
pub fn curlewstand_determinant(matrix: &[[f64; 2]; 2]) -> f64
    ensures { result ≡ determinant matrix.now }
{
    matrix::determinant(*matrix)
}

// Answers whether a matrix has an inverse, and writes it and the determinant where it has; else nothing is
// written (`matrix::inverse_positive`).
pub fn curlewstand_inverse_positive(
    matrix: &[[f64; 2]; 2],
    inverse: &mut [[f64; 2]; 2],
    det: &mut f64,
) -> bool
    ensures value { result ≡ exists (inverse_positive matrix.now) }
    ensures inverse_after { inverse.new ≡ inverse_or inverse.old (inverse_positive matrix.now) }
    ensures det_after { det.new ≡ det_or det.old (inverse_positive matrix.now) }
{
    match matrix::inverse_positive(*matrix) {
        Some(d) => {
            *inverse = matrix::inverse(*matrix, d);
            *det = d;
            true
        }
        None => false,
    }
}

// Writes a matrix times a vector (`matrix::product`).
pub fn curlewstand_product(matrix: &[[f64; 2]; 2], vector: &[f64; 2], res: &mut [f64; 2])
    ensures { res.new ≡ product matrix.now vector.now }
{
    *res = matrix::product(*matrix, *vector);
}

// The sum of the products of two vectors' entries (`matrix::dot`).
pub fn curlewstand_dot(left: &[f64; 2], right: &[f64; 2]) -> f64
    ensures { result ≡ dot left.now right.now }
{
    matrix::dot(*left, *right)
}

// The observation of a row; the leaves look at neither its output nor its place.
#[tactic(auto, unfolding(crate::specs::Leaves::observation_of))]
fn observation_of(value: f64, additive: f64, proportional: f64) -> Observation
    ensures { result ≡ observation_of value additive proportional }
{
    Observation {
        output: 0,
        row: 0,
        value,
        additive,
        proportional,
    }
}

// Writes nll, score and information of a row of a fit with one effect to `terms` and answers 0; or answers
// document 01's number, 11 or 12, and nothing is written (`likelihood::population_focei::row_terms`).
pub fn curlewstand_row_terms(
    value: f64,
    proportional: f64,
    prediction: f64,
    f_eta: f64,
    additive: f64,
    terms: &mut [f64; 3],
) -> u32
    ensures value { result ≡ number_of (row_terms (observation_of value additive proportional) prediction f_eta additive) }
    ensures terms_after { terms.new
        ≡ terms_or terms.old (row_terms (observation_of value additive proportional) prediction f_eta additive) }
{
    let observation = observation_of(value, additive, proportional);
    match likelihood::population_focei::row_terms(observation, prediction, f_eta, additive) {
        Ok(t) => {
            *terms = [t.nll, t.score, t.information];
            0
        }
        Err(error) => error.number(),
    }
}

// Adds a row of a fit with two effects to its subject's sums and answers 0; or answers 11, and the sums stay
// as they were.
pub fn curlewstand_add_row(
    value: f64,
    additive: f64,
    proportional: f64,
    prediction: f64,
    f_eta: &[f64; 2],
    nll: &mut f64,
    score: &mut [f64; 2],
    information: &mut [[f64; 2]; 2],
) -> u32
    ensures value { result ≡ number_of (row_variance (observation_of value additive proportional) prediction f_eta.now) }
    ensures information_after { sums nll.new score.new information.new
        ≡ add_row (observation_of value additive proportional) prediction f_eta.now
        (sums nll.old score.old information.old) }
{
    let observation = observation_of(value, additive, proportional);
    let f = *f_eta;
    match likelihood::population_focei_2d::row_variance(observation, prediction, f) {
        Ok(variance) => {
            let row = likelihood::population_focei_2d::scaled_row(
                observation,
                prediction,
                f,
                variance,
            );
            *nll = likelihood::population_focei_2d::add_nll(*nll, row);
            *score = likelihood::population_focei_2d::add_score(*score, row, f);
            *information = likelihood::population_focei_2d::add_information(*information, row, f);
            0
        }
        Err(error) => error.number(),
    }
}
