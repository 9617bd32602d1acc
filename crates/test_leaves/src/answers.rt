// The answer of each operation, over words. Words that an answer does not use are zero.
use likelihood::population_focei::Observation;

fn of_word(word: u64) -> [u64; 8] {
    [word, 0, 0, 0, 0, 0, 0, 0]
}

fn of_float(x: f64) -> [u64; 8] {
    of_word(float64::to_word(x))
}

fn of_bool(b: bool) -> [u64; 8] {
    of_word(b as u64)
}

// The floats of the first words.
fn floats_of(words: [u64; 8]) -> [f64; 6] {
    [
        float64::from_word(words[0]),
        float64::from_word(words[1]),
        float64::from_word(words[2]),
        float64::from_word(words[3]),
        float64::from_word(words[4]),
        float64::from_word(words[5]),
    ]
}

// 1, the determinant and the inverse by rows; or 0.
fn of_inverse(m: [[f64; 2]; 2]) -> [u64; 8] {
    match matrix::inverse_positive(m) {
        Some(det) => {
            let i = matrix::inverse(m, det);
            [
                1,
                float64::to_word(det),
                float64::to_word(i[0][0]),
                float64::to_word(i[0][1]),
                float64::to_word(i[1][0]),
                float64::to_word(i[1][1]),
                0,
                0,
            ]
        }
        None => of_word(0),
    }
}

fn of_product(m: [[f64; 2]; 2], v: [f64; 2]) -> [u64; 8] {
    let p = matrix::product(m, v);
    [
        float64::to_word(p[0]),
        float64::to_word(p[1]),
        0,
        0,
        0,
        0,
        0,
        0,
    ]
}

// 0 and the terms; or the number of the refusal.
fn of_row_terms(observation: Observation, prediction: f64, f_eta: f64, additive: f64) -> [u64; 8] {
    match likelihood::population_focei::row_terms(observation, prediction, f_eta, additive) {
        Ok(t) => [
            0,
            float64::to_word(t.nll),
            float64::to_word(t.score),
            float64::to_word(t.information),
            0,
            0,
            0,
            0,
        ],
        Err(error) => of_word(error.number() as u64),
    }
}

// 0 and the sums of a row alone: nll, score, information by rows; or the number of the refusal.
fn of_add_row(observation: Observation, prediction: f64, f_eta: [f64; 2]) -> [u64; 8] {
    match likelihood::population_focei_2d::row_variance(observation, prediction, f_eta) {
        Ok(variance) => {
            let row = likelihood::population_focei_2d::scaled_row(
                observation,
                prediction,
                f_eta,
                variance,
            );
            let nll = likelihood::population_focei_2d::add_nll(0.0, row);
            let s = likelihood::population_focei_2d::add_score([0.0, 0.0], row, f_eta);
            let zeros = [[0.0, 0.0], [0.0, 0.0]];
            let i = likelihood::population_focei_2d::add_information(zeros, row, f_eta);
            [
                0,
                float64::to_word(nll),
                float64::to_word(s[0]),
                float64::to_word(s[1]),
                float64::to_word(i[0][0]),
                float64::to_word(i[0][1]),
                float64::to_word(i[1][0]),
                float64::to_word(i[1][1]),
            ]
        }
        Err(error) => of_word(error.number() as u64),
    }
}

fn observation_of(value: f64, additive: f64, proportional: f64) -> Observation {
    Observation {
        output: 0,
        row: 0,
        value,
        additive,
        proportional,
    }
}

// The operations on a matrix and on a row.
fn answer_of_several(operation: u64, x: [f64; 6]) -> [u64; 8] {
    let m = [[x[0], x[1]], [x[2], x[3]]];
    match operation {
        7 => of_float(matrix::determinant(m)),
        8 => of_inverse(m),
        9 => of_product(m, [x[4], x[5]]),
        10 => of_float(matrix::dot([x[0], x[1]], [x[2], x[3]])),
        11 => of_row_terms(observation_of(x[0], x[4], x[1]), x[2], x[3], x[4]),
        12 => of_add_row(observation_of(x[0], x[1], x[2]), x[3], [x[4], x[5]]),
        _ => of_word(u64::MAX),
    }
}

// The answer of an operation by its number: 0 to 4 are of floats, 5 log, 6 exp, 7 to 10 of matrices, 11 and
// 12 of a row with one effect and with two. Any other number is answered with the largest word.
pub fn answer(operation: u64, words: [u64; 8]) -> [u64; 8] {
    let x = floats_of(words);
    match operation {
        0 => of_float(x[0]),
        1 => of_bool(float64::is_finite(x[0])),
        2 => of_float(float64::abs(x[0])),
        3 => of_float(float64::max(x[0], x[1])),
        4 => of_float(float64::clamp(x[0], x[1], x[2])),
        5 => of_float(libm::log(x[0])),
        6 => of_float(libm::exp(x[0])),
        _ => answer_of_several(operation, x),
    }
}
