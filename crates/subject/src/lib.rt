// A subject's evaluation at one point: `subject` of population_focei.rs and population_focei_2d.rs after its
// simulator has answered. Here are the types, the individual values that the simulator is run with, and the
// beginning and the end of an evaluation; between the two, `rows` adds one observation, and `runs` goes
// through a run of them, which the crate observations (or program_calls) reads. Each function is defined for
// all values and words.
//
// A reply is whole rows of words: time, side (0 pre, any other post), `width` values, then `width`
// derivatives for each effect.
#![tactic(auto)]

ghost use Rattle.std.specs.Prelude.{◌≡◌};
ghost use Rattle.subject.specs.Reply.{output_values, row_length};
ghost use Rattle.subject.specs.Subject.{additive_sd, answer, individual, is_no_individual, individual_values, begin};
ghost use Rattle.subject.specs.Subject.{has_nonfinite_sum, finish};

pub mod checks;
pub mod rows;
pub mod runs;

use matrix::{Matrix, Pair};

// What a reply is an answer to, and where its rows go: the individual values (with one effect, the
// first), the source's additive_sd (a deviation that overrides each observation's own, where there is one), the
// numbers of outputs and of effects, and the word at which the trial block of the work words begins. Any number
// of effects but 2 counts as 1.
#[derive(Clone, Copy)]
pub struct Trial {
    pub individual: Pair,
    pub additive_sd: Option<f64>,
    pub width: u32,
    pub effects: u32,
    pub block: usize,
}

// The sums over the observations so far: negative log likelihood, score and information. With one effect all
// but nll, score.first and information.m00 stay as they are. None of them includes the prior.
// `observation` is the number of the next observation within its subject.
#[derive(Clone, Copy)]
pub struct Sums {
    pub nll: f64,
    pub score: Pair,
    pub information: Matrix,
    pub observation: usize,
}

// A subject's evaluation under way with its sums, or the first refusal that it met. (The source's Evaluation is
// another thing: the result of a whole objective.)
pub type Evaluation = Result<Sums, EvaluationError>;

// Why an evaluation is refused: document 01's number (8, 9, 12), which is the only name of a refusal there, and
// for an observation (10, 11, 12) its number within the subject too.
#[derive(Clone, Copy)]
pub enum EvaluationError {
    Refused(u32),
    RefusedAt(u32, usize),
}

// The source's PredictionRow, as words: what is kept of a row of a reply. The side is 0 pre, 1 post.
#[derive(Clone, Copy)]
pub struct PredictionRow {
    pub prediction: u64,
    pub time: u64,
    pub side: u64,
}

// A place among the observations: a subject, and the number of an observation within it.
#[derive(Clone, Copy)]
pub struct Position {
    pub subject: usize,
    pub observation: usize,
}

// How far the check of the observations (check 4) has come: all so far are sound, and this is the place of
// the next one; or this is the place of the first that is not.
pub type Check = Result<Position, Position>;

// ---- the additive deviation

// The additive deviation as hosts give it: one that overrides them all where there is one.
pub fn additive_sd(has_additive: bool, additive: f64) -> Option<f64>
    ensures { result ≡ additive_sd has_additive additive }
{
    has_additive.then_some(additive)
}

// ---- individual values

fn individual(theta: f64, eta: f64) -> f64
    ensures { result ≡ individual theta eta }
{
    theta * libm::exp(eta)
}

fn is_no_individual(value: f64) -> bool
    ensures { result ≡ is_no_individual value }
{
    if float64::is_nonfinite(value) {
        return true;
    }
    value <= 0.0
}

// The individual values that the simulator is run with, theta · exp(eta) for each effect (with one effect, the
// first); none where check 7 refuses one of them, since it is not finite or not above 0. Any number of effects
// but 2 counts as 1.
pub fn individual_values(theta: Pair, eta: Pair, effects: u32) -> Option<Pair>
    ensures { answer result ≡ individual_values theta eta effects }
{
    let first = individual(theta.first, eta.first);
    if is_no_individual(first) {
        return None;
    }
    if effects != 2 {
        return Some(Pair { first, second: 0.0 });
    }
    let second = individual(theta.second, eta.second);
    if is_no_individual(second) {
        return None;
    }
    Some(Pair { first, second })
}

// ---- a reply's rows

// The number of a row's values and derivatives.
fn output_values(width: u32, effects: u32) -> usize
    ensures { result ≡ output_values width effects }
{
    width as usize * (1 + effects as usize)
}

// The number of words in a row of a reply.
pub fn row_length(width: u32, effects: u32) -> usize
    ensures { result ≡ row_length width effects }
{
    2 + output_values(width, effects)
}

// ---- the sums

const NO_SUMS: Sums = Sums {
    nll: 0.0,
    score: Pair {
        first: 0.0,
        second: 0.0,
    },
    information: Matrix {
        m00: 0.0,
        m01: 0.0,
        m10: 0.0,
        m11: 0.0,
    },
    observation: 0,
};

// The beginning of an evaluation: 8 where the reply is not whole rows, 9 where their values and derivatives
// are beyond the output budget, else sums of 0. A reply of no words is whole: it has no rows.
pub fn begin(reply: &[u64], width: u32, effects: u32, output_budget: u32) -> Evaluation
    ensures { result ≡ begin reply.now width effects output_budget }
{
    let words = row_length(width, effects);
    if reply.len() % words != 0 {
        return Err(EvaluationError::Refused(8));
    }
    if (output_budget as usize) < reply.len() / words * output_values(width, effects) {
        return Err(EvaluationError::Refused(9));
    }
    Ok(NO_SUMS)
}

fn has_nonfinite_sum(sums: Sums) -> bool
    ensures { result ≡ has_nonfinite_sum sums }
{
    if float64::is_nonfinite(sums.nll) {
        return true;
    }
    if float64::is_nonfinite(sums.score.first) {
        return true;
    }
    if float64::is_nonfinite(sums.score.second) {
        return true;
    }
    matrix::has_nonfinite_entry(matrix::array_of(sums.information))
}

// The end of an evaluation, after its last observation: 12 where a sum is not finite. The sums are tested
// only here, as in the source.
pub fn finish(evaluation: Evaluation) -> Evaluation
    ensures { result ≡ finish evaluation }
{
    let sums = evaluation?;
    if has_nonfinite_sum(sums) {
        return Err(EvaluationError::Refused(12));
    }
    Ok(sums)
}
