// What one observation adds to a subject's sums: its row in the reply's words is found (10), what is kept of
// it is written, and its terms are added (11, 12). No other module reads the simulator's words.
ghost use Rattle.std.specs.Prelude.{◌≡◌, ◌<◌, ◌≤◌, length};
ghost use Rattle.subject.specs.Reply.{row_at, column, prediction_row, written};
ghost use Rattle.subject.specs.Subject.{with_terms, add_row, with_row, add_row2, f_eta, add_row_at, evaluating, add_to};
ghost use Rattle.subject.specs.Subject.{add_observation};

use super::{Evaluation, EvaluationError, PredictionRow, Sums, Trial};
use cache::ROW_WORDS;
use likelihood::population_focei::{Observation, RowTerms};
use likelihood::population_focei_2d::Row2;
use matrix::{Matrix, Pair};

// ---- a reply's rows

// The word at which the row of an observation begins. A row is missing too where no row has the observation's
// output.
fn row_at(reply: &[u64], width: u32, effects: u32, output: usize, row: usize) -> Option<usize>
    ensures { result ≡ row_at reply.now width effects output row }
{
    let words = super::row_length(width, effects);
    if width as usize <= output {
        return None;
    }
    if reply.len() / words <= row {
        return None;
    }
    Some(row * words)
}

// The row of a reply that answers an observation, from the word `at`.
#[derive(Clone, Copy)]
struct ReplyRow<'a> {
    observation: Observation,
    trial: Trial,
    reply: &'a [u64],
    at: usize,
    ghost begins: { at ≤ length reply.now },
    ghost has_output: { observation.output < trial.width },
}

impl ReplyRow<'_> {
    // A word of the observation's output: its value (block 0), or its derivative by an effect (block 1 or 2).
    fn column(&self, block: u32) -> u64
        requires { block < 3 }
        ensures { result ≡ column self.now.reply.now self.now.at self.now.trial.width block self.now.observation.output }
    {
        let before = self.trial.width as usize * block as usize;
        words::read(self.reply, self.at + 2 + before + self.observation.output)
    }

    // What is kept of the row. A side of any word but 0 is post.
    fn prediction_row(&self) -> PredictionRow
        ensures { result ≡ prediction_row self.now.reply.now self.now.at self.now.trial.width self.now.observation.output }
    {
        let prediction = self.column(0);
        let time = words::read(self.reply, self.at);
        let side = if words::read(self.reply, self.at + 1) == 0 {
            0
        } else {
            1
        };
        PredictionRow {
            prediction,
            time,
            side,
        }
    }

    // The derivative of the prediction by an effect's eta: the simulator's, by the individual value, times
    // that value, since the value is theta times exp of eta.
    fn f_eta(&self, block: u32, individual: f64) -> f64
        requires { block < 3 }
        ensures { result ≡ f_eta self.now.reply.now self.now.at self.now.trial.width block self.now.observation.output individual }
    {
        float64::from_word(self.column(block)) * individual
    }

    // The sums with the row's terms.
    fn added_to(&self, sums: Sums) -> Evaluation
        ensures { result ≡ add_row_at sums self.now.observation self.now.trial self.now.reply.now self.now.at }
    {
        let prediction = float64::from_word(self.column(0));
        let first = self.f_eta(1, self.trial.individual.first);
        if self.trial.effects != 2 {
            let additive = self.trial.additive_sd.unwrap_or(self.observation.additive);
            return add_row(sums, self.observation, prediction, first, additive);
        }
        let second = self.f_eta(2, self.trial.individual.second);
        add_row_2d(sums, self.observation, prediction, [first, second])
    }
}

// Writes the row of an observation in the block of rows that begins at word `block`; nothing beyond the
// end.
fn write_row(work: &mut [u64], block: usize, observation: usize, row: PredictionRow)
    ensures { work.new ≡ written block observation row work.old }
{
    if work.len() <= block {
        return;
    }
    if work.len() <= observation {
        return;
    }
    let at = block + ROW_WORDS * observation;
    words::put(work, at, row.prediction);
    words::put(work, at + 1, row.time);
    words::put(work, at + 2, row.side);
}

// ---- the sums

// One effect: the row's terms are added.
fn add_row(
    sums: Sums,
    observation: Observation,
    prediction: f64,
    f_eta: f64,
    additive: f64,
) -> Evaluation
    ensures { result ≡ add_row sums observation prediction f_eta additive }
{
    // by a match, here and below, since the closure of a `map_err` would need a contract of its own
    match likelihood::population_focei::row_terms(observation, prediction, f_eta, additive) {
        Ok(terms) => Ok(with_terms(sums, terms)),
        Err(error) => Err(EvaluationError::RefusedAt(error.number(), sums.observation)),
    }
}

fn with_terms(sums: Sums, terms: RowTerms) -> Sums
    ensures { result ≡ with_terms sums terms }
{
    Sums {
        nll: sums.nll + terms.nll,
        score: Pair {
            first: sums.score.first + terms.score,
            ..sums.score
        },
        information: Matrix {
            m00: sums.information.m00 + terms.information,
            ..sums.information
        },
        observation: std::num::wrapping_add_usize(sums.observation, 1),
    }
}

// Two effects: each of the row's terms is added to its sum.
fn add_row_2d(sums: Sums, observation: Observation, prediction: f64, f_eta: [f64; 2]) -> Evaluation
    ensures { result ≡ add_row2 sums observation prediction f_eta }
{
    match likelihood::population_focei_2d::row_variance(observation, prediction, f_eta) {
        Ok(variance) => {
            let row = likelihood::population_focei_2d::scaled_row(
                observation,
                prediction,
                f_eta,
                variance,
            );
            Ok(with_row(sums, row, f_eta))
        }
        Err(error) => Err(EvaluationError::RefusedAt(error.number(), sums.observation)),
    }
}

fn with_row(sums: Sums, row: Row2, f_eta: [f64; 2]) -> Sums
    ensures { result ≡ with_row sums row f_eta }
{
    let score = likelihood::population_focei_2d::add_score(
        [sums.score.first, sums.score.second],
        row,
        f_eta,
    );
    let information = likelihood::population_focei_2d::add_information(
        matrix::array_of(sums.information),
        row,
        f_eta,
    );
    Sums {
        nll: likelihood::population_focei_2d::add_nll(sums.nll, row),
        score: Pair {
            first: score[0],
            second: score[1],
        },
        information: matrix::matrix_of(information),
        observation: std::num::wrapping_add_usize(sums.observation, 1),
    }
}

fn add_to(
    sums: Sums,
    observation: Observation,
    trial: Trial,
    reply: &[u64],
    work: &mut [u64],
) -> Evaluation
    ensures { evaluating result work.new ≡ add_to sums observation trial reply.now work.old }
{
    let output = observation.output;
    let missing = EvaluationError::RefusedAt(10, sums.observation);
    let at = row_at(reply, trial.width, trial.effects, output, observation.row).ok_or(missing)?;
    let row = ReplyRow {
        observation,
        trial,
        reply,
        at,
    };
    write_row(work, trial.block, sums.observation, row.prediction_row());
    row.added_to(sums)
}

// An evaluation with one observation more, a turn of the loop in the source's `subject`: its row's
// prediction, time and side are written to the trial block of the work words, and its terms are added. After
// a refusal nothing is done.
pub fn add_observation(
    evaluation: Evaluation,
    observation: Observation,
    trial: Trial,
    reply: &[u64],
    work: &mut [u64],
) -> Evaluation
    ensures { evaluating result work.new
        ≡ add_observation trial reply.now observation (evaluating evaluation work.old) }
{
    let sums = evaluation?;
    add_to(sums, observation, trial, reply, work)
}
