// The population objective, `population` of population_focei.rs and population_focei_2d.rs, as a machine over
// lent words: subject after subject, a search asks for points, kept evaluations or replies answer it, and its
// mode is added to the objective. Here are the counts and the warm starts in lent words, and what is done
// with a mode; `kept_points` takes a search through kept evaluations, `answers` keeps a reply, and `steps`
// has the loop over the requests. What is lent goes as slices through every call, since which of them a call may
// write differs from call to call. Each function is defined for all values and words.
#![tactic(auto)]

ghost use Rattle.std.specs.Prelude.{◌≡◌};
ghost use Rattle.population.specs.Population.{rows_of, warm_of, warm_stored, worked, next_subject, ended, at_mode};

pub mod answers;
pub mod kept_points;
pub mod steps;

use matrix::Pair;
use search::{Fit, Halted, Mode, Progress, Tally, refused_here};
use std::ops::ControlFlow;

// A turn of the loop over the remaining requests: it goes on, without an evaluation, or breaks off with an
// answer.
pub type Turned = ControlFlow<Halted, Progress>;

// ---- lent words

// A subject's number of observations, at most document 01's largest.
#[tactic(auto, unfolding(crate::specs::Population::rows_of, float64::specs::Pick::pick))]
pub fn rows_of(counts: &[u64], subject: usize) -> usize
    ensures { result ≡ rows_of counts.now subject }
{
    (words::read(counts, subject) as usize).min(work::MOST_ROWS)
}

// A subject's warm start, the source's warm_etas: a word for each subject, or two with two effects. Beyond
// the end it is zero.
#[tactic(auto, unfolding(crate::specs::Population::warm_of, float64::specs::Pick::pick))]
pub fn warm_of(warm: &[u64], effects: u32, subject: usize) -> Pair
    ensures { result ≡ warm_of warm.now effects subject }
{
    if effects == 2 {
        if warm.len() <= subject {
            return Pair {
                first: 0.0,
                second: 0.0,
            };
        }
        return Pair {
            first: float64::from_word(words::read(warm, 2 * subject)),
            second: float64::from_word(words::read(warm, 2 * subject + 1)),
        };
    }
    Pair {
        first: float64::from_word(words::read(warm, subject)),
        second: 0.0,
    }
}

// Stores a subject's warm start; nothing is written beyond the end.
#[tactic(auto, unfolding(crate::specs::Population::warm_stored, float64::specs::Pick::pick))]
fn store_warm(warm: &mut [u64], effects: u32, subject: usize, eta: Pair)
    ensures { warm.new ≡ warm_stored effects subject eta warm.old }
{
    if effects == 2 {
        if warm.len() <= subject {
            return;
        }
        words::put(warm, 2 * subject, float64::to_word(eta.first));
        words::put(warm, 2 * subject + 1, float64::to_word(eta.second));
        return;
    }
    words::put(warm, subject, float64::to_word(eta.first));
}

// ---- a mode

// The mode has passed check 17: it is added to the objective, and the next subject's search begins, with the
// work words cleared of this one's rows; after the last subject the objective ends.
#[tactic(auto, unfolding(crate::specs::Population::next_subject, float64::specs::Pick::pick))]
fn next_subject(
    fit: Fit,
    counts: &[u64],
    progress: Progress,
    tally: Tally,
    mode: Mode,
    rows: usize,
    work: &mut [u64],
    warm: &[u64],
) -> Turned
    ensures { worked result work.new
        ≡ next_subject fit counts.now progress tally mode rows warm.now work.old }
{
    let ofv = progress.ofv + mode.term;
    let squares = progress.eta_squares + mode.eta.first * mode.eta.first;
    let subject = std::num::wrapping_add_usize(progress.subject, 1);
    if subject < counts.len() {
        let first = std::num::wrapping_add_usize(progress.first, rows);
        let start = warm_of(warm, fit.effects, subject);
        words::clear(work);
        let next = search::begin_subject(fit.effects, subject, first, start, ofv, squares);
        return ControlFlow::Continue(next);
    }
    ControlFlow::Break(search::objective::objective_of(progress, tally, ofv, squares))
}

// What is done with a search's mode: check 16, the warm start is stored, check 17, the results are written,
// and the mode is added to the objective. Then the next subject begins, or the objective ends.
pub fn at_mode(
    fit: Fit,
    counts: &[u64],
    progress: Progress,
    tally: Tally,
    work: &mut [u64],
    warm: &mut [u64],
    results: &mut [u64],
) -> Turned
    ensures { ended result work.new warm.new results.new
        ≡ at_mode fit counts.now progress tally work.old warm.old results.old }
{
    let subject = progress.subject;
    let rows = rows_of(counts, subject);
    let Some(mode) = search::objective::closed_by(fit, progress, rows as u32) else {
        return ControlFlow::Break(refused_here(progress, tally, 16));
    };
    store_warm(warm, fit.effects, subject, mode.eta);
    if !work::is_same_grid(work, rows) {
        return ControlFlow::Break(refused_here(progress, tally, 17));
    }
    work::results::write_result(results, subject, mode.eta, mode.nll);
    work::results::write_fitted(results, counts.len(), progress.first, work, rows);
    next_subject(fit, counts, progress, tally, mode, rows, work, warm)
}
