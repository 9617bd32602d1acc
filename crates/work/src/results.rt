// The words of the results: three for each subject, then two for each observation. Each function is defined
// for all words and numbers, and writes nothing beyond the end.
ghost use Rattle.std.specs.Prelude.{◌≡◌};
ghost use Rattle.work.specs.Work.{result_written, fitted_at, fitted_written};

use super::{BEST, FITTED_WORDS, MOST_ROWS, MOST_SUBJECTS, POPULATION, RESULT_WORDS, block};
use cache::ROW_WORDS;
use matrix::Pair;

// Writes the results of a subject: eta, second eta and negative log likelihood at its mode.
pub fn write_result(results: &mut [u64], subject: usize, eta: Pair, nll: f64)
    ensures { results.new ≡ result_written subject eta nll results.old }
{
    if results.len() <= subject {
        return;
    }
    let at = RESULT_WORDS * subject;
    words::put(results, at, float64::to_word(eta.first));
    words::put(results, at + 1, float64::to_word(eta.second));
    words::put(results, at + 2, float64::to_word(nll));
}

// The word at which the fitted rows begin of the subject whose first observation has this number among all.
fn fitted_at(subjects: usize, first: usize) -> usize
    ensures { result ≡ fitted_at subjects first }
{
    RESULT_WORDS * subjects.min(MOST_SUBJECTS) + FITTED_WORDS * first.min(MOST_ROWS)
}

// Writes the fitted rows of a subject, from the work words' blocks: for each observation its predictions at
// eta zero and at the mode. `first` is the number of the subject's first observation among all.
#[tactic(auto, unfolding(crate::specs::Work::block, crate::specs::Work::fitted_at))]
pub fn write_fitted(results: &mut [u64], subjects: usize, first: usize, work: &[u64], rows: usize)
    ensures { results.new ≡ fitted_written subjects first work.now rows results.old }
{
    let at = fitted_at(subjects, first);
    let population = block(rows, POPULATION);
    let best = block(rows, BEST);
    for i in 0..rows.min(MOST_ROWS) {
        words::put(
            results,
            at + FITTED_WORDS * i,
            words::read(work, population + ROW_WORDS * i),
        );
        words::put(
            results,
            at + FITTED_WORDS * i + 1,
            words::read(work, best + ROW_WORDS * i),
        );
    }
}
