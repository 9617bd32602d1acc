// The work words of a search: four blocks of a subject's rows, three words a row (prediction, time, side).
// They are the rows at eta zero (`population_rows` of the source), those of the best point, those of the
// latest grid point (one effect) or of the rounds' current point (two), and those of the trial that was just
// evaluated. The words of the results are in `results`.
//
// Each public function is defined for all words and numbers: beyond the end a word reads as 0, and nothing is
// written there.
#![tactic(auto)]

ghost use Rattle.std.specs.Prelude.{◌≡◌, ◌+◌, ◌*◌, ◌≤◌, ◌<◌, length};
ghost use Rattle.work.specs.Work.{rows_length, block, copy_words, copy_block, move_rows, is_same_row, is_same_grid};

pub mod results;

use cache::ROW_WORDS;

// Document 01's largest number of subjects.
pub const MOST_SUBJECTS: usize = 4096;

// Document 01's largest number of observations, and of rows that are kept.
pub const MOST_ROWS: usize = 100000;

// The work words of an observation: a row in each of four blocks.
pub const WORK_WORDS: usize = 4 * ROW_WORDS;

// The results' words of a subject: eta, second eta and negative log likelihood.
pub const RESULT_WORDS: usize = 3;

// The results' words of an observation: its predictions at eta zero and at the mode.
pub const FITTED_WORDS: usize = 2;

// The block of the rows at eta zero.
pub const POPULATION: usize = 0;

// The block of the best point's rows.
pub const BEST: usize = 1;

// The block of the rows of the latest grid point, or with two effects of the rounds' current point.
pub const LATEST: usize = 2;

// The block of the rows of the trial that was just evaluated.
pub const TRIAL: usize = 3;

// From which block each of the first three blocks gets its rows after an evaluation; its own number, where
// its rows stay.
#[derive(Clone, Copy)]
pub struct Sources {
    pub population: usize,
    pub best: usize,
    pub latest: usize,
}

// ---- blocks

// The number of words in a block of so many rows.
fn rows_length(rows: usize) -> usize
    ensures { result ≡ rows_length rows }
{
    ROW_WORDS * rows.min(MOST_ROWS)
}

// The work word at which a block begins, for a subject of so many rows.
pub fn block(rows: usize, number: usize) -> usize
    ensures { result ≡ block rows number }
{
    rows_length(rows) * number.min(TRIAL)
}

// Copies n words as `copy_words` does, where some may lie beyond the end.
fn copy_each(work: &mut [u64], n: usize, from: usize, to: usize)
    requires { (n ≤ 300000) × (from ≤ 900000) × (to ≤ 900000) }
    ensures { work.new ≡ copy_words n from to work.old }
{
    for i in 0..n {
        let word = words::read(work, from + i);
        words::put(work, to + i, word);
    }
}

// Copies n words as `copy_words` does, where all of them are lent: a loop without a test for each word, since
// blocks are short and the archives are to need no `memmove`.
fn copy_lent(work: &mut [u64], n: usize, from: usize, to: usize)
    requires { (from + n ≤ length work.old) × (to + n ≤ length work.old) }
    ensures { work.new ≡ copy_words n from to work.old }
{
    for i in 0..n {
        work[to + i] = work[from + i];
    }
}

// Copies a block to another.
fn copy_block(work: &mut [u64], rows: usize, from: usize, to: usize)
    ensures { work.new ≡ copy_block rows from to work.old }
{
    if from == to {
        return;
    }
    let n = rows_length(rows);
    let first = block(rows, from);
    let last = block(rows, to);
    if first.max(last) + n <= work.len() {
        copy_lent(work, n, first, last);
    } else {
        copy_each(work, n, first, last);
    }
}

// Moves the rows of a trial to the blocks where an evaluation puts them: the best before the latest, since
// the best may come from the latest.
pub fn move_rows(work: &mut [u64], rows: usize, sources: Sources)
    ensures { work.new ≡ move_rows rows sources work.old }
{
    copy_block(work, rows, sources.population, POPULATION);
    copy_block(work, rows, sources.best, BEST);
    copy_block(work, rows, sources.latest, LATEST);
}

// ---- times and sides

// Whether two rows have the same time and side. Times are compared as floats: -0 is 0, and a NaN equals
// nothing.
fn is_same_row(work: &[u64], a: usize, b: usize) -> bool
    requires { (a ≤ 900000) × (b ≤ 900000) }
    ensures { result ≡ is_same_row work.now a b }
{
    let time = float64::from_word(words::read(work, a + 1));
    let other = float64::from_word(words::read(work, b + 1));
    time == other && words::read(work, a + 2) == words::read(work, b + 2)
}

// Document 01's check 17: whether times and sides are the same at eta zero and at the best point.
#[tactic(auto, unfolding(crate::specs::Work::block))]
pub fn is_same_grid(work: &[u64], rows: usize) -> bool
    ensures { result ≡ is_same_grid work.now rows }
{
    let population = block(rows, POPULATION);
    let best = block(rows, BEST);
    for i in 0..rows.min(MOST_ROWS) {
        if !is_same_row(work, population + ROW_WORDS * i, best + ROW_WORDS * i) {
            return false;
        }
    }
    true
}
