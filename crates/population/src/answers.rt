// The host's answer to a question, over lent words: the evaluation of the point that was asked for is kept.
ghost use Rattle.std.specs.Prelude.{◌≡◌};
ghost use Rattle.population.specs.Kept.{cache_of, order_rows};
ghost use Rattle.population.specs.Answers.{kept_with, keep};

use cache::CacheOrder;
use matrix::Pair;
use search::{CachedRows, Fit, Tally};
use subject::Sums;

// The positions of the kept evaluations with one more, and the tally with their rows.
#[derive(Clone, Copy)]
pub struct Kept {
    pub order: CacheOrder,
    pub tally: Tally,
}

// Keeps the evaluation of the point eta that was asked for, whose rows are in the trial block of the work
// words, under its key. Defined for all values and words.
pub fn keep(
    fit: Fit,
    counts: &[u64],
    order: CacheOrder,
    subject: usize,
    tally: Tally,
    eta: Pair,
    sums: Sums,
    cache: &mut [u64],
    work: &[u64],
) -> Kept
    ensures { kept_with result cache.new
        ≡ keep fit counts.now subject tally eta sums (cache_of cache.old order) work.now }
{
    let terms = search::questions::terms_of(sums);
    let rows = super::rows_of(counts, subject);
    let key = search::questions::key_of(fit, subject, eta);
    let trial = work::block(rows, work::TRIAL);
    let kept = cache::keeping::insert(cache, fit.k, order, key, terms, rows, work, trial);
    Kept {
        order: kept,
        tally: Tally {
            cached_rows: CachedRows(cached_rows(kept)),
            ..tally
        },
    }
}

// The number of rows that are kept, by the positions of the kept evaluations.
#[tactic(auto, unfolding(crate::specs::Kept::order_rows))]
pub fn cached_rows(order: CacheOrder) -> usize
    ensures { result ≡ order_rows order }
{
    order.next_row.saturating_sub(order.first_row)
}
