// Reading a kept evaluation in the slot where `cache::find` found it: its terms, and its rows, which stand in
// a ring. Each public function is defined for all words and numbers.
ghost use Rattle.std.specs.Prelude.{◌≡◌, ◌+◌, ◌*◌, ◌<◌, ◌≤◌, length};
ghost use Rattle.cache.specs.Cache.{row_words, rows_from, terms_of, rows_to, copied};

use super::{CachedTerms, ROW_WORDS, ROWS_FROM, copy_run, entry_place, is_room, modulo};
use words::read;

// The terms of the kept evaluation in a slot; all 0 where K is out of range.
pub fn terms_of(words: &[u64], k: usize, slot: usize) -> CachedTerms
    ensures { result ≡ terms_of words.now k slot }
{
    if !is_room(k) {
        return CachedTerms::default();
    }
    let at = entry_place(k, slot);
    CachedTerms {
        nll: read(words, at + 7),
        score0: read(words, at + 8),
        score1: read(words, at + 9),
        i00: read(words, at + 10),
        i01: read(words, at + 11),
        i10: read(words, at + 12),
        i11: read(words, at + 13),
    }
}

// Copies n words of a slot's rows to `out`, from word `to` on: those before the end of their ring, then
// those from its beginning on.
fn copy_words(words: &[u64], k: usize, slot: usize, n: usize, out: &mut [u64], to: usize)
    requires { (0 < k) × (k ≤ 100000) × (n ≤ row_words * k) × ((rows_from + row_words) * k ≤ length words.now)
        × (to + n ≤ length out.old) }
    ensures { out.new ≡ rows_to words.now k slot n out.old to }
{
    let first = read(words, entry_place(k, slot) + 15) as usize;
    let base = ROWS_FROM * k;
    let at = ROW_WORDS * modulo(first, k);
    let left = ROW_WORDS * k - at;
    if n <= left {
        copy_run(words, base + at, n, out, to);
        return;
    }
    copy_run(words, base + at, left, out, to);
    copy_run(words, base, n - left, out, to + left);
}

// Copies the first n rows of the kept evaluation in a slot to `out`, from word `to` on, where they fit and
// all rows are lent.
pub fn copy_rows(words: &[u64], k: usize, slot: usize, n: usize, out: &mut [u64], to: usize)
    ensures { out.new ≡ copied words.now k slot n out.old to }
{
    if !is_room(k) {
        return;
    }
    if k < n {
        return;
    }
    if words.len() < (ROWS_FROM + ROW_WORDS) * k {
        return;
    }
    if out.len() < to {
        return;
    }
    if ROW_WORDS * n <= out.len() - to {
        copy_words(words, k, slot, ROW_WORDS * n, out, to);
    }
}
