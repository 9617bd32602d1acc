// Keeping an evaluation: the source's push to `cache_order` and insert into `cache`. The oldest are dropped
// until its rows fit, and the entry, its rows, its link and the head of its chain are written as `cache`
// (lib.rt) lays them out. The public function is defined for all words and numbers.
ghost use Rattle.std.specs.Prelude.{◌≡◌, ◌+◌, ◌-◌, ◌*◌, ◌%◌, ◌<◌, ◌≤◌, length};
ghost use Rattle.cache.specs.Cache.{half, row_words, head_of, with_bit, raised, evict, put_ring, entry_words, written, is_kept, after};
ghost use Rattle.cache.specs.Cache.{insert};

use super::{
    CacheKey, CacheOrder, CachedTerms, HALF, ROW_WORDS, ROWS_FROM, copy_run, entry_place, hash,
    head_of, is_room,
};
use words::{put, read};

// The number of an entry is below 2^32.
const ENTRY_NUMBERS: usize = 4294967296;

// ---- eviction

// The first row that is kept once n more rows are dropped.
fn raised(first_row: usize, next_row: usize, n: usize) -> usize
    ensures { result ≡ raised first_row next_row n }
{
    if n < next_row.saturating_sub(first_row) {
        first_row + n
    } else {
        next_row
    }
}

// Drops the oldest entries until at most `room` rows are left. Where no entry is left there is no row.
fn evict(words: &[u64], k: usize, room: usize, order: CacheOrder) -> CacheOrder
    requires { (0 < k) × (k ≤ 100000) }
    ensures { result ≡ evict (order.next - order.oldest) words.now k room
        order.next order.next_row order.oldest order.first_row }
{
    let mut first_row = order.first_row;
    for oldest in order.oldest..order.next {
        if order.next_row.saturating_sub(first_row) <= room {
            return CacheOrder {
                oldest,
                first_row,
                ..order
            };
        }
        let n = read(words, entry_place(k, oldest) + 14) as usize;
        first_row = raised(first_row, order.next_row, n);
    }
    CacheOrder {
        oldest: order.oldest.max(order.next),
        first_row: order.next_row,
        ..order
    }
}

// ---- the words of an entry

// The filter with one more bit. A chain without a live entry begins anew.
fn with_bit(latest: usize, oldest: usize, filter: u64, bit: u64) -> u64
    requires filter_lt_half { filter < half }
    requires bit_bound { bit < 32 }
    ensures { (result ≡ with_bit latest oldest filter bit) × (result < half) }
{
    if latest < oldest {
        1 << bit
    } else {
        filter | 1 << bit
    }
}

// The place after `at` in a ring of c words.
fn onward(at: usize, c: usize) -> usize
    requires { at < c }
    ensures { result ≡ (at + 1) % c }
{
    if at + 1 == c { 0 } else { at + 1 }
}

// Writes the values as `put_ring` does, where some places may lie beyond the end.
fn put_each(words: &mut [u64], base: usize, c: usize, start: usize, values: &[u64])
    requires { (0 < c) × (base + c < 100000000) }
    ensures { words.new ≡ put_ring (length values.now) words.old base c start values.now 0 0 }
{
    let mut at = start % c;
    for value in values {
        put(words, base + at, *value);
        at = onward(at, c);
    }
}

// Writes the values as `put_ring` does, where the whole ring is lent: those before its end, then those from
// its beginning on.
fn put_lent(words: &mut [u64], base: usize, c: usize, start: usize, values: &[u64])
    requires { (0 < c) × (length values.now ≤ c) × (base + c ≤ length words.old) }
    ensures { words.new ≡ put_ring (length values.now) words.old base c start values.now 0 0 }
{
    let at = start % c;
    let left = c - at;
    if values.len() <= left {
        copy_run(values, 0, values.len(), words, base + at);
        return;
    }
    copy_run(values, 0, left, words, base + at);
    copy_run(values, left, values.len() - left, words, base);
}

// Writes the values around the ring of c words at `base`, the first at `start`.
fn put_ring(words: &mut [u64], base: usize, c: usize, start: usize, values: &[u64])
    requires { (0 < c) × (length values.now ≤ c) × (base + c < 100000000) }
    ensures { words.new ≡ put_ring (length values.now) words.old base c start values.now 0 0 }
{
    if base + c <= words.len() {
        put_lent(words, base, c, start, values);
    } else {
        put_each(words, base, c, start, values);
    }
}

// An entry's words: key, terms, the number of its rows and the number of the first.
fn entry_words(key: CacheKey, terms: CachedTerms, n: usize, row: usize) -> [u64; 16]
    ensures { result ≡ entry_words key terms n row }
{
    [
        key.subject,
        key.theta0,
        key.theta1,
        key.eta0,
        key.eta1,
        key.has_additive,
        key.additive,
        terms.nll,
        terms.score0,
        terms.score1,
        terms.i00,
        terms.i01,
        terms.i10,
        terms.i11,
        n as u64,
        row as u64,
    ]
}

// Writes the entry with the next number and its n rows, whose words are `rows`; entries older than the oldest
// have been dropped.
fn write_entry(
    words: &mut [u64],
    k: usize,
    order: CacheOrder,
    key: CacheKey,
    terms: CachedTerms,
    n: usize,
    rows: &[u64],
)
    requires { (0 < k) × (k ≤ 100000) × (n ≤ k) × (order.next < half) × (order.next_row < 1152921504606846976)
        × (length rows.now ≡ row_words * n) }
    ensures { words.new ≡ written words.old k order.oldest order.next order.next_row key terms n rows.now 0 }
{
    let entry = order.next;
    let hash = hash(key);
    let bits = hash / HALF;
    let head = head_of(hash, k);
    let old = read(words, head);
    let latest = old % HALF;
    let filter = with_bit(latest as usize, order.oldest, old / HALF, bits % 32);
    let new = entry_words(key, terms, n, order.next_row);
    put_ring(words, entry_place(k, entry), 16, 0, &new);
    put_ring(
        words,
        ROWS_FROM * k,
        ROW_WORDS * k,
        ROW_WORDS * order.next_row,
        rows,
    );
    put(words, k + entry % k, latest + bits * HALF);
    put(words, head, entry as u64 + filter * HALF);
}

// ---- keeping

// An evaluation is kept that has rows, at most K, all of them lent, beside at most K entries, and with
// numbers in range.
fn is_kept(k: usize, order: CacheOrder, n: usize, lent: usize, from: usize) -> bool
    ensures { result ≡ is_kept k order n lent from }
{
    // test after test, since the product fits only where those before it hold
    if !is_room(k) {
        return false;
    }
    if n == 0 {
        return false;
    }
    if k < n {
        return false;
    }
    if lent < from {
        return false;
    }
    if lent - from < ROW_WORDS * n {
        return false;
    }
    if k < order.next.saturating_sub(order.oldest) {
        return false;
    }
    order.next < ENTRY_NUMBERS && order.next_row < 1152921504606846976
}

// Keeps an evaluation with its n rows, which stand in `rows` from word `from` on, and gives the positions
// afterwards: the oldest are dropped until it fits. An evaluation without rows, with more than K, or whose
// rows are not all lent is not kept.
pub fn insert(
    words: &mut [u64],
    k: usize,
    order: CacheOrder,
    key: CacheKey,
    terms: CachedTerms,
    n: usize,
    rows: &[u64],
    from: usize,
) -> CacheOrder
    ensures { after result words.new ≡ insert words.old k order key terms n rows.now from }
{
    if !is_kept(k, order, n, rows.len(), from) {
        return order;
    }
    let left = evict(words, k, k - n, order);
    let rows = &rows[from..from + ROW_WORDS * n];
    write_entry(words, k, left, key, terms, n, rows);
    CacheOrder {
        next: left.next + 1,
        next_row: left.next_row + n,
        ..left
    }
}
