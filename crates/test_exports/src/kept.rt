// The kept evaluations, over lent words: positions, keys and terms cross as arrays of words (the numbers and
// words of CacheOrder, CacheKey and CachedTerms, in their order): C lends arrays, and each is taken apart here.
ghost use Rattle.std.specs.Prelude.{◌≡◌};
ghost use Rattle.cache.specs.Cache.{find, terms_of, copied, insert};
ghost use Rattle.test_exports.specs.Words.{key_of, order_of, order_words, terms_from, term_words, is_found, slot_or};

use cache::{CacheKey, CacheOrder, CachedTerms};

#[tactic(auto, unfolding(crate::specs::Words::key_of))]
fn key_of(words: [u64; 7]) -> CacheKey
    ensures { result ≡ key_of words }
{
    let [subject, theta0, theta1, eta0, eta1, has_additive, additive] = words;
    CacheKey {
        subject,
        theta0,
        theta1,
        eta0,
        eta1,
        has_additive,
        additive,
    }
}

#[tactic(auto, unfolding(crate::specs::Words::terms_from))]
fn terms_from(words: [u64; 7]) -> CachedTerms
    ensures { result ≡ terms_from words }
{
    let [nll, score0, score1, i00, i01, i10, i11] = words;
    CachedTerms {
        nll,
        score0,
        score1,
        i00,
        i01,
        i10,
        i11,
    }
}

#[tactic(auto, unfolding(crate::specs::Words::order_of))]
fn order_of(words: [u64; 4]) -> CacheOrder
    ensures { result ≡ order_of words }
{
    CacheOrder {
        oldest: words[0] as usize,
        next: words[1] as usize,
        first_row: words[2] as usize,
        next_row: words[3] as usize,
    }
}

// Whether an evaluation with this key is kept; if so its slot is written (`cache::find`).
#[tactic(auto, unfolding(crate::specs::Words::is_found, crate::specs::Words::slot_or))]
pub fn curlewstand_cache_find(
    words: &[u64],
    k: usize,
    order: &[u64; 4],
    key: &[u64; 7],
    slot: &mut usize,
) -> bool
    ensures value { result ≡ is_found (find words.now k (order_of order.now) (key_of key.now)) }
    ensures slot_after { slot.new
        ≡ slot_or slot.old (find words.now k (order_of order.now) (key_of key.now)) }
{
    match cache::find(words, k, order_of(*order), key_of(*key)) {
        Some(place) => {
            *slot = place;
            true
        }
        None => false,
    }
}

// Writes the terms of the kept evaluation in a slot; all 0 where K is out of range
// (`cache::entries::terms_of`).
#[tactic(auto, unfolding(crate::specs::Words::term_words))]
pub fn curlewstand_cache_terms(words: &[u64], k: usize, slot: usize, terms: &mut [u64; 7])
    ensures { terms.new ≡ term_words (terms_of words.now k slot) }
{
    let t = cache::entries::terms_of(words, k, slot);
    *terms = [t.nll, t.score0, t.score1, t.i00, t.i01, t.i10, t.i11];
}

// Copies the first n rows of the kept evaluation in a slot to `out`, from word `to` on, where they fit and
// all rows are lent (`cache::entries::copy_rows`).
pub fn curlewstand_cache_copy_rows(
    words: &[u64],
    k: usize,
    slot: usize,
    n: usize,
    out: &mut [u64],
    to: usize,
)
    ensures { out.new ≡ copied words.now k slot n out.old to }
{
    cache::entries::copy_rows(words, k, slot, n, out, to);
}

// Keeps an evaluation with its n rows, which stand in `rows` from word `from` on, and moves the positions; or
// leaves words and positions as they are (`cache::keeping::insert`).
#[tactic(auto, unfolding(crate::specs::Words::order_words))]
pub fn curlewstand_cache_insert(
    words: &mut [u64],
    k: usize,
    order: &mut [u64; 4],
    key: &[u64; 7],
    terms: &[u64; 7],
    n: usize,
    rows: &[u64],
    from: usize,
)
    ensures words_after { words.new
        ≡ (insert words.old k (order_of order.old) (key_of key.now) (terms_from terms.now) n
        rows.now from).words }
    ensures order_after { order.new
        ≡ order_words (insert words.old k (order_of order.old) (key_of key.now)
        (terms_from terms.now) n rows.now from).order }
{
    let next = cache::keeping::insert(
        words,
        k,
        order_of(*order),
        key_of(*key),
        terms_from(*terms),
        n,
        rows,
        from,
    );
    *order = [
        next.oldest as u64,
        next.next as u64,
        next.first_row as u64,
        next.next_row as u64,
    ];
}
