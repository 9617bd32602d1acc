// The kept evaluations, over lent words: positions, keys and terms cross as arrays of words (the numbers and
// words of CacheOrder, CacheKey and CachedTerms, in their order).
ghost use Rattle.std.specs.Prelude.{◌≡◌};
ghost use Rattle.cache.specs.Cache.{find, terms_of, copied, insert};
ghost use Rattle.test_exports.specs.Words.{key_of, order_of, order_words, terms_from, term_words, is_found, slot_or};

// Whether an evaluation with this key is kept; if so its slot is written (`cache::find`).
#[unsafe(no_mangle)]
pub extern "C" fn curlewstand_cache_find(
    words: &[u64],
    k: usize,
    order: &[u64; 4],
    key: &[u64; 7],
    slot: &mut usize,
) -> bool
    ensures value { result ≡ is_found (find words.now k (order_of order.now) (key_of key.now)) }
    ensures slot_after { slot.new
        ≡ slot_or slot.old (find words.now k (order_of order.now) (key_of key.now)) }
{
    test_exports::kept::curlewstand_cache_find(words, k, order, key, slot)
}

// Writes the terms of the kept evaluation in a slot; all 0 where K is out of range
// (`cache::entries::terms_of`).
#[unsafe(no_mangle)]
pub extern "C" fn curlewstand_cache_terms(
    words: &[u64],
    k: usize,
    slot: usize,
    terms: &mut [u64; 7],
)
    ensures { terms.new ≡ term_words (terms_of words.now k slot) }
{
    test_exports::kept::curlewstand_cache_terms(words, k, slot, terms);
}

// Copies the first n rows of the kept evaluation in a slot to `out`, from word `to` on, where they fit and
// all rows are lent (`cache::entries::copy_rows`).
#[unsafe(no_mangle)]
pub extern "C" fn curlewstand_cache_copy_rows(
    words: &[u64],
    k: usize,
    slot: usize,
    n: usize,
    out: &mut [u64],
    to: usize,
)
    ensures { out.new ≡ copied words.now k slot n out.old to }
{
    test_exports::kept::curlewstand_cache_copy_rows(words, k, slot, n, out, to);
}

// Keeps an evaluation with its n rows, which stand in `rows` from word `from` on, and moves the positions; or
// leaves words and positions as they are (`cache::keeping::insert`).
#[unsafe(no_mangle)]
pub extern "C" fn curlewstand_cache_insert(
    words: &mut [u64],
    k: usize,
    order: &mut [u64; 4],
    key: &[u64; 7],
    terms: &[u64; 7],
    n: usize,
    rows: &[u64],
    from: usize,
)
    ensures words_after { words.new
        ≡ (insert words.old k (order_of order.old) (key_of key.now) (terms_from terms.now) n
        rows.now from).words }
    ensures order_after { order.new
        ≡ order_words (insert words.old k (order_of order.old) (key_of key.now)
        (terms_from terms.now) n rows.now from).order }
{
    test_exports::kept::curlewstand_cache_insert(words, k, order, key, terms, n, rows, from);
}
