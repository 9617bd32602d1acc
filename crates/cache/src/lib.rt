// Document 01's kept evaluations in lent words, the oldest out first: the source's `cache` and `cache_order`.
//
// The words, for K rows: K heads, K links, K entries of 16 words, 3·K words of rows. Entries are numbered
// from 1 as they come, and entry s stands in slot s % K. Rows are numbered from 0, and word x of all rows
// stands at x % (3·K). The entries whose keys' hashes fall to one head are a chain. The head has the number
// of its latest entry, and above it a filter: a bit for each entry of the chain, so that the head alone shows
// of most keys that they are not kept. A slot's link has the number of the entry before it in the chain, and
// above it bits of its own key's hash. An entry whose number is below the oldest is no longer kept, so
// nothing is ever unlinked.
//
// Here are the types, and how an entry is found; `entries` reads what was found, and `keeping` adds an entry.
// Each public function is defined for all words and numbers.
#![tactic(auto)]

ghost use Rattle.std.specs.Prelude.{◌≡◌, ◌+◌, ◌-◌, ◌%◌, ◌<◌, ◌≤◌, length};
ghost use Rattle.cache.specs.Cache.{half, part, hash, head_of, has_bit, is_room, is_same, is_at, walk, entry_place, copy_run, find};

pub mod entries;
pub mod keeping;

use words::read;

// The words of a row: prediction, time and side.
pub const ROW_WORDS: usize = 3;

// The words that are lent for each row of the room.
pub const KEPT_WORDS: usize = 24;

// Where the entries begin, for each row of the room: after a head and a link.
pub const ENTRIES_FROM: usize = 2;

// Where the rows begin, for each row of the room: after a head, a link and an entry of 16 words.
pub const ROWS_FROM: usize = 18;

// The numbers that half a word holds: 2^32.
pub const HALF: u64 = 4294967296;

// The source's CacheKey (with one effect SubjectKey): the subject, the words of both thetas and both etas,
// and the optional additive override, with has_additive 0 where there is none: a key is words, since it is hashed
// and compared as words. The sign of a zero counts.
// With one effect the second theta and eta are fixed.
#[derive(Clone, Copy)]
pub struct CacheKey {
    pub subject: u64,
    pub theta0: u64,
    pub theta1: u64,
    pub eta0: u64,
    pub eta1: u64,
    pub has_additive: u64,
    pub additive: u64,
}

// What is kept of an evaluation beside its rows: the words of its nll, score and information, by row and
// column. None of them includes the prior.
#[derive(Clone, Copy, Default)]
pub struct CachedTerms {
    pub nll: u64,
    pub score0: u64,
    pub score1: u64,
    pub i00: u64,
    pub i01: u64,
    pub i10: u64,
    pub i11: u64,
}

// The source's cache_order: the numbers of the oldest entry and the next one, and of the first row that is
// kept and the next one. They only rise. At first oldest and next are 1, and the rows 0.
#[derive(Clone, Copy)]
pub struct CacheOrder {
    pub oldest: usize,
    pub next: usize,
    pub first_row: usize,
    pub next_row: usize,
}

// a modulo b; where b is 0, a itself. A division takes long, and most numbers are below b already.
pub fn modulo(a: usize, b: usize) -> usize
    ensures { result ≡ a % b }
{
    if a < b || b == 0 { a } else { a % b }
}

// Copies n words, from word `from` on, to `out`, from word `to` on: by places, as the definitions of runs and
// rings have them, and by a loop, since runs are short and the archives are to need no `memmove`.
fn copy_run(words: &[u64], from: usize, n: usize, out: &mut [u64], to: usize)
    requires { (from + n ≤ length words.now) × (to + n ≤ length out.old) }
    ensures { out.new ≡ copy_run n words.now from out.old to 0 }
{
    for i in 0..n {
        out[to + i] = words[from + i];
    }
}

// ---- the hash

// The product of a word's halves, each with a number of its own added.
fn part(word: u64, low: u64, high: u64) -> u64
    requires low_lt_half { low < half }
    requires high_lt_half { high < half }
    ensures { result ≡ part word low high }
{
    (word % HALF + low) % HALF * ((word / HALF + high) % HALF)
}

// The hash of a key: the sum of the parts of its words, wrapped and mixed once more.
pub fn hash(key: CacheKey) -> u64
    ensures { result ≡ hash key }
{
    let subject_theta0 = part(key.subject, 0x9e37_79b1, 0x85eb_ca77).wrapping_add(part(
        key.theta0,
        0xc2b2_ae3d,
        0x27d4_eb2f,
    ));
    let theta1_eta0 = part(key.theta1, 0x1656_67b1, 0xd3a2_646d).wrapping_add(part(
        key.eta0,
        0xfd70_46c5,
        0xb55a_4f09,
    ));
    let eta1_override = part(key.eta1, 0x8f1b_bcdd, 0x6ed9_eba1).wrapping_add(part(
        key.has_additive,
        0x5a82_7999,
        0xca62_c1d7,
    ));
    let additive = part(key.additive, 0xb7e1_5163, 0x7f4a_7c15);
    let keyed = subject_theta0.wrapping_add(theta1_eta0);
    let sum = keyed.wrapping_add(eta1_override.wrapping_add(additive));
    sum % HALF * 1640531527 + sum / HALF * 2146121005
}

// The chain of a hash, by its low half: below k.
fn head_of(hash: u64, k: usize) -> usize
    requires { k ≤ 100000 }
    ensures { result ≡ head_of hash k }
{
    (hash % HALF * k as u64 / HALF) as usize
}

// Whether the filter has this bit.
fn has_bit(filter: u64, bit: u64) -> bool
    requires { bit < 32 }
    ensures { result ≡ has_bit filter bit }
{
    (filter >> bit) % 2 == 1
}

// ---- finding

// Whether K is in range: room for 1 to 100,000 rows. K stays a number of its own, as in the definitions: with a
// struct for it each contract would have to open it.
pub fn is_room(k: usize) -> bool
    ensures { result ≡ is_room k }
{
    k != 0 && k < 100001
}

// Whether the entry at `at` has this key. The first test is of what differs most from one entry to the next.
fn is_same(words: &[u64], at: usize, key: CacheKey) -> bool
    requires { at < 100000000 }
    ensures { result ≡ is_same words.now at key }
{
    read(words, at + 3) == key.eta0
        && read(words, at) == key.subject
        && read(words, at + 1) == key.theta0
        && read(words, at + 4) == key.eta1
        && read(words, at + 2) == key.theta1
        && read(words, at + 5) == key.has_additive
        && read(words, at + 6) == key.additive
}

// The word at which the slot of an entry begins.
fn entry_place(k: usize, entry: usize) -> usize
    requires { (0 < k) × (k ≤ 100000) }
    ensures { (result ≡ entry_place k entry) × (result < 10000000) }
{
    ENTRIES_FROM * k + 16 * modulo(entry, k)
}

// Whether the entry has this key. The bits of its hash beside the link spare most looks at an entry.
fn is_at(words: &[u64], k: usize, entry: usize, bits: u64, key: CacheKey) -> bool
    requires { (0 < k) × (k ≤ 100000) }
    ensures { result ≡ is_at words.now k entry bits key }
{
    read(words, k + modulo(entry, k)) / HALF == bits && is_same(words, entry_place(k, entry), key)
}

// The slot of the entry with this key, from the entry `start` along its chain, in at most `most` entries, if it
// is there.
fn walk(
    words: &[u64],
    k: usize,
    oldest: usize,
    bits: u64,
    key: CacheKey,
    start: usize,
    most: usize,
) -> Option<usize>
    requires { (0 < k) × (k ≤ 100000) }
    ensures { result ≡ walk most words.now k oldest bits key start }
{
    let mut entry = start;
    for passed in 0..most {
        if entry < oldest {
            return None;
        }
        if is_at(words, k, entry, bits, key) {
            return Some(modulo(entry, k));
        }
        entry = (read(words, k + modulo(entry, k)) % HALF) as usize;
    }
    None
}

// The slot of the kept evaluation with this key, if there is one: the source's lookup in `cache`.
pub fn find(words: &[u64], k: usize, order: CacheOrder, key: CacheKey) -> Option<usize>
    ensures { result ≡ find words.now k order key }
{
    if !is_room(k) {
        return None;
    }
    let most = order.next.saturating_sub(order.oldest);
    if most == 0 {
        return None;
    }
    // no more than K entries can be kept
    if k < most {
        return None;
    }
    let hash = hash(key);
    let head = read(words, head_of(hash, k));
    let bits = hash / HALF;
    if !has_bit(head / HALF, bits % 32) {
        return None;
    }
    let latest = (head % HALF) as usize;
    walk(words, k, order.oldest, bits, key, latest, most)
}
