// Digests of lent words: from 14695981039346656037 on, each word is added and the sum multiplied by
// 1099511628211, modulo 2^64.

const FIRST: u64 = 14695981039346656037;

// 1099511628211 is 2^40 + 435. The product is taken in parts, none of which passes 2^64.
fn times_prime(h: u64) -> u64 {
    let high = h % 0x100_0000 * 0x100_0000_0000;
    let middle = h / 0x1_0000_0000 * 435 % 0x1_0000_0000 * 0x1_0000_0000;
    let low = h % 0x1_0000_0000 * 435;
    std::num::wrapping_add_u64(std::num::wrapping_add_u64(high, middle), low)
}

fn with_word(h: u64, word: u64) -> u64 {
    times_prime(std::num::wrapping_add_u64(h, word))
}

// Any NaN counts as any other.
fn counted(word: u64) -> u64 {
    if 0x7ff0_0000_0000_0000 < word % 0x8000_0000_0000_0000 {
        return 0x7ff8_0000_0000_0000;
    }
    word
}

// The digest of lent words. Any NaN counts as any other.
pub fn digest(words: &[u64]) -> u64 {
    words
        .iter()
        .fold(FIRST, |h, word| with_word(h, counted(*word)))
}

// A digest of the words as they are, which goes on from another: a word that is changed shows in it.
pub fn mark(words: &[u64], before: u64) -> u64 {
    words.iter().fold(before, |h, word| with_word(h, *word))
}

// Whether every word is 0.
pub fn is_zero(words: &[u64]) -> bool {
    words.iter().all(|word| *word == 0)
}
