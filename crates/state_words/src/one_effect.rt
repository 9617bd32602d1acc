// A search with one effect as twenty words, for a host that keeps it: its stage (0 grid, 1 warm, 2 secant, 3
// halving), count, first, latest, fall (0 or 1), left, right and best. A float is its word, and a point the
// words of its eta, nll, score and information. Each public function is defined for all words and searches.
ghost use Rattle.std.specs.Prelude.{◌≡◌, ◌+◌, ◌≤◌, ◌<◌, length, ltb, Some, None};
ghost use Rattle.float64.specs.Pick.{pick};
ghost use Rattle.state_words.specs.SearchWords.{search_size, conditional_at, words_of, stage_of, stage_word, saved};
ghost use Rattle.state_words.specs.SearchWords.{loaded_lent, loaded, answer};

use mode::population_focei::{Conditional, Search, Stage};

// How many words a search has.
pub const SEARCH_WORDS: usize = 20;

// The stage of a word, or none where it is above 3.
#[tactic(auto, unfolding(crate::specs::SearchWords::stage_of, float64::specs::Pick::pick))]
fn stage_of(word: u64) -> Option<Stage>
    ensures { result ≡ pick (ltb 3 word) None (Some (stage_of word)) }
{
    match word {
        0 => Some(Stage::Grid),
        1 => Some(Stage::Warm),
        2 => Some(Stage::Secant),
        3 => Some(Stage::Halving),
        _ => None,
    }
}

#[tactic(auto, unfolding(crate::specs::SearchWords::stage_word))]
fn stage_word(stage: Stage) -> u64
    ensures { result ≡ stage_word stage }
{
    match stage {
        Stage::Grid => 0,
        Stage::Warm => 1,
        Stage::Secant => 2,
        Stage::Halving => 3,
    }
}

// The point of the four words from i on.
#[tactic(auto, unfolding(crate::specs::SearchWords::conditional_at))]
fn conditional_at(words: &[u64], i: usize) -> Conditional
    requires { i + 3 < length words.now }
    ensures { result ≡ conditional_at words.now i }
{
    Conditional {
        eta: float64::from_word(words[i]),
        nll: float64::from_word(words[i + 1]),
        score: float64::from_word(words[i + 2]),
        information: float64::from_word(words[i + 3]),
    }
}

#[tactic(auto, unfolding(crate::specs::SearchWords::words_of))]
fn words_of(c: Conditional) -> [u64; 4]
    ensures { result ≡ words_of c }
{
    [
        float64::to_word(c.eta),
        float64::to_word(c.nll),
        float64::to_word(c.score),
        float64::to_word(c.information),
    ]
}

// The search that twenty words stand for. They are no search where the stage is above 3, the count does not
// fit in a u32, or the fall is above 1.
#[tactic(auto, unfolding(crate::specs::SearchWords::loaded_lent, crate::specs::SearchWords::answer, crate::specs::SearchWords::search_of, float64::specs::Pick::pick))]
fn load_lent(words: &[u64]) -> Option<Search>
    requires { search_size ≤ length words.now }
    ensures { answer result ≡ loaded_lent words.now }
{
    let stage = stage_of(words[0])?;
    let count = u32::try_from(words[1]).ok()?;
    if words[7] > 1 {
        return None;
    }
    Some(Search {
        stage,
        count,
        first: float64::from_word(words[2]),
        latest: conditional_at(words, 3),
        fall: words[7] == 1,
        left: conditional_at(words, 8),
        right: conditional_at(words, 12),
        best: conditional_at(words, 16),
    })
}

// The search that the first twenty of some words stand for; where there are fewer they are no search.
#[tactic(auto, unfolding(crate::specs::SearchWords::loaded, crate::specs::SearchWords::answer, float64::specs::Pick::pick))]
pub fn load(words: &[u64]) -> Option<Search>
    ensures { answer result ≡ loaded words.now }
{
    if words.len() < SEARCH_WORDS {
        return None;
    }
    load_lent(words)
}

// The twenty words of a search.
pub fn save(x: Search) -> [u64; 20]
    ensures { result ≡ saved x }
{
    let stage = stage_word(x.stage);
    let count = u64::from(x.count);
    let first = float64::to_word(x.first);
    let latest = words_of(x.latest);
    let fall = u64::from(x.fall);
    let left = words_of(x.left);
    let right = words_of(x.right);
    let best = words_of(x.best);
    // each word by its place, since there is no joining of arrays without a buffer to copy into
    [
        stage, count, first, latest[0], latest[1], latest[2], latest[3], fall, left[0], left[1],
        left[2], left[3], right[0], right[1], right[2], right[3], best[0], best[1], best[2],
        best[3],
    ]
}
