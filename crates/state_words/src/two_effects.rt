// A search with two effects as twenty-five words, for a host that keeps it: its stage (0 zero, 1 start, 2
// trial, 3 found, and of a search that was refused 4 more than 13, 14 or 16), seed, round, reduction, current,
// trial, decrease and best. A float is its word, and a point the words of its eta, nll, score and
// information. Each public function is defined for all words and searches.
ghost use Rattle.std.specs.Prelude.{◌≡◌, ◌+◌, ◌≤◌, ◌<◌, length, Some, None};
ghost use Rattle.float64.specs.Pick.{pick};
ghost use Rattle.state_words.specs.SearchWords2.{search_size, conditional_at, words_of, is_no_stage, stage_of, stage_word, saved};
ghost use Rattle.state_words.specs.SearchWords2.{loaded_lent, loaded, answer};

use matrix::Matrix;
use mode_2d::population_focei_2d::{Conditional2, Search2, Stage2};

// How many words a search has.
pub const SEARCH_WORDS: usize = 25;

// The stage of a word, or none where it is no stage's. A search refuses with 13, 14 and 16 alone.
#[tactic(auto, unfolding(crate::specs::SearchWords2::is_no_stage, crate::specs::SearchWords2::stage_of, float64::specs::Pick::pick))]
fn stage_of(word: u64) -> Option<Stage2>
    ensures { result ≡ pick (is_no_stage word) None (Some (stage_of word)) }
{
    match word {
        0 => Some(Stage2::Zero),
        1 => Some(Stage2::Start),
        2 => Some(Stage2::Trial),
        3 => Some(Stage2::Found),
        17 | 18 | 20 => Some(Stage2::Halted((word - 4) as u32)),
        _ => None,
    }
}

#[tactic(auto, unfolding(crate::specs::SearchWords2::stage_word))]
fn stage_word(stage: Stage2) -> u64
    ensures { result ≡ stage_word stage }
{
    match stage {
        Stage2::Zero => 0,
        Stage2::Start => 1,
        Stage2::Trial => 2,
        Stage2::Found => 3,
        Stage2::Halted(number) => 4 + u64::from(number),
    }
}

// The point of the nine words from i on.
#[tactic(auto, unfolding(crate::specs::SearchWords2::conditional_at))]
fn conditional_at(words: &[u64], i: usize) -> Conditional2
    requires { i + 8 < length words.now }
    ensures { result ≡ conditional_at words.now i }
{
    Conditional2 {
        eta: super::pair_at(words, i),
        nll: float64::from_word(words[i + 2]),
        score: super::pair_at(words, i + 3),
        information: Matrix {
            m00: float64::from_word(words[i + 5]),
            m01: float64::from_word(words[i + 6]),
            m10: float64::from_word(words[i + 7]),
            m11: float64::from_word(words[i + 8]),
        },
    }
}

#[tactic(auto, unfolding(crate::specs::SearchWords2::words_of))]
fn words_of(c: Conditional2) -> [u64; 9]
    ensures { result ≡ words_of c }
{
    [
        float64::to_word(c.eta.first),
        float64::to_word(c.eta.second),
        float64::to_word(c.nll),
        float64::to_word(c.score.first),
        float64::to_word(c.score.second),
        float64::to_word(c.information.m00),
        float64::to_word(c.information.m01),
        float64::to_word(c.information.m10),
        float64::to_word(c.information.m11),
    ]
}

// The search that twenty-five words stand for. They are no search where the stage is none, or where the seed,
// the round or the reduction does not fit in a u32.
#[tactic(auto, unfolding(crate::specs::SearchWords2::loaded_lent, crate::specs::SearchWords2::answer, crate::specs::SearchWords2::search_of, float64::specs::Pick::pick))]
fn load_lent(words: &[u64]) -> Option<Search2>
    requires { search_size ≤ length words.now }
    ensures { answer result ≡ loaded_lent words.now }
{
    let stage = stage_of(words[0])?;
    let seed = u32::try_from(words[1]).ok()?;
    let round = u32::try_from(words[2]).ok()?;
    let reduction = u32::try_from(words[3]).ok()?;
    Some(Search2 {
        stage,
        seed,
        round,
        reduction,
        current: conditional_at(words, 4),
        trial: super::pair_at(words, 13),
        decrease: float64::from_word(words[15]),
        best: conditional_at(words, 16),
    })
}

// The search that the first twenty-five of some words stand for; where there are fewer they are no search.
#[tactic(auto, unfolding(crate::specs::SearchWords2::loaded, crate::specs::SearchWords2::answer, float64::specs::Pick::pick))]
pub fn load(words: &[u64]) -> Option<Search2>
    ensures { answer result ≡ loaded words.now }
{
    if words.len() < SEARCH_WORDS {
        return None;
    }
    load_lent(words)
}

// The twenty-five words of a search.
pub fn save(x: Search2) -> [u64; 25]
    ensures { result ≡ saved x }
{
    let stage = stage_word(x.stage);
    let current = words_of(x.current);
    let first = float64::to_word(x.trial.first);
    let second = float64::to_word(x.trial.second);
    let decrease = float64::to_word(x.decrease);
    let best = words_of(x.best);
    // each word by its place, since there is no joining of arrays without a buffer to copy into
    [
        stage,
        u64::from(x.seed),
        u64::from(x.round),
        u64::from(x.reduction),
        current[0],
        current[1],
        current[2],
        current[3],
        current[4],
        current[5],
        current[6],
        current[7],
        current[8],
        first,
        second,
        decrease,
        best[0],
        best[1],
        best[2],
        best[3],
        best[4],
        best[5],
        best[6],
        best[7],
        best[8],
    ]
}
