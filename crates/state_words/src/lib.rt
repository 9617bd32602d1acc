// A session's state as 44 words, for a host that keeps it, loaded (`load`) and saved (`save`):
//  0 whether it awaits a reply;
//  1 theta, 3 omega, 4 whether there is an additive override, 5 the override, or 0;
//  6 individual values, 8 subject, 9 its first observation, 10 warm start, 12 ofv, 13 eta_squares;
// 14 the kept evaluations' oldest, next, first_row and next_row;
// 18 how many effects the search has, 1 or 2; 19 its twenty words (`one_effect`) and five zeros, which are not
//    looked at again, or its twenty-five (`two_effects`).
// A float is its word, and a bool is 1 or 0. The layout is what is promised, so each word is written
// out. Each public function is defined for all words and states.
#![tactic(auto)]

ghost use Rattle.std.specs.Prelude.{◌≡◌, ◌+◌, ◌≤◌, ◌<◌, length};
ghost use Rattle.state_words.specs.SessionWords.{state_size, additive_at, order_at, parameters_at, progress_at, state_at};
ghost use Rattle.state_words.specs.SessionWords.{with_search, loaded_state, answer, objective_words, progress_words, order_words};
ghost use Rattle.state_words.specs.SessionWords.{search_words, put_from, saved_state};
ghost use Rattle.state_words.specs.SearchWords2.{pair_at};

pub mod one_effect;
pub mod two_effects;

use cache::CacheOrder;
use matrix::Pair;
use search::{Progress, SubjectSearch};
use session::State;
use setup::Parameters;

// How many words a state has.
pub const STATE_WORDS: usize = 44;

// ---- the state of words

// The words stay a slice and not an array of 44, since what `load` promises is of all that is lent.

// The pair of the two words from i on.
#[tactic(auto, unfolding(crate::specs::SearchWords2::pair_at))]
fn pair_at(words: &[u64], i: usize) -> Pair
    requires { i + 1 < length words.now }
    ensures { result ≡ pair_at words.now i }
{
    Pair {
        first: float64::from_word(words[i]),
        second: float64::from_word(words[i + 1]),
    }
}

#[tactic(auto, unfolding(crate::specs::SessionWords::additive_at, float64::specs::Pick::pick))]
fn additive_at(words: &[u64]) -> Option<f64>
    requires { state_size ≤ length words.now }
    ensures { result ≡ additive_at words.now }
{
    if words[4] == 1 {
        return Some(float64::from_word(words[5]));
    }
    None
}

#[tactic(auto, unfolding(crate::specs::SessionWords::parameters_at))]
fn parameters_at(words: &[u64]) -> Parameters
    requires { state_size ≤ length words.now }
    ensures { result ≡ parameters_at words.now }
{
    Parameters {
        theta: pair_at(words, 1),
        omega: float64::from_word(words[3]),
        additive_sd: additive_at(words),
    }
}

#[tactic(auto, unfolding(crate::specs::SessionWords::progress_at))]
fn progress_at(words: &[u64], search: SubjectSearch) -> Progress
    requires { state_size ≤ length words.now }
    ensures { result ≡ progress_at words.now search }
{
    Progress {
        awaits: words[0] == 1,
        individual: pair_at(words, 6),
        subject: words[8] as usize,
        first: words[9] as usize,
        warm: pair_at(words, 10),
        search,
        ofv: float64::from_word(words[12]),
        eta_squares: float64::from_word(words[13]),
    }
}

#[tactic(auto, unfolding(crate::specs::SessionWords::order_at))]
fn order_at(words: &[u64]) -> CacheOrder
    requires { state_size ≤ length words.now }
    ensures { result ≡ order_at words.now }
{
    CacheOrder {
        oldest: words[14] as usize,
        next: words[15] as usize,
        first_row: words[16] as usize,
        next_row: words[17] as usize,
    }
}

#[tactic(auto, unfolding(crate::specs::SessionWords::state_at))]
fn state_at(words: &[u64], search: SubjectSearch) -> State
    requires { state_size ≤ length words.now }
    ensures { result ≡ state_at words.now search }
{
    State {
        parameters: parameters_at(words),
        progress: progress_at(words, search),
        order: order_at(words),
    }
}

// The state with its search, by the number of effects that it has.
fn with_search(words: &[u64]) -> Option<State>
    requires { state_size ≤ length words.now }
    ensures { answer result ≡ with_search words.now }
{
    if words[18] == 1 {
        let x = one_effect::load(&words[19..])?;
        return Some(state_at(words, SubjectSearch::One(x)));
    }
    if words[18] == 2 {
        let x = two_effects::load(&words[19..])?;
        return Some(state_at(words, SubjectSearch::Two(x)));
    }
    None
}

// The state that lent words stand for. They are no state where there are too few, where a bool is above 1,
// where the search has neither one effect nor two, or where its words are no search.
#[tactic(auto, unfolding(crate::specs::SessionWords::loaded_state, crate::specs::SessionWords::answer, float64::specs::Pick::pick))]
pub fn load(words: &[u64]) -> Option<State>
    ensures { answer result ≡ loaded_state words.now }
{
    if words.len() < STATE_WORDS || words[0] > 1 || words[4] > 1 {
        return None;
    }
    with_search(words)
}

// ---- the words of a state

// The words before the progress's own: whether it awaits, and the parameters.
fn objective_words(awaits: bool, parameters: Parameters) -> [u64; 6]
    ensures { result ≡ objective_words awaits parameters }
{
    let awaits_word = u64::from(awaits);
    let theta0 = float64::to_word(parameters.theta.first);
    let theta1 = float64::to_word(parameters.theta.second);
    let omega = float64::to_word(parameters.omega);
    match parameters.additive_sd {
        None => [awaits_word, theta0, theta1, omega, 0, 0],
        Some(sd) => [awaits_word, theta0, theta1, omega, 1, float64::to_word(sd)],
    }
}

#[tactic(auto, unfolding(crate::specs::SessionWords::progress_words))]
fn progress_words(progress: Progress) -> [u64; 8]
    ensures { result ≡ progress_words progress }
{
    [
        float64::to_word(progress.individual.first),
        float64::to_word(progress.individual.second),
        progress.subject as u64,
        progress.first as u64,
        float64::to_word(progress.warm.first),
        float64::to_word(progress.warm.second),
        float64::to_word(progress.ofv),
        float64::to_word(progress.eta_squares),
    ]
}

#[tactic(auto, unfolding(crate::specs::SessionWords::order_words))]
fn order_words(order: CacheOrder) -> [u64; 4]
    ensures { result ≡ order_words order }
{
    [
        order.oldest as u64,
        order.next as u64,
        order.first_row as u64,
        order.next_row as u64,
    ]
}

// Writes the values from word `from` on, where they all have a place: a plain copy.
fn put_lent(from: usize, values: &[u64], words: &mut [u64])
    requires { from + length values.now ≤ length words.old }
    ensures { words.new ≡ put_from from values.now words.old }
{
    words[from..from + values.len()].copy_from_slice(values);
}

// Writes the values from word `from` on one by one, and nothing beyond the end.
fn put_each(from: usize, values: &[u64], words: &mut [u64])
    requires { from < state_size }
    ensures { words.new ≡ put_from from values.now words.old }
{
    for (i, value) in values.iter().enumerate() {
        words::put(words, from + i, *value);
    }
}

// Writes the values from word `from` on, and nothing beyond the end.
fn put_from(from: usize, values: &[u64], words: &mut [u64])
    requires { from < state_size }
    ensures { words.new ≡ put_from from values.now words.old }
{
    if from + values.len() <= words.len() {
        put_lent(from, values, words);
        return;
    }
    put_each(from, values, words);
}

// Writes how many effects the search has, and its words. With one effect there are five less of them: the
// last five words of the state are then 0.
fn put_search(search: SubjectSearch, words: &mut [u64])
    ensures { words.new ≡ put_from 18 (search_words search) words.old }
{
    match search {
        SubjectSearch::One(x) => {
            let own = one_effect::save(x);
            words::put(words, 18, 1);
            put_from(19, &own, words);
            put_from(39, &[0; 5], words);
        }
        SubjectSearch::Two(x) => {
            let own = two_effects::save(x);
            words::put(words, 18, 2);
            put_from(19, &own, words);
        }
    }
}

// Writes the words of a state to the first of the lent words, or as many of them as are lent.
pub fn save(state: State, words: &mut [u64])
    ensures { words.new ≡ saved_state state words.old }
{
    let progress = state.progress;
    let objective = objective_words(progress.awaits, state.parameters);
    let position = progress_words(progress);
    let order = order_words(state.order);
    put_from(0, &objective, words);
    put_from(6, &position, words);
    put_from(14, &order, words);
    put_search(progress.search, words);
}
