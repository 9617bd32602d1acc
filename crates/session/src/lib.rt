// What a session's calls stand on, by value: what is handed from call to call, how a session and an objective
// begin, the shrinkage of a finished objective, and how many evaluations a search may ask for; whether a call
// is accepted is in `checks`. Of the observations there is what was found of them: how many there are, and
// their check. Each function is defined for all values and words.
#![tactic(auto)]

ghost use Rattle.std.specs.Prelude.{◌≡◌, length};
ghost use Rattle.session.specs.Calls.{lent_by, refused_as, start_of, first_state, shrinkage};
ghost use Rattle.session.specs.Figures.{has_mode, has_finished, ceiling_of};

pub mod checks;

use cache::CacheOrder;
use matrix::Pair;
use mode::population_focei::Stage;
use search::{Fit, Progress, Refusal, Step, Tally};
use setup::{Admission, Lent, Parameters, Setup};
use subject::{Evaluation, Trial};

const ZERO: Pair = Pair {
    first: 0.0,
    second: 0.0,
};

// What a host hands from call to call: the objective's parameters, where it stands, and the positions of the
// kept evaluations.
#[derive(Clone, Copy)]
pub struct State {
    pub parameters: Parameters,
    pub progress: Progress,
    pub order: CacheOrder,
}

// What a call after setup gives back: the state, the tally and the answer.
#[derive(Clone, Copy)]
pub struct Called {
    pub state: State,
    pub tally: Tally,
    pub step: Step,
}

// What setup gives back: the state of the session that it opened, or a refusal, which alters nothing; and the
// tally.
#[derive(Clone, Copy)]
pub struct Begun {
    pub opening: Result<State, Refusal>,
    pub tally: Tally,
}

// Whether a reply or a failure is accepted (19, then 1 to 5), the point that was asked for, and what the
// searches of its objective have in common.
#[derive(Clone, Copy)]
pub struct Awaited {
    pub admission: Admission,
    pub eta: Pair,
    pub fit: Fit,
}

// A reply, accepted or not: the evaluation that begins with it, and the numbers of the observations that it
// is over, from `from` up to, but without, `to`. Where it is not accepted there are none.
#[derive(Clone, Copy)]
pub struct Admitted {
    pub awaited: Awaited,
    pub from: usize,
    pub to: usize,
    pub evaluation: Evaluation,
    pub trial: Trial,
}

// ---- what is lent, and refusals

// How much is lent to a call: so many observations, and the words of these slices.
pub fn lent_by(
    observations: usize,
    cache: &[u64],
    work: &[u64],
    warm: &[u64],
    results: &[u64],
) -> Lent
    ensures { result ≡ lent_by
        observations (length cache.now) (length work.now) (length warm.now)
        (length results.now) }
{
    lent_of(
        observations,
        cache.len(),
        work.len(),
        warm.len(),
        results.len(),
    )
}

// How much is lent to a call: so many observations and so many words of each kind.
pub fn lent_of(observations: usize, cache: usize, work: usize, warm: usize, results: usize) -> Lent
    ensures { result ≡ lent_by observations cache work warm results }
{
    Lent {
        observations,
        work,
        cache,
        warm,
        results,
    }
}

// What a call gives back that is refused and alters nothing: state and tally as they were.
pub fn refused_as(state: State, tally: Tally, refusal: Refusal) -> Called
    ensures { result ≡ refused_as state tally refusal }
{
    Called {
        state,
        tally,
        step: Step::Refused(refusal),
    }
}

// ---- setup

// The state of a session that was just opened: nothing is asked yet, nothing is kept, and every warm start is
// zero.
pub fn first_state(setup: Setup) -> State
    ensures { result ≡ first_state setup }
{
    State {
        parameters: Parameters {
            theta: ZERO,
            omega: setup.omega00,
            additive_sd: setup.additive_sd,
        },
        progress: search::begin_subject(setup.effects, 0, 0, ZERO, 0.0, 0.0),
        order: CacheOrder {
            oldest: 1,
            next: 1,
            first_row: 0,
            next_row: 0,
        },
    }
}

// ---- a new objective

// The state as an objective begins: its parameters, the first subject's search from its warm start, and the
// kept evaluations as they are.
#[tactic(auto, unfolding(crate::specs::Calls::start_of))]
pub fn start_of(parameters: Parameters, warm: &[u64], effects: u32, order: CacheOrder) -> State
    ensures { result ≡ start_of parameters warm.now effects order }
{
    let first = population::warm_of(warm, effects, 0);
    State {
        parameters,
        progress: search::begin_subject(effects, 0, 0, first, 0.0, 0.0),
        order,
    }
}

// ---- a finished objective

// The shrinkage of a finished objective with one effect: 1 - ((sum of eta²) / n) / omega, over n subjects.
#[tactic(auto, unfolding(crate::specs::Calls::shrinkage))]
pub fn shrinkage(state: State, subjects: u32) -> f64
    ensures { result ≡ shrinkage state subjects }
{
    1.0 - state.progress.eta_squares / subjects as f64 / state.parameters.omega
}

// Whether a search with one effect may have its mode in this stage: on the grid and at the warm start there
// is always a point left to ask for, or a refusal.
#[tactic(auto, unfolding(crate::specs::Figures::has_mode))]
fn has_mode(stage: Stage) -> bool
    ensures { result ≡ has_mode stage }
{
    matches!(stage, Stage::Secant | Stage::Halving)
}

// Whether an objective stands where one with one effect is finished: no reply is awaited, the subject is the
// last one, and its search may have its mode. An objective that was refused at its last subject may stand
// there too. With two effects there is no shrinkage, and the answer is false.
#[tactic(auto, unfolding(crate::specs::Figures::has_finished, float64::specs::Pick::pick))]
pub fn has_finished(progress: Progress, subjects: usize) -> bool
    ensures { result ≡ has_finished progress subjects }
{
    !progress.awaits
        && subjects != 0
        && progress.subject == subjects - 1
        && has_mode(search::one_of(progress.search).stage)
}

// ---- what is to be booked

// The most evaluations that a subject's search asks for within an objective, by the number of effects: 0 where
// there is no session with so many.
#[tactic(auto, unfolding(crate::specs::Figures::ceiling_of, float64::specs::Pick::pick))]
pub fn ceiling(effects: u32) -> u32
    ensures { result ≡ ceiling_of effects }
{
    match effects {
        1 => mode::population_focei::CEILING,
        2 => mode_2d::population_focei_2d::CEILING,
        _ => 0,
    }
}
