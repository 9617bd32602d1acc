// Setup, new objective and failure with the state and the answer as words (see lib.rt). The tally goes by
// value here, and of the observations there is what was found of them. Each function is defined for all
// values and words. Words that are no state are refused with 19, and so is a setup that is lent too few for
// one. The three are alike but for the call that each hands on, with what that call takes.
ghost use Rattle.std.specs.Prelude.{◌≡◌};
ghost use Rattle.host_calls.specs.Hosting.{setup_of, parameters_of, out, open_with, objective_with, failure_with};

use super::{Done, SessionParameters, SessionSetup};
use search::Tally;
use subject::Check;

// Setup: opens a session where enough words are lent for its state and 1 to 5 pass, and writes the state and
// the answer.
#[tactic(auto, unfolding(crate::specs::Hosting::open_with, float64::specs::Pick::pick))]
pub fn open(
    setup: SessionSetup,
    tally: Tally,
    check: Check,
    observations: usize,
    counts: &[u64],
    state: &mut [u64],
    answer: &mut [u64],
    cache: &mut [u64],
    work: &mut [u64],
    warm: &mut [u64],
    results: &[u64],
) -> Done
    ensures { out result state.new answer.new cache.new work.new warm.new
        results.now
        ≡ open_with (setup_of setup) counts.now observations check tally state.old answer.old
        cache.old work.old warm.old results.now }
{
    if state.len() < state_words::STATE_WORDS {
        return super::no_state(tally, answer);
    }
    let set_up = session_calls::open(
        super::setup_of(setup),
        tally,
        check,
        observations,
        counts,
        cache,
        work,
        warm,
        results,
    );
    super::opened(set_up, state, answer)
}

// A new objective: begins it where it is accepted, runs it until there is a question or an end, and writes
// the state and the answer.
pub fn begin_objective(
    setup: SessionSetup,
    parameters: SessionParameters,
    tally: Tally,
    check: Check,
    observations: usize,
    counts: &[u64],
    state: &mut [u64],
    answer: &mut [u64],
    cache: &[u64],
    work: &mut [u64],
    warm: &mut [u64],
    results: &mut [u64],
) -> Done
    ensures { out result state.new answer.new cache.now work.new warm.new
        results.new
        ≡ objective_with (setup_of setup) counts.now observations check tally state.old answer.old
        cache.now work.old warm.old results.old (parameters_of parameters) }
{
    let Some(at) = state_words::load(state) else {
        return super::no_state(tally, answer);
    };
    let begun = session_calls::begin_objective(
        super::setup_of(setup),
        super::parameters_of(parameters),
        at,
        tally,
        check,
        observations,
        counts,
        cache,
        work,
        warm,
        results,
    );
    super::told(begun, state, answer)
}

// The simulator failed: where the failure is accepted, the objective ends with 8. The state and the answer
// are written.
pub fn fail(
    setup: SessionSetup,
    tally: Tally,
    check: Check,
    observations: usize,
    counts: &[u64],
    state: &mut [u64],
    answer: &mut [u64],
    cache: &[u64],
    work: &mut [u64],
    warm: &[u64],
    results: &[u64],
) -> Done
    ensures { out result state.new answer.new cache.now work.new warm.now
        results.now
        ≡ failure_with (setup_of setup) counts.now observations check tally state.old answer.old
        cache.now work.old warm.now results.now }
{
    let Some(at) = state_words::load(state) else {
        return super::no_state(tally, answer);
    };
    let failed = session_calls::fail(
        super::setup_of(setup),
        at,
        tally,
        check,
        observations,
        counts,
        cache,
        work,
        warm,
        results,
    );
    super::told(failed, state, answer)
}
