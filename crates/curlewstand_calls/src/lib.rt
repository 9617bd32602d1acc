// Whole sessions for C and Rust: setup, new objective, reply and failure, with the tally record and the run
// of observations by reference, and the state and the answer as lent words (see `host_calls`). Each function
// is defined for every input, refuses what is not right with document 01's number and place, and its contract
// gives all that it answers and writes. What is lent to be written must overlap nothing else that is lent to
// the same call.
//
// All that decides anything is by value, in `host_calls` and the crates below it; here the tally is copied
// out, the observations are gone through, and the tally is written back. `figures` has what a host is told
// besides.
#![tactic(auto)]

ghost use Rattle.std.specs.Prelude.{◌≡◌};
ghost use Rattle.session.specs.Session.{all_checked, objective, reply as replies, failure};
ghost use Rattle.host_calls.specs.Hosting.{setup_of, parameters_of, out, setup_over, call_over, done_with};

pub mod figures;

use host_calls::{SessionParameters, SessionSetup};
use likelihood::population_focei::Observation;
use search::Tally;
use subject::Check;

// ---- what is lent

// The check of all the observations.
fn check_lent(setup: SessionSetup, observations: &[Observation], counts: &[u64]) -> Check
    ensures { result ≡ all_checked (setup_of setup) counts.now observations.now }
{
    let first = subject::checks::first_check();
    let n = observations.len();
    observations::check_observations(observations, 0, n, first, setup.width, counts)
}

// ---- the calls

// Opens a session where words enough are lent for its state and 1 to 5 pass: tally, kept, work and warm words
// are zeroed. Gives document 01's number, 0 where nothing is refused.
#[unsafe(no_mangle)]
pub extern "C" fn curlewstand_setup(
    setup: SessionSetup,
    observations: &[Observation],
    counts: &[u64],
    tally: &mut Tally,
    state: &mut [u64],
    answer: &mut [u64],
    cache: &mut [u64],
    work: &mut [u64],
    warm: &mut [u64],
    results: &[u64],
) -> u32
    ensures { out (done_with result tally.new) state.new answer.new cache.new work.new
        warm.new results.now
        ≡ setup_over (setup_of setup) counts.now observations.now tally.old state.old
        answer.old cache.old work.old warm.old results.now }
{
    let before = observations::tally_now(tally);
    let check = check_lent(setup, observations, counts);
    let n = observations.len();
    let opened = host_calls::calls::open(
        setup, before, check, n, counts, state, answer, cache, work, warm, results,
    );
    observations::keep_tally(tally, opened.tally);
    opened.number
}

// Begins an objective, and runs on until it has a question or an end. Gives document 01's number, 0 where
// nothing is refused.
#[unsafe(no_mangle)]
pub extern "C" fn curlewstand_objective(
    setup: SessionSetup,
    parameters: SessionParameters,
    observations: &[Observation],
    counts: &[u64],
    tally: &mut Tally,
    state: &mut [u64],
    answer: &mut [u64],
    cache: &[u64],
    work: &mut [u64],
    warm: &mut [u64],
    results: &mut [u64],
) -> u32
    ensures { out (done_with result tally.new) state.new answer.new cache.now work.new
        warm.new results.new
        ≡ call_over (setup_of setup) counts.now observations.now tally.old state.old
        answer.old cache.now work.old warm.old results.old
        (objective (parameters_of parameters)) }
{
    let before = observations::tally_now(tally);
    let check = check_lent(setup, observations, counts);
    let n = observations.len();
    let begun = host_calls::calls::begin_objective(
        setup, parameters, before, check, n, counts, state, answer, cache, work, warm, results,
    );
    observations::keep_tally(tally, begun.tally);
    begun.number
}

// Takes the simulator's reply to the question that was asked, and runs on until it has a question or an end.
// The reply's words are rows: time, side (0 pre, any other post), `width` values, then `width` derivatives
// for each effect. Gives document 01's number, 0 where nothing is refused.
#[unsafe(no_mangle)]
pub extern "C" fn curlewstand_reply(
    setup: SessionSetup,
    observations: &[Observation],
    counts: &[u64],
    reply: &[u64],
    tally: &mut Tally,
    state: &mut [u64],
    answer: &mut [u64],
    cache: &mut [u64],
    work: &mut [u64],
    warm: &mut [u64],
    results: &mut [u64],
) -> u32
    ensures { out (done_with result tally.new) state.new answer.new cache.new work.new
        warm.new results.new
        ≡ call_over (setup_of setup) counts.now observations.now tally.old state.old
        answer.old cache.old work.old warm.old results.old
        (replies reply.now) }
{
    let before = observations::tally_now(tally);
    let check = check_lent(setup, observations, counts);
    let taken = observations::reply_checked(
        setup,
        before,
        check,
        false,
        observations,
        counts,
        reply,
        state,
        answer,
        cache,
        work,
        warm,
        results,
    );
    observations::keep_tally(tally, taken.tally);
    taken.number
}

// The simulator failed: the objective ends with 8. Gives document 01's number.
#[unsafe(no_mangle)]
pub extern "C" fn curlewstand_failure(
    setup: SessionSetup,
    observations: &[Observation],
    counts: &[u64],
    tally: &mut Tally,
    state: &mut [u64],
    answer: &mut [u64],
    cache: &[u64],
    work: &mut [u64],
    warm: &[u64],
    results: &[u64],
) -> u32
    ensures { out (done_with result tally.new) state.new answer.new cache.now work.new
        warm.now results.now
        ≡ call_over (setup_of setup) counts.now observations.now tally.old state.old
        answer.old cache.now work.old warm.now results.now failure }
{
    let before = observations::tally_now(tally);
    let check = check_lent(setup, observations, counts);
    let n = observations.len();
    let failed = host_calls::calls::fail(
        setup, before, check, n, counts, state, answer, cache, work, warm, results,
    );
    observations::keep_tally(tally, failed.tally);
    failed.number
}
