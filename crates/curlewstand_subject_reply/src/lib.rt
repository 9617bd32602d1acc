// A reply for C and Rust that lends the observations of the awaited subject alone: its time does not grow
// with the number of subjects. It is for a host that changes neither the counts nor any observation from call
// to call: then it does what `curlewstand_calls::curlewstand_reply` does (session_theorems,
// specs/SubjectReply.antt), which checks all observations at every call. It is defined for every input,
// refuses what is not right of what is lent with document 01's number and place, and its contract gives all
// that it answers and writes. What is lent to be written must overlap nothing else that is lent to the same
// call.
#![tactic(auto)]

ghost use Rattle.std.specs.Prelude.{◌≡◌};
ghost use Rattle.subject.specs.Observations.{check_observations};
ghost use Rattle.host_calls.specs.Hosting.{setup_of, out, done_with};
ghost use Rattle.host_calls.specs.SubjectReplies.{subject_checked, subject_reply_over};

use host_calls::SessionSetup;
use likelihood::population_focei::Observation;
use search::Tally;
use subject::Check;

// The check of the subject's observations, from the place where it begins.
fn check_subject(
    setup: SessionSetup,
    observations: &[Observation],
    counts: &[u64],
    first: Check,
) -> Check
    ensures { result ≡ check_observations (setup_of setup).width counts.now observations.now first }
{
    let n = observations.len();
    observations::check_observations(observations, 0, n, first, setup.width, counts)
}

// Takes the simulator's reply to the question that was asked, and runs on until it has a question or an end.
// The observations are those of the subject that was asked for, the counts those of all subjects. Gives
// document 01's number, 0 where nothing is refused.
#[unsafe(no_mangle)]
pub extern "C" fn curlewstand_subject_reply(
    setup: SessionSetup,
    observations: &[Observation],
    counts: &[u64],
    reply: &[u64],
    tally: &mut Tally,
    state: &mut [u64],
    answer: &mut [u64],
    cache: &mut [u64],
    work: &mut [u64],
    warm: &mut [u64],
    results: &mut [u64],
) -> u32
    ensures { out (done_with result tally.new) state.new answer.new cache.new work.new
        warm.new results.new
        ≡ subject_reply_over (setup_of setup) counts.now observations.now tally.old state.old
        answer.old cache.old work.old warm.old results.old reply.now }
{
    let before = observations::tally_now(tally);
    let first = host_calls::replies::subject_first(state);
    let check = check_subject(setup, observations, counts, first);
    let taken = observations::reply_checked(
        setup,
        before,
        check,
        true,
        observations,
        counts,
        reply,
        state,
        answer,
        cache,
        work,
        warm,
        results,
    );
    observations::keep_tally(tally, taken.tally);
    taken.number
}
