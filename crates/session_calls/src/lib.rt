// A session's calls over lent words: setup (`open`), a new objective (`begin_objective`), the second part of
// a reply (`finish_reply`) and a failure of the simulator (`fail`). All but setup come to a run of the
// objective (`run`), to a refusal that ends it (`ended_as`) or to one that alters nothing. The tally goes by
// value here, and of the observations there is what was found of them: how many there are, and their check.
// What is lent goes by slices of its own, as the C interface lends it. Each function is defined for all values
// and words.
#![tactic(auto)]

ghost use Rattle.std.specs.Prelude.{◌≡◌, length};
ghost use Rattle.words.specs.Words.{zeros};
ghost use Rattle.population.specs.Kept.{cache_of, words};
ghost use Rattle.population.specs.Steps.{whole_from};
ghost use Rattle.session.specs.Session.{held, enter_objective, enter_failure};
ghost use Rattle.session_calls.specs.Refusals.{refusal_of};
ghost use Rattle.session.specs.Calls.{called, run_in, refused_as, ended_as, held_of, entered};
ghost use Rattle.session.specs.Calls.{begun_with, opened_by, followed, finish_reply};

use matrix::Pair;
use mode_2d::population_focei_2d::CEILING;
use population::kept_points::Evaluated;
use search::{CachedRows, Calls, Fit, Place, Refusal, Tally};
use session::{Admitted, Begun, Called, State};
use setup::{AdmissionError, Parameters, Setup};
use subject::{Check, Evaluation, EvaluationError};
use work::MOST_SUBJECTS;

// The requests that a call may make: for each of the most subjects, the points of the longest search and its
// end.
pub const FUEL: usize = MOST_SUBJECTS * (CEILING as usize + 1);

// Runs an objective from where it stands, with what is in hand, until there is a question or an end.
pub fn run(
    fit: Fit,
    state: State,
    hand: Option<Evaluated>,
    tally: Tally,
    counts: &[u64],
    cache: &[u64],
    work: &mut [u64],
    warm: &mut [u64],
    results: &mut [u64],
) -> Called
    ensures { called result cache.now work.new warm.new results.new
        ≡ run_in fit counts.now
        (held words state.parameters
        (whole_from fit counts.now hand state.progress tally (cache_of cache.now state.order)
        work.old warm.old results.old)) }
{
    let halted = population::steps::requests(
        fit,
        counts,
        state.order,
        state.progress,
        hand,
        tally,
        FUEL,
        cache,
        work,
        warm,
        results,
    );
    Called {
        state: State {
            progress: halted.progress,
            ..state
        },
        tally: halted.tally,
        step: halted.step,
    }
}

// A refusal that ends the objective: no reply is awaited any more, and the work words are cleared.
pub fn ended_as(state: State, tally: Tally, refusal: Refusal, work: &mut [u64]) -> Called
    ensures { (result ≡ ended_as state tally refusal) × (work.new ≡ zeros (length work.old)) }
{
    words::clear(work);
    let halted = search::refused(state.progress, tally, refusal);
    Called {
        state: State {
            progress: halted.progress,
            ..state
        },
        tally,
        step: halted.step,
    }
}

// ---- refusals that alter nothing

// What the answer says of a refusal of the checks: document 01's number, and with 4 the observation's place.
#[tactic(auto, unfolding(crate::specs::Refusals::refusal_of, crate::specs::Refusals::refused_by_verdict))]
fn refusal_of(error: AdmissionError) -> Refusal
    ensures { result ≡ refusal_of error }
{
    match error {
        AdmissionError::Refused(number) => Refusal {
            number,
            place: Place::Nowhere,
        },
        AdmissionError::Unsound(at) => Refusal {
            number: 4,
            place: Place::Observation(at.subject, at.observation),
        },
    }
}

// What a call gives back that the checks refuse: state and tally as they were.
fn kept_out(state: State, tally: Tally, error: AdmissionError) -> Called
    ensures { result ≡ refused_as state tally (refusal_of error) }
{
    session::refused_as(state, tally, refusal_of(error))
}

// ---- setup

// Opens a session where 1 to 5 pass: tally, kept, work and warm words are zeroed. Else it is refused, and
// nothing is altered.
pub fn open(
    setup: Setup,
    tally: Tally,
    check: Check,
    observations: usize,
    counts: &[u64],
    cache: &mut [u64],
    work: &mut [u64],
    warm: &mut [u64],
    results: &[u64],
) -> Begun
    ensures { begun_with result cache.new work.new warm.new
        ≡ opened_by setup counts.now observations check tally cache.old work.old warm.old
        results.now }
{
    let lent = session::lent_by(observations, cache, work, warm, results);
    match setup::checks::checks(setup, counts, lent, check) {
        Ok(()) => {
            words::clear(cache);
            words::clear(work);
            words::clear(warm);
            Begun {
                opening: Ok(session::first_state(setup)),
                tally: Tally {
                    calls: Calls(0),
                    cached_rows: CachedRows(0),
                },
            }
        }
        Err(error) => Begun {
            opening: Err(refusal_of(error)),
            tally,
        },
    }
}

// ---- a new objective

// Begins an objective where it is accepted (19, then 1 to 5), and runs it until there is a question or an
// end.
pub fn begin_objective(
    setup: Setup,
    parameters: Parameters,
    state: State,
    tally: Tally,
    check: Check,
    observations: usize,
    counts: &[u64],
    cache: &[u64],
    work: &mut [u64],
    warm: &mut [u64],
    results: &mut [u64],
) -> Called
    ensures { called result cache.now work.new warm.new results.new
        ≡ entered setup counts.now
        (enter_objective words setup counts.now observations check parameters
        (held_of state tally cache.now work.old warm.old results.old)) }
{
    let lent = session::lent_by(observations, cache, work, warm, results);
    match session::checks::admit_objective(setup, parameters, state, tally, check, lent, counts) {
        Ok(()) => {
            let own = setup::with_parameters(setup, parameters);
            let fit = search::fit_of(own, parameters.theta);
            let here = session::start_of(parameters, warm, setup.effects, state.order);
            run(fit, here, None, tally, counts, cache, work, warm, results)
        }
        Err(error) => kept_out(state, tally, error),
    }
}

// ---- the simulator failed

// The simulator failed: where the failure is accepted (19, then 1 to 5), the objective ends with 8.
pub fn fail(
    setup: Setup,
    state: State,
    tally: Tally,
    check: Check,
    observations: usize,
    counts: &[u64],
    cache: &[u64],
    work: &mut [u64],
    warm: &[u64],
    results: &[u64],
) -> Called
    ensures { called result cache.now work.new warm.now results.now
        ≡ entered setup counts.now
        (enter_failure words setup counts.now observations check
        (held_of state tally cache.now work.old warm.now results.now)) }
{
    let lent = session::lent_by(observations, cache, work, warm, results);
    let awaited = session::checks::admit_awaited(setup, state, tally, check, lent, counts);
    match awaited.admission {
        Ok(()) => {
            let failed = Refusal {
                number: 8,
                place: Place::Subject(state.progress.subject),
            };
            ended_as(state, tally, failed, work)
        }
        Err(error) => kept_out(state, tally, error),
    }
}

// ---- the second part of a reply
//
// The first part, `session::checks::admit_reply`, accepts the reply; between the two a loop adds the
// observations to its evaluation.

// What follows the end of an evaluation: it is kept and the searches go on with it, or its refusal ends the
// objective.
fn follow(
    fit: Fit,
    state: State,
    tally: Tally,
    eta: Pair,
    evaluation: Evaluation,
    counts: &[u64],
    cache: &mut [u64],
    work: &mut [u64],
    warm: &mut [u64],
    results: &mut [u64],
) -> Called
    ensures { called result cache.new work.new warm.new results.new
        ≡ followed fit counts.now eta evaluation
        (held_of state tally cache.old work.old warm.old results.old) }
{
    let subject = state.progress.subject;
    match subject::finish(evaluation) {
        Ok(sums) => {
            let kept = population::answers::keep(
                fit,
                counts,
                state.order,
                subject,
                tally,
                eta,
                sums,
                cache,
                work,
            );
            let next = State {
                order: kept.order,
                ..state
            };
            let hand = Some(Evaluated { eta, sums });
            run(
                fit, next, hand, kept.tally, counts, cache, work, warm, results,
            )
        }
        Err(EvaluationError::Refused(number)) => {
            let place = Place::Subject(subject);
            ended_as(state, tally, Refusal { number, place }, work)
        }
        Err(EvaluationError::RefusedAt(number, observation)) => {
            let place = Place::Observation(subject, observation);
            ended_as(state, tally, Refusal { number, place }, work)
        }
    }
}

// The second part of a reply: `admitted` is what the first part answered, and `evaluation` the one that the
// observations were added to. The evaluation is kept and the objective runs on until there is a question or
// an end; or it is refused, which ends the objective; or the reply was not accepted, and nothing is altered.
pub fn finish_reply(
    state: State,
    tally: Tally,
    admitted: Admitted,
    evaluation: Evaluation,
    counts: &[u64],
    cache: &mut [u64],
    work: &mut [u64],
    warm: &mut [u64],
    results: &mut [u64],
) -> Called
    ensures { called result cache.new work.new warm.new results.new
        ≡ finish_reply counts.now admitted.awaited evaluation
        (held_of state tally cache.old work.old warm.old results.old) }
{
    let awaited = admitted.awaited;
    match awaited.admission {
        Ok(()) => follow(
            awaited.fit,
            state,
            tally,
            awaited.eta,
            evaluation,
            counts,
            cache,
            work,
            warm,
            results,
        ),
        Err(error) => kept_out(state, tally, error),
    }
}
