// Whether a call of a session is accepted, by value, before anything is written: document 01's check 19, then
// 1 to 5 again; and of a reply that is accepted what its observations are added to. Each function is defined
// for all values.
ghost use Rattle.std.specs.Prelude.{◌≡◌, ◌+◌, length};
ghost use Rattle.words.specs.Words.{smaller};
ghost use Rattle.session.specs.Calls.{stands, admit_objective, awaited_point, unawaited, awaited_for, admit_awaited, trial_by};
ghost use Rattle.session.specs.Calls.{nothing_admitted};
ghost use Rattle.session.specs.Calls.{unadmitted, admitted_over, admit_reply};
ghost use Rattle.session.specs.Session.{count_within, search_within, search_within2, is_placed};
ghost use Rattle.session.specs.SubjectReply.{admit_subject_reply};

use super::{Admitted, Awaited, State, ZERO};
use matrix::Pair;
use mode::Request;
use mode::population_focei::{Search, Stage};
use mode_2d::population_focei_2d::Search2;
use search::{Fit, Progress, Tally};
use setup::{Admission, AdmissionError, Lent, Parameters, Setup};
use subject::{Check, EvaluationError, Trial};

// ---- 19

#[tactic(auto, unfolding(crate::specs::Session::count_within, crate::specs::Session::search_within))]
fn search_within(search: Search) -> bool
    ensures { result ≡ search_within search }
{
    match search.stage {
        Stage::Grid => search.count < 18,
        Stage::Warm => search.count < 1,
        Stage::Secant => search.count < 16,
        Stage::Halving => search.count < 49,
    }
}

#[tactic(auto, unfolding(crate::specs::Session::search_within2, float64::specs::Pick::pick))]
fn search_within_2d(search: Search2) -> bool
    ensures { result ≡ search_within2 search }
{
    search.seed < 7 && search.round < 48 && search.reduction < 22
}

// The state's positions are within the subjects, the observations and the search's limits.
#[tactic(auto, unfolding(crate::specs::Session::is_placed, float64::specs::Pick::pick))]
fn is_placed(effects: u32, counts: &[u64], observations: usize, progress: Progress) -> bool
    ensures { result ≡ is_placed effects counts.now observations progress }
{
    if counts.len() <= progress.subject {
        return false;
    }
    let rows = population::rows_of(counts, progress.subject);
    if observations < rows || observations - rows < progress.first {
        return false;
    }
    if effects == 2 {
        return search_within_2d(search::two_of(progress.search));
    }
    search_within(search::one_of(progress.search))
}

// Whether the state's positions are in range as for `is_placed`, and the kept rows are at most K, those of the
// tally and those by the positions of the kept evaluations.
#[tactic(auto, unfolding(crate::specs::Session::is_standing, float64::specs::Pick::pick))]
fn is_standing(
    setup: Setup,
    counts: &[u64],
    observations: usize,
    state: State,
    tally: Tally,
) -> bool
    ensures { result ≡ stands setup counts.now observations state tally }
{
    tally.cached_rows.0 <= setup.k
        && population::answers::cached_rows(state.order) <= setup.k
        && is_placed(setup.effects, counts, observations, state.progress)
}

// ---- a new objective

// Whether a new objective is accepted: 19, then 1 to 5 with the objective's own parameters.
#[tactic(auto, unfolding(crate::specs::Calls::admit_objective, float64::specs::Pick::pick))]
pub fn admit_objective(
    setup: Setup,
    parameters: Parameters,
    state: State,
    tally: Tally,
    check: Check,
    lent: Lent,
    counts: &[u64],
) -> Admission
    ensures { result ≡ admit_objective setup counts.now lent check parameters state tally }
{
    if state.progress.awaits || !is_standing(setup, counts, lent.observations, state, tally) {
        return Err(AdmissionError::Refused(19));
    }
    let own = setup::with_parameters(setup, parameters);
    setup::checks::checks(own, counts, lent, check)
}

// ---- a reply, and its failure

// 19: a reply is awaited, and the state's positions are in range for so many observations; then what the
// search wants.
#[tactic(auto, unfolding(crate::specs::Calls::awaited_point, float64::specs::Pick::pick))]
fn awaited_point(
    setup: Setup,
    fit: Fit,
    state: State,
    tally: Tally,
    counts: &[u64],
    observations: usize,
) -> Request<Pair>
    ensures { result ≡ awaited_point setup counts.now observations fit state tally }
{
    if state.progress.awaits && is_standing(setup, counts, observations, state, tally) {
        return search::points::wanted_by(fit, state.progress);
    }
    Request::Refused(19)
}

// What the checks of the lent words and observations found, where a point is wanted; else 19.
#[tactic(auto, unfolding(crate::specs::Calls::awaited_for))]
fn awaited_for(fit: Fit, wanted: Request<Pair>, admission: Admission) -> Awaited
    ensures { result ≡ awaited_for fit admission wanted }
{
    match wanted {
        Request::Point(eta) => Awaited {
            admission,
            eta,
            fit,
        },
        Request::Mode | Request::Refused(_) => unawaited(fit),
    }
}

fn unawaited(fit: Fit) -> Awaited
    ensures { result ≡ unawaited fit }
{
    Awaited {
        admission: Err(AdmissionError::Refused(19)),
        eta: ZERO,
        fit,
    }
}

// Whether a reply or a failure is accepted where all observations are lent: 19, then 1 to 5; and the point
// that was asked for.
pub fn admit_awaited(
    setup: Setup,
    state: State,
    tally: Tally,
    check: Check,
    lent: Lent,
    counts: &[u64],
) -> Awaited
    ensures { result ≡ admit_awaited setup counts.now lent check state tally }
{
    let own = setup::with_parameters(setup, state.parameters);
    let fit = search::fit_of(own, state.parameters.theta);
    let wanted = awaited_point(setup, fit, state, tally, counts, lent.observations);
    awaited_for(fit, wanted, setup::checks::checks(own, counts, lent, check))
}

// The trial block of the subject's rows, and what its rows are computed with.
fn trial_by(setup: Setup, state: State, rows: usize) -> Trial
    ensures { result ≡ trial_by setup state rows }
{
    Trial {
        individual: state.progress.individual,
        additive_sd: state.parameters.additive_sd,
        width: setup.width,
        effects: setup.effects,
        block: work::block(rows, work::TRIAL),
    }
}

// The number after the last of the subject's observations, among those lent.
fn end_of(first: usize, rows: usize, observations: usize) -> usize
    ensures { result ≡ smaller (first + rows) observations }
{
    first.saturating_add(rows).min(observations)
}

// A reply over the observations lent from number `from` up to, but without, `to`: where it is accepted, its
// evaluation begins, with 8 and 9. The observations are added to the evaluation afterwards, one after the
// other.
#[tactic(auto, unfolding(crate::specs::Calls::admitted_over))]
fn admitted_over(
    setup: Setup,
    trial: Trial,
    reply: &[u64],
    awaited: Awaited,
    from: usize,
    to: usize,
) -> Admitted
    ensures { result ≡ admitted_over setup trial reply.now awaited from to awaited.admission }
{
    match awaited.admission {
        Ok(()) => Admitted {
            awaited,
            from,
            to,
            evaluation: subject::begin(reply, setup.width, setup.effects, setup.output_budget),
            trial,
        },
        Err(AdmissionError::Refused(number)) => nothing_admitted(awaited, trial, number),
        Err(AdmissionError::Unsound(_)) => nothing_admitted(awaited, trial, 4),
    }
}

// The first part of a reply that lends all observations: 19, 1 to 5, then 8 and 9.
pub fn admit_reply(
    setup: Setup,
    state: State,
    tally: Tally,
    check: Check,
    lent: Lent,
    counts: &[u64],
    reply: &[u64],
) -> Admitted
    ensures { result ≡ admit_reply setup counts.now lent check state tally reply.now }
{
    let awaited = admit_awaited(setup, state, tally, check, lent, counts);
    let first = state.progress.first;
    let rows = population::rows_of(counts, state.progress.subject);
    let trial = trial_by(setup, state, rows);
    let to = end_of(first, rows, lent.observations);
    admitted_over(setup, trial, reply, awaited, first, to)
}

// The first part of a reply that lends the observations of the awaited subject alone, of which `check` was
// found: 19, 1 to 5 of what is lent, then 8 and 9.
pub fn admit_subject_reply(
    setup: Setup,
    state: State,
    tally: Tally,
    check: Check,
    lent: Lent,
    counts: &[u64],
    reply: &[u64],
) -> Admitted
    ensures { result ≡ admit_subject_reply setup counts.now lent check state tally reply.now }
{
    let own = setup::with_parameters(setup, state.parameters);
    let fit = search::fit_of(own, state.parameters.theta);
    let wanted = awaited_point(setup, fit, state, tally, counts, work::MOST_ROWS);
    let subject = state.progress.subject;
    let admission = setup::checks::subject_checks(own, counts, subject, lent, check);
    let awaited = awaited_for(fit, wanted, admission);
    let rows = population::rows_of(counts, subject);
    let trial = trial_by(setup, state, rows);
    admitted_over(setup, trial, reply, awaited, 0, lent.observations)
}

fn nothing_admitted(awaited: Awaited, trial: Trial, number: u32) -> Admitted
    ensures { result ≡ nothing_admitted awaited trial number }
{
    Admitted {
        awaited,
        from: 0,
        to: 0,
        evaluation: Err(EvaluationError::Refused(number)),
        trial,
    }
}

// The first part of a reply where the lent words are no state: refused with 19. There are no parameters
// either, and theta counts as zero.
pub fn unadmitted(setup: Setup) -> Admitted
    ensures { result ≡ unadmitted setup }
{
    let trial = Trial {
        individual: ZERO,
        additive_sd: None,
        width: 0,
        effects: 0,
        block: 0,
    };
    nothing_admitted(unawaited(search::fit_of(setup, ZERO)), trial, 19)
}
