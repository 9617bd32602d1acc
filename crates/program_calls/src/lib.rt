// A session's calls with the observations in lent words, for programs that read them from a file: the calls
// of `session_calls` with a check of the observations, and a reply's loop over them, that read words. An
// observation is five words: output, row, value, additive and proportional deviation, the floats by their
// bits. The tally goes by value. Each function is defined for all values and words.
#![tactic(auto)]

ghost use Rattle.std.specs.Prelude.{◌≡◌, ◌-◌, length, take, drop, get_or};
ghost use Rattle.float64.specs.Arithmetic.{word};
ghost use Rattle.subject.specs.Observations.{first_check, check_observations};
ghost use Rattle.subject.specs.Subject.{evaluating, add_observations};
ghost use Rattle.session.specs.Session.{objective, failure};
ghost use Rattle.program_calls.specs.Recorded.{observation_in, observations_of, call_of, reply_of, open_of};
ghost use Rattle.session.specs.Calls.{begun_with, called, held_of};

use likelihood::population_focei::Observation;
use search::Tally;
use session::{Begun, Called, State};
use setup::{Parameters, Setup};
use subject::runs::{Run, ZERO_OBSERVATION};
use subject::{Check, Evaluation, Trial};

// The words of an observation.
pub const OBSERVATION_WORDS: usize = 5;

fn float_at(words: &[u64], i: usize) -> f64
    ensures { result ≡ word (get_or words.now i 0) }
{
    float64::from_word(words::read(words, i))
}

// The number of whole observations in lent words.
pub fn count_of(words: &[u64]) -> usize
    ensures { result ≡ length (observations_of words.now) }
{
    words.len() / OBSERVATION_WORDS
}

// Observation i of lent words. Beyond the end every word is 0.
pub fn observation_at(words: &[u64], i: usize) -> Observation
    ensures { result ≡ observation_in words.now i }
{
    if words.len() <= i {
        return ZERO_OBSERVATION;
    }
    let at = OBSERVATION_WORDS * i;
    Observation {
        output: words::read(words, at) as usize,
        row: words::read(words, at + 1) as usize,
        value: float_at(words, at + 2),
        additive: float_at(words, at + 3),
        proportional: float_at(words, at + 4),
    }
}

// Observations in lent words.
#[derive(Clone, Copy)]
struct ObservationWords<'a>(&'a [u64]);

impl Run for ObservationWords<'_> {
    ghost items = { λ run. observations_of run.0.now };

    fn count(self) -> usize {
        count_of(self.0)
    }

    fn at(self, i: usize) -> Observation {
        observation_at(self.0, i)
    }
}

// Document 01's check 4 of all observations in lent words; `counts` are the subjects' numbers of
// observations.
pub fn check_words(words: &[u64], width: u32, counts: &[u64]) -> Check
    ensures { result ≡ check_observations width counts.now (observations_of words.now) first_check }
{
    let n = count_of(words);
    let first = subject::checks::first_check();
    subject::runs::check_run(ObservationWords(words), 0, n, first, width, counts)
}

// An evaluation with the observations from number `from` up to, but without, `to` added, one after the other:
// with a subject's, where these are its bounds.
pub fn add_words(
    words: &[u64],
    from: usize,
    to: usize,
    evaluation: Evaluation,
    trial: Trial,
    reply: &[u64],
    work: &mut [u64],
) -> Evaluation
    ensures { evaluating result work.new
        ≡ add_observations trial reply.now (take (to - from) (drop from (observations_of words.now)))
        (evaluating evaluation work.old) }
{
    let run = ObservationWords(words);
    subject::runs::add_run(run, from, to, evaluation, trial, reply, work)
}

// ---- the calls: each checks the observations in words and hands on what its own call of session_calls takes

// Setup: opens a session where 1 to 5 pass; tally, kept, work and warm words are zeroed.
pub fn open(
    setup: Setup,
    tally: Tally,
    observations: &[u64],
    counts: &[u64],
    cache: &mut [u64],
    work: &mut [u64],
    warm: &mut [u64],
    results: &[u64],
) -> Begun
    ensures { begun_with result cache.new work.new warm.new
        ≡ open_of setup counts.now observations.now tally cache.old work.old
        warm.old results.now }
{
    let check = check_words(observations, setup.width, counts);
    let n = count_of(observations);
    session_calls::open(setup, tally, check, n, counts, cache, work, warm, results)
}

// A new objective: begins it where it is accepted, and runs it until there is a question or an end.
pub fn objective(
    setup: Setup,
    parameters: Parameters,
    state: State,
    tally: Tally,
    observations: &[u64],
    counts: &[u64],
    cache: &[u64],
    work: &mut [u64],
    warm: &mut [u64],
    results: &mut [u64],
) -> Called
    ensures { called result cache.now work.new warm.new results.new
        ≡ call_of setup counts.now observations.now (objective parameters)
        (held_of state tally cache.now work.old warm.old results.old) }
{
    let check = check_words(observations, setup.width, counts);
    let n = count_of(observations);
    session_calls::begin_objective(
        setup, parameters, state, tally, check, n, counts, cache, work, warm, results,
    )
}

// The simulator's reply to the question that was asked: where it is accepted, its evaluation is kept and the
// objective runs on until there is a question or an end.
pub fn reply(
    setup: Setup,
    state: State,
    tally: Tally,
    observations: &[u64],
    counts: &[u64],
    reply: &[u64],
    cache: &mut [u64],
    work: &mut [u64],
    warm: &mut [u64],
    results: &mut [u64],
) -> Called
    ensures { called result cache.new work.new warm.new results.new
        ≡ call_of setup counts.now observations.now (reply_of reply.now)
        (held_of state tally cache.old work.old warm.old results.old) }
{
    let check = check_words(observations, setup.width, counts);
    let n = count_of(observations);
    let lent = session::lent_by(n, cache, work, warm, results);
    let admitted = session::checks::admit_reply(setup, state, tally, check, lent, counts, reply);
    let evaluation = add_words(
        observations,
        admitted.from,
        admitted.to,
        admitted.evaluation,
        admitted.trial,
        reply,
        work,
    );
    session_calls::finish_reply(
        state, tally, admitted, evaluation, counts, cache, work, warm, results,
    )
}

// The simulator failed: where the failure is accepted, the objective ends with 8.
pub fn failure(
    setup: Setup,
    state: State,
    tally: Tally,
    observations: &[u64],
    counts: &[u64],
    cache: &[u64],
    work: &mut [u64],
    warm: &[u64],
    results: &[u64],
) -> Called
    ensures { called result cache.now work.new warm.now results.now
        ≡ call_of setup counts.now observations.now failure
        (held_of state tally cache.now work.old warm.now results.now) }
{
    let check = check_words(observations, setup.width, counts);
    let n = count_of(observations);
    session_calls::fail(
        setup, state, tally, check, n, counts, cache, work, warm, results,
    )
}
