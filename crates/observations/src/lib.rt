// The only readers of lent structs: the observations, which are checked (4) and added to an evaluation one
// after the other, and the tally, which is copied out before a call decides anything and written back after
// it. Each public function is defined for all values and words.
#![tactic(auto)]

ghost use Rattle.std.specs.Prelude.{◌≡◌, ◌-◌, length, take, drop};
ghost use Rattle.subject.specs.Subject.{evaluating, add_observations};
ghost use Rattle.subject.specs.Observations.{check_observations};
ghost use Rattle.host_calls.specs.Hosting.{setup_of, out};
ghost use Rattle.observations.specs.Lending.{evaluate_over, replied_over};

use host_calls::{Done, SessionSetup};
use likelihood::population_focei::Observation;
use search::Tally;
use session::Admitted;
use subject::runs::{Run, ZERO_OBSERVATION};
use subject::{Check, Evaluation, Trial};

// Lent observations.
#[derive(Clone, Copy)]
struct ObservationSlice<'a>(&'a [Observation]);

impl Run for ObservationSlice<'_> {
    ghost items = { λ run. run.0.now };

    fn count(self) -> usize {
        self.0.len()
    }

    // Reads a lent observation; no other function does.
    fn at(self, i: usize) -> Observation {
        if i < self.0.len() {
            return self.0[i];
        }
        ZERO_OBSERVATION
    }
}

// An evaluation with the observations from number `from` up to, but without, `to` added, one after the other:
// with a subject's, where these are its bounds.
pub fn add_observations(
    observations: &[Observation],
    from: usize,
    to: usize,
    evaluation: Evaluation,
    trial: Trial,
    reply: &[u64],
    work: &mut [u64],
) -> Evaluation
    ensures { evaluating result work.new
        ≡ add_observations trial reply.now (take (to - from) (drop from observations.now))
        (evaluating evaluation work.old) }
{
    let run = ObservationSlice(observations);
    subject::runs::add_run(run, from, to, evaluation, trial, reply, work)
}

// Document 01's check 4 with the observations from number `from` up to, but without, `to`, one after the
// other; `counts` are the subjects' numbers of observations.
pub fn check_observations(
    observations: &[Observation],
    from: usize,
    to: usize,
    check: Check,
    width: u32,
    counts: &[u64],
) -> Check
    ensures { result ≡ check_observations width counts.now (take (to - from) (drop from observations.now)) check }
{
    let run = ObservationSlice(observations);
    subject::runs::check_run(run, from, to, check, width, counts)
}

// ---- what a call of a session is lent by reference

// Copies out the tally as it is lent to a call.
pub fn tally_now(tally: &mut Tally) -> Tally
    ensures { (result ≡ tally.old) × (tally.new ≡ tally.old) }
{
    *tally
}

// Writes the tally back as a call leaves it.
pub fn keep_tally(tally: &mut Tally, value: Tally)
    ensures { tally.new ≡ value }
{
    *tally = value;
}

// Adds the observations of a reply to its evaluation; where the reply is not accepted there are none to add.
fn evaluate(
    observations: &[Observation],
    admitted: Admitted,
    reply: &[u64],
    work: &mut [u64],
) -> Evaluation
    ensures { evaluating result work.new
        ≡ evaluate_over observations.now admitted reply.now work.old }
{
    add_observations(
        observations,
        admitted.from,
        admitted.to,
        admitted.evaluation,
        admitted.trial,
        reply,
        work,
    )
}

// A reply, with the tally by value, where `check` is what was found of the observations: of those of the
// awaited subject `alone`, or of all subjects'.
pub fn reply_checked(
    setup: SessionSetup,
    tally: Tally,
    check: Check,
    alone: bool,
    observations: &[Observation],
    counts: &[u64],
    reply: &[u64],
    state: &mut [u64],
    answer: &mut [u64],
    cache: &mut [u64],
    work: &mut [u64],
    warm: &mut [u64],
    results: &mut [u64],
) -> Done
    ensures { out result state.new answer.new cache.new work.new warm.new
        results.new
        ≡ replied_over alone (setup_of setup) counts.now observations.now check tally state.old
        answer.old cache.old work.old warm.old results.old reply.now }
{
    let n = observations.len();
    let admitted = host_calls::replies::admit(
        setup,
        tally,
        check,
        alone,
        n,
        cache.len(),
        work.len(),
        warm.len(),
        results.len(),
        counts,
        reply,
        state,
    );
    let evaluation = evaluate(observations, admitted, reply, work);
    host_calls::replies::finish_reply(
        tally, admitted, evaluation, counts, state, answer, cache, work, warm, results,
    )
}
