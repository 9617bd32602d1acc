// The two loops over a run of observations, which may be lent as structs or as words: their check (4), and what
// they add to an evaluation. Each function is defined for all values and words.
ghost use Rattle.std.specs.Prelude.{◌≡◌, ◌<◌, ◌-◌, List, length, take, drop};
ghost use Rattle.likelihood.specs.declared.population_focei.Observation.{Observation};
ghost use Rattle.subject.specs.Observations.{observation_at, check_observations};
ghost use Rattle.subject.specs.Subject.{evaluating, add_observations};

use super::{Check, Evaluation, Trial};
use likelihood::population_focei::Observation;
use words::smaller;

// An observation of words that are 0, for a place beyond the last.
pub const ZERO_OBSERVATION: Observation = Observation {
    output: 0,
    row: 0,
    value: 0.0,
    additive: 0.0,
    proportional: 0.0,
};

// Observations one after the other: how many they are, and each of them. Beyond the last, `at` is any observation.
pub trait Run: Copy {
    ghost items: { Self → List Observation };

    fn count(self) -> usize
        ensures { result ≡ length (items self) };

    fn at(self, i: usize) -> Observation
        ensures { i < length (items self) → result ≡ observation_at (items self) i };
}

// An evaluation with the observations from number `from` up to, but without, `to` added, one after the other:
// with a subject's, where these are its bounds. The first refusal ends it.
pub fn add_run<R: Run>(
    run: R,
    from: usize,
    to: usize,
    evaluation: Evaluation,
    trial: Trial,
    reply: &[u64],
    work: &mut [u64],
) -> Evaluation
    ensures { evaluating result work.new
        ≡ add_observations trial reply.now (take (to - from) (drop from (R.items run)))
        (evaluating evaluation work.old) }
{
    let end = smaller(to, run.count());
    // From turn to turn go the sums alone. In an evaluation a refusal shares their place, and the compiler adds each
    // of them by itself, which takes longer.
    let mut sums = evaluation?;
    for i in from..end {
        let observation = run.at(i);
        sums = super::rows::add_observation(Ok(sums), observation, trial, reply, work)?;
    }
    Ok(sums)
}

// Document 01's check 4 with the observations from number `from` up to, but without, `to`, one after the
// other; `counts` are the subjects' numbers of observations.
pub fn check_run<R: Run>(
    run: R,
    from: usize,
    to: usize,
    check: Check,
    width: u32,
    counts: &[u64],
) -> Check
    ensures { result ≡ check_observations width counts.now (take (to - from) (drop from (R.items run))) check }
{
    let end = smaller(to, run.count());
    let mut checked = check;
    for i in from..end {
        let observation = run.at(i);
        checked = super::checks::check_observation(checked, observation, width, counts);
    }
    checked
}
