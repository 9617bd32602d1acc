// Evaluations: individual values, the check of the observations, and a subject's sums from a reply.
ghost use Rattle.std.specs.Prelude.{◌≡◌};
ghost use Rattle.float64.specs.Answer.{number_of, or_old};
ghost use Rattle.subject.specs.Subject.{individual_values};
ghost use Rattle.test_exports.specs.Evaluations.{pair_of, floats_of, answered, evaluated};
ghost use Rattle.test_exports.specs.Evaluations.{evaluate, check_all};

use likelihood::population_focei::Observation;
use test_exports::evaluations::Question;

// Writes the individual values and answers 0 where they are finite and above 0; else answers 7, and nothing
// is written (`subject::individual_values`).
#[unsafe(no_mangle)]
pub extern "C" fn curlewstand_individual_values(
    theta: &[f64; 2],
    eta: &[f64; 2],
    effects: u32,
    individual: &mut [f64; 2],
) -> u32
    ensures value { result ≡ number_of (individual_values (pair_of theta.now) (pair_of eta.now) effects) }
    ensures individual_after { individual.new
        ≡ or_old individual.old
        (floats_of (individual_values (pair_of theta.now) (pair_of eta.now) effects)) }
{
    test_exports::evaluations::curlewstand_individual_values(theta, eta, effects, individual)
}

// A subject's evaluation, from a reply to its sums. The rows are written to the trial block of the work
// words. Answers 0 and writes the seven words of the sums to `out`; or answers document 01's number and
// writes to word 7 of `out` one more than the number of the observation, 0 where it is of none.
#[unsafe(no_mangle)]
pub extern "C" fn curlewstand_evaluate(
    observations: &[Observation],
    question: Question,
    reply: &[u64],
    work: &mut [u64],
    out: &mut [u64],
) -> u32
    ensures { evaluated result work.new out.new
        ≡ evaluate observations.now question reply.now work.old out.old }
{
    test_exports::evaluations::curlewstand_evaluate(observations, question, reply, work, out)
}

// Document 01's check 4 of every observation; `counts` are the subjects' numbers of observations. Answers 0;
// or 4, with the subject and the observation's number within it written to `place`.
#[unsafe(no_mangle)]
pub extern "C" fn curlewstand_check_observations(
    observations: &[Observation],
    width: u32,
    counts: &[u64],
    place: &mut [u64],
) -> u32
    ensures { answered result place.new
        ≡ check_all observations.now width counts.now place.old }
{
    test_exports::evaluations::curlewstand_check_observations(observations, width, counts, place)
}
