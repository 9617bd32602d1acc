// Evaluations: individual values, the check of the observations, and a subject's sums from a reply.
ghost use Rattle.std.specs.Prelude.{◌≡◌};
ghost use Rattle.float64.specs.Answer.{number_of, or_old};
ghost use Rattle.subject.specs.Subject.{individual_values, finish};
ghost use Rattle.test_exports.specs.Evaluations.{pair_of, floats_of, beginning, sums_written, answered, told, evaluated};
ghost use Rattle.test_exports.specs.Evaluations.{evaluate, told_check, check_all};

use likelihood::population_focei::Observation;
use matrix::Pair;
use subject::{Check, Evaluation, EvaluationError, Sums, Trial};

// The question that a reply answers: the subject's observations are those from `from` up to, but without,
// `to`; `additive` overrides their own where `has_additive` (C has no Option); the trial block of the work words begins at word
// `block`.
#[repr(C)]
#[derive(Clone, Copy)]
pub struct Question {
    pub from: usize,
    pub to: usize,
    pub individual: f64,
    pub individual_2: f64,
    pub has_additive: bool,
    pub additive: f64,
    pub width: u32,
    pub effects: u32,
    pub output_budget: u32,
    pub block: usize,
}

// An evaluation that begins, with the bounds of the observations that it is over and what their rows are
// computed with.
#[derive(Clone, Copy)]
pub struct Begun {
    pub from: usize,
    pub to: usize,
    pub evaluation: Evaluation,
    pub trial: Trial,
}

// Writes the individual values and answers 0 where they are finite and above 0; else answers 7, and nothing
// is written (`subject::individual_values`).
pub fn curlewstand_individual_values(
    theta: &[f64; 2],
    eta: &[f64; 2],
    effects: u32,
    individual: &mut [f64; 2],
) -> u32
    ensures value { result ≡ number_of (individual_values (pair_of theta.now) (pair_of eta.now) effects) }
    ensures individual_after { individual.new
        ≡ or_old individual.old
        (floats_of (individual_values (pair_of theta.now) (pair_of eta.now) effects)) }
{
    match subject::individual_values(pair_of(*theta), pair_of(*eta), effects) {
        Some(values) => {
            *individual = [values.first, values.second];
            0
        }
        None => 7,
    }
}

#[tactic(auto, unfolding(crate::specs::Evaluations::pair_of))]
pub(crate) fn pair_of(floats: [f64; 2]) -> Pair
    ensures { result ≡ pair_of floats }
{
    let [first, second] = floats;
    Pair { first, second }
}

#[tactic(auto, unfolding(crate::specs::Evaluations::beginning))]
fn beginning(question: Question, reply: &[u64]) -> Begun
    ensures { result ≡ beginning question reply.now }
{
    Begun {
        from: question.from,
        to: question.to,
        evaluation: subject::begin(
            reply,
            question.width,
            question.effects,
            question.output_budget,
        ),
        trial: Trial {
            individual: Pair {
                first: question.individual,
                second: question.individual_2,
            },
            additive_sd: subject::additive_sd(question.has_additive, question.additive),
            width: question.width,
            effects: question.effects,
            block: question.block,
        },
    }
}

#[tactic(auto, unfolding(crate::specs::Evaluations::sums_written))]
fn write_sums(sums: Sums, out: &mut [u64])
    ensures { out.new ≡ sums_written sums out.old }
{
    words::put(out, 0, float64::to_word(sums.nll));
    words::put(out, 1, float64::to_word(sums.score.first));
    words::put(out, 2, float64::to_word(sums.score.second));
    words::put(out, 3, float64::to_word(sums.information.m00));
    words::put(out, 4, float64::to_word(sums.information.m01));
    words::put(out, 5, float64::to_word(sums.information.m10));
    words::put(out, 6, float64::to_word(sums.information.m11));
}

// Writes the end of an evaluation as a number and words: 0 and the seven words of the sums; or document 01's
// number, and in word 7 one more than the number of the observation, 0 where it is of none.
fn told(evaluation: Evaluation, out: &mut [u64]) -> u32
    ensures { answered result out.new ≡ told (finish evaluation) out.old }
{
    match subject::finish(evaluation) {
        Ok(sums) => {
            write_sums(sums, out);
            0
        }
        Err(EvaluationError::Refused(number)) => {
            words::put(out, 7, 0);
            number
        }
        Err(EvaluationError::RefusedAt(number, observation)) => {
            words::put(out, 7, (observation as u64).wrapping_add(1));
            number
        }
    }
}

// A subject's evaluation, from a reply to its sums. The rows are written to the trial block of the work
// words. Answers 0 and writes the seven words of the sums to `out`; or answers document 01's number and
// writes to word 7 of `out` one more than the number of the observation, 0 where it is of none.
pub fn curlewstand_evaluate(
    observations: &[Observation],
    question: Question,
    reply: &[u64],
    work: &mut [u64],
    out: &mut [u64],
) -> u32
    ensures { evaluated result work.new out.new
        ≡ evaluate observations.now question reply.now work.old out.old }
{
    let start = beginning(question, reply);
    let evaluation = observations::add_observations(
        observations,
        start.from,
        start.to,
        start.evaluation,
        start.trial,
        reply,
        work,
    );
    told(evaluation, out)
}

// Answers 0; or 4, with the two words of the place written.
#[tactic(auto, unfolding(crate::specs::Evaluations::told_check, subject::specs::Observations::verdict))]
fn told_check(check: Check, place: &mut [u64]) -> u32
    ensures { answered result place.new ≡ told_check check place.old }
{
    match check {
        Ok(_) => 0,
        Err(at) => {
            words::put(place, 0, at.subject as u64);
            words::put(place, 1, at.observation as u64);
            4
        }
    }
}

// Document 01's check 4 of every observation; `counts` are the subjects' numbers of observations. Answers 0;
// or 4, with the subject and the observation's number within it written to `place`.
#[tactic(auto, unfolding(crate::specs::Evaluations::check_all))]
pub fn curlewstand_check_observations(
    observations: &[Observation],
    width: u32,
    counts: &[u64],
    place: &mut [u64],
) -> u32
    ensures { answered result place.new
        ≡ check_all observations.now width counts.now place.old }
{
    let first = subject::checks::first_check();
    let check = observations::check_observations(
        observations,
        0,
        observations.len(),
        first,
        width,
        counts,
    );
    told_check(check, place)
}
