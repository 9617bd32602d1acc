// The evaluation of a point, as an objective asks for it: the key under which it is kept, its sums as the
// words that are kept and back, and where it is not kept the question for it, with checks 6 and 7. By value;
// each public function is defined for all values.
ghost use Rattle.std.specs.Prelude.{◌≡◌, ◌<◌};
ghost use Rattle.search.specs.Subjects.{key1, key2, key_of, sums_of, terms_of, awaiting, counted, ask_for, ask};
ghost use Rattle.subject.specs.Subject.{answer};

use super::{Calls, Fit, Halted, Progress, Step, Tally, refused_here};
use cache::{CacheKey, CachedTerms};
use matrix::{Matrix, Pair};
use subject::Sums;

// ---- kept evaluations

// The key of an evaluation with one effect: subject, the bits of theta and eta, and of the override. Omega is
// not in it, since the kept score does not include the prior.
#[tactic(auto, unfolding(crate::specs::Subjects::key1))]
fn key_1d(fit: Fit, subject: usize, eta: Pair) -> CacheKey
    ensures { result ≡ key1 fit subject eta }
{
    // two words and not an `Option`, since a key is compared and hashed by its words
    let (has_additive, additive) = match fit.additive_sd {
        Some(sd) => (1, float64::to_word(sd)),
        None => (0, 0),
    };
    CacheKey {
        subject: subject as u64,
        theta0: float64::to_word(fit.theta.first),
        theta1: 0,
        eta0: float64::to_word(eta.first),
        eta1: 0,
        has_additive,
        additive,
    }
}

#[tactic(auto, unfolding(crate::specs::Subjects::key2))]
fn key_2d(fit: Fit, subject: usize, eta: Pair) -> CacheKey
    ensures { result ≡ key2 fit subject eta }
{
    CacheKey {
        subject: subject as u64,
        theta0: float64::to_word(fit.theta.first),
        theta1: float64::to_word(fit.theta.second),
        eta0: float64::to_word(eta.first),
        eta1: float64::to_word(eta.second),
        has_additive: 0,
        additive: 0,
    }
}

// The key under which the evaluation of a subject at eta is kept, the source's SubjectKey or with two effects
// CacheKey: subject, the bits of theta and eta, and with one effect of the override. Omega is not in it,
// since the kept score does not include the prior.
#[tactic(auto, unfolding(crate::specs::Subjects::key_of, float64::specs::Pick::pick))]
pub fn key_of(fit: Fit, subject: usize, eta: Pair) -> CacheKey
    ensures { result ≡ key_of fit subject eta }
{
    if fit.effects == 2 {
        return key_2d(fit, subject, eta);
    }
    key_1d(fit, subject, eta)
}

// The sums of a kept evaluation, from its words. It and `terms_of` are functions and not `From`, since both
// types are of other crates.
#[tactic(auto, unfolding(crate::specs::Subjects::sums_of))]
pub fn sums_of(terms: CachedTerms) -> Sums
    ensures { result ≡ sums_of terms }
{
    Sums {
        nll: float64::from_word(terms.nll),
        score: Pair {
            first: float64::from_word(terms.score0),
            second: float64::from_word(terms.score1),
        },
        information: Matrix {
            m00: float64::from_word(terms.i00),
            m01: float64::from_word(terms.i01),
            m10: float64::from_word(terms.i10),
            m11: float64::from_word(terms.i11),
        },
        observation: 0,
    }
}

// The words that are kept of an evaluation's sums.
#[tactic(auto, unfolding(crate::specs::Subjects::terms_of))]
pub fn terms_of(sums: Sums) -> CachedTerms
    ensures { result ≡ terms_of sums }
{
    CachedTerms {
        nll: float64::to_word(sums.nll),
        score0: float64::to_word(sums.score.first),
        score1: float64::to_word(sums.score.second),
        i00: float64::to_word(sums.information.m00),
        i01: float64::to_word(sums.information.m01),
        i10: float64::to_word(sums.information.m10),
        i11: float64::to_word(sums.information.m11),
    }
}

// ---- the question

#[tactic(auto, unfolding(crate::specs::Subjects::awaiting))]
fn awaiting(progress: Progress, individual: Pair) -> Progress
    ensures { result ≡ awaiting progress individual }
{
    Progress {
        awaits: true,
        individual,
        ..progress
    }
}

// The tally with one evaluation more.
#[tactic(auto, unfolding(crate::specs::Subjects::counted))]
fn counted(tally: Tally) -> Tally
    requires { tally.calls.0 < 4294967295 }
    ensures { result ≡ counted tally }
{
    Tally {
        calls: Calls(tally.calls.0 + 1),
        ..tally
    }
}

// Of an evaluation that is counted: 7 where its individual values are refused, else the question for it.
#[tactic(auto, unfolding(crate::specs::Subjects::ask_for, subject::specs::Subject::answer))]
fn ask_for(progress: Progress, tally: Tally, eta: Pair, values: Option<Pair>) -> Halted
    ensures { result ≡ ask_for progress tally eta (answer values) }
{
    match values {
        Some(individual) => Halted {
            progress: awaiting(progress, individual),
            tally,
            step: Step::Asked(eta, individual),
        },
        None => refused_here(progress, tally, 7),
    }
}

// What is done where the wanted point is not kept: 6 where no evaluation is left; else it is counted, and
// asked for.
#[tactic(auto, unfolding(crate::specs::Subjects::ask, float64::specs::Pick::pick))]
pub fn ask(fit: Fit, progress: Progress, tally: Tally, eta: Pair) -> Halted
    ensures { result ≡ ask fit progress tally eta }
{
    if tally.calls.0 < fit.max_evaluations {
        let values = subject::individual_values(fit.theta, eta, fit.effects);
        return ask_for(progress, counted(tally), eta, values);
    }
    refused_here(progress, tally, 6)
}
