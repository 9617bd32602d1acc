// What crosses to a host that keeps the state and takes the answer as words: the setup and the parameters as
// it gives them, and a call's answer, state and tally as it gets them. The calls are in `calls`, a reply's
// two parts in `replies`, the shrinkage in `figures`. Each function is defined for all values and words.
//
// The state is the words of `state_words`. A refusal with 1 to 5 or 19 alters nothing but the answer.
//
// The answer is five words: 0 for a question, then both etas and both individual values; 1 for an end, then
// the objective (0 for setup) and zeros; 2 for a refusal, then its number, 0 for no place, 1 for a subject
// and 2 for an observation, the subject and the observation.
#![tactic(auto)]

ghost use Rattle.std.specs.Prelude.{◌≡◌};
ghost use Rattle.search.specs.declared.Place.TheVariants.{Nowhere};
ghost use Rattle.host_calls.specs.Hosting.{setup_of, parameters_of, setup_from, setup_bits, parameters_from, parameter_bits};
ghost use Rattle.host_calls.specs.Hosting.{place_words, answer_of, answered, number_of, is_unaltered, told_as, told, no_state, opened};

pub mod calls;
pub mod figures;
pub mod replies;

use matrix::Pair;
use search::{Place, Refusal, Step, Tally};
use session::{Begun, Called};
use setup::{Parameters, Setup};

// The setup of a session as a host gives it: `additive` overrides the observations' own deviations where
// `has_additive`, a flag since C has no Option.
#[repr(C)]
#[derive(Clone, Copy)]
pub struct SessionSetup {
    pub effects: u32,
    pub omega_00: f64,
    pub omega_01: f64,
    pub omega_10: f64,
    pub omega_11: f64,
    pub eta_bound: f64,
    pub gradient_tolerance: f64,
    pub width: u32,
    pub k: usize,
    pub has_additive: bool,
    pub additive: f64,
    pub output_budget: u32,
    pub max_evaluations: u32,
}

// The parameters of an objective as a host gives them: theta, the second theta with two effects, and with one
// effect omega and an additive override where `has_additive`, a flag since C has no Option.
#[repr(C)]
#[derive(Clone, Copy)]
pub struct SessionParameters {
    pub theta: f64,
    pub theta_2: f64,
    pub omega: f64,
    pub has_additive: bool,
    pub additive: f64,
}

// What a call gives back beside the words: document 01's number as C gets it, 0 where nothing is refused, and the
// tally.
#[derive(Clone, Copy)]
pub struct Done {
    pub number: u32,
    pub tally: Tally,
}

// The five words of an answer.
#[derive(Clone, Copy)]
pub struct AnswerWords {
    pub kind: u64,
    pub first: u64,
    pub second: u64,
    pub third: u64,
    pub fourth: u64,
}

// ---- what a host gives

// The setup as the session has it. Whatever a host gives, this is the setup that its bits stand for.
pub fn setup_of(setup: SessionSetup) -> Setup
    ensures { (result ≡ setup_of setup) × (setup_of setup ≡ setup_from (setup_bits setup)) }
{
    Setup {
        effects: setup.effects,
        omega00: setup.omega_00,
        omega01: setup.omega_01,
        omega10: setup.omega_10,
        omega11: setup.omega_11,
        eta_bound: setup.eta_bound,
        gradient_tolerance: setup.gradient_tolerance,
        width: setup.width,
        k: setup.k,
        additive_sd: subject::additive_sd(setup.has_additive, setup.additive),
        output_budget: setup.output_budget,
        max_evaluations: setup.max_evaluations,
    }
}

// The parameters as the session has them. Whatever a host gives, these are the parameters that their bits
// stand for.
pub fn parameters_of(parameters: SessionParameters) -> Parameters
    ensures { (result ≡ parameters_of parameters) × (parameters_of parameters ≡ parameters_from (parameter_bits parameters)) }
{
    Parameters {
        theta: Pair {
            first: parameters.theta,
            second: parameters.theta_2,
        },
        omega: parameters.omega,
        additive_sd: subject::additive_sd(parameters.has_additive, parameters.additive),
    }
}

// ---- what a host gets

// Zeros, for the words that an answer has no use for.
const NO_WORDS: AnswerWords = AnswerWords {
    kind: 0,
    first: 0,
    second: 0,
    third: 0,
    fourth: 0,
};

#[tactic(auto, unfolding(crate::specs::Hosting::place_words))]
fn place_words(refusal: Refusal) -> AnswerWords
    ensures { result ≡ place_words refusal.number refusal.place }
{
    let number = refusal.number;
    match refusal.place {
        Place::Nowhere => AnswerWords {
            kind: 2,
            first: number as u64,
            ..NO_WORDS
        },
        Place::Subject(subject) => AnswerWords {
            kind: 2,
            first: number as u64,
            second: 1,
            third: subject as u64,
            ..NO_WORDS
        },
        Place::Observation(subject, observation) => AnswerWords {
            kind: 2,
            first: number as u64,
            second: 2,
            third: subject as u64,
            fourth: observation as u64,
        },
    }
}

#[tactic(auto, unfolding(crate::specs::Hosting::answer_of))]
fn answer_of(step: Step) -> AnswerWords
    ensures { result ≡ answer_of step }
{
    match step {
        Step::Asked(eta, individual) => AnswerWords {
            kind: 0,
            first: float64::to_word(eta.first),
            second: float64::to_word(eta.second),
            third: float64::to_word(individual.first),
            fourth: float64::to_word(individual.second),
        },
        Step::Finished(objective) => AnswerWords {
            kind: 1,
            first: float64::to_word(objective),
            ..NO_WORDS
        },
        Step::Refused(refusal) => place_words(refusal),
    }
}

#[tactic(auto, unfolding(crate::specs::Hosting::answered))]
fn write_answer(words: AnswerWords, answer: &mut [u64])
    ensures { answer.new ≡ answered words answer.old }
{
    // one by one, since a host may lend fewer than five
    words::put(answer, 0, words.kind);
    words::put(answer, 1, words.first);
    words::put(answer, 2, words.second);
    words::put(answer, 3, words.third);
    words::put(answer, 4, words.fourth);
}

#[tactic(auto, unfolding(crate::specs::Hosting::number_of))]
fn number_of(step: Step) -> u32
    ensures { result ≡ number_of step }
{
    match step {
        Step::Asked(_, _) | Step::Finished(_) => 0,
        Step::Refused(refusal) => refusal.number,
    }
}

// Whether this is the number of a refusal that alters nothing: 1 to 5 or 19.
#[tactic(auto, unfolding(crate::specs::Hosting::is_unaltered, float64::specs::Pick::pick))]
fn is_unaltered(number: u32) -> bool
    ensures { result ≡ is_unaltered number }
{
    matches!(number, 1..=5 | 19)
}

// Hands a call's answer to the host: writes the answer's words, and the state's unless the call was refused
// and alters nothing.
#[tactic(auto, unfolding(crate::specs::Hosting::told, float64::specs::Pick::pick))]
pub fn told(called: Called, state: &mut [u64], answer: &mut [u64]) -> Done
    ensures { told_as result state.new answer.new ≡ told called state.old answer.old }
{
    let number = number_of(called.step);
    write_answer(answer_of(called.step), answer);
    if !is_unaltered(number) {
        state_words::save(called.state, state);
    }
    Done {
        number,
        tally: called.tally,
    }
}

// The answer where the lent words are no state: 19.
pub fn no_state(tally: Tally, answer: &mut [u64]) -> Done
    ensures { (result ≡ no_state tally) × (answer.new ≡ answered (place_words 19 Nowhere) answer.old) }
{
    let refusal = Refusal {
        number: 19,
        place: Place::Nowhere,
    };
    write_answer(place_words(refusal), answer);
    Done { number: 19, tally }
}

// Hands the answer of setup to the host: writes the answer's words, and the state's where a session was
// opened.
#[tactic(auto, unfolding(crate::specs::Hosting::opened, crate::specs::Hosting::opened_to))]
pub fn opened(begun: Begun, state: &mut [u64], answer: &mut [u64]) -> Done
    ensures { told_as result state.new answer.new ≡ opened begun state.old answer.old }
{
    let tally = begun.tally;
    match begun.opening {
        Ok(next) => {
            write_answer(
                AnswerWords {
                    kind: 1,
                    ..NO_WORDS
                },
                answer,
            );
            state_words::save(next, state);
            Done { number: 0, tally }
        }
        Err(refusal) => {
            write_answer(place_words(refusal), answer);
            Done {
                number: refusal.number,
                tally,
            }
        }
    }
}
