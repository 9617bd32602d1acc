// One subject's search within an objective, by value, with one effect or two: the types, what the searches of
// an objective have in common, how a subject's search begins, and the answers of a step. `points` has what a
// search wants and what an evaluated point makes of it, `questions` the key of an evaluation and the question
// for it, `objective` what a mode adds to the objective. Each function is defined for all values.
#![tactic(auto)]

ghost use Rattle.std.specs.Prelude.{◌≡◌};
ghost use Rattle.search.specs.Subjects.{fit_with, fit2, fit_in, one_of, two_of, first_search, begin_subject};
ghost use Rattle.search.specs.Subjects.{idle, refusal, refused_by, is_over};
ghost use Rattle.search.specs.declared.Place.TheVariants.{Subject};

pub mod objective;
pub mod points;
pub mod questions;

use matrix::{Matrix, Pair};
use mode::population_focei::Search;
use mode_2d::population_focei_2d::Search2;
use setup::Setup;
use work::Sources;

// The source's `calls`: how many evaluations were asked for. A type of its own, so that it is never added to
// rows.
#[repr(C)]
#[derive(Clone, Copy)]
pub struct Calls(pub u32);

// The source's `cached_rows`: how many rows are kept. A type of its own, so that it is never added to
// evaluations.
#[repr(C)]
#[derive(Clone, Copy)]
pub struct CachedRows(pub usize);

// Document 01's tally: the evaluations so far, and the rows that are kept.
#[repr(C)]
#[derive(Clone, Copy)]
pub struct Tally {
    pub calls: Calls,
    pub cached_rows: CachedRows,
}

// What the searches of an objective have in common, made of the setup and the objective's own parameters:
// omega with one effect; with two its inverse (the precision) and its determinant.
#[derive(Clone, Copy)]
pub struct Fit {
    pub effects: u32,
    pub eta_bound: f64,
    pub tolerance: f64,
    pub omega: f64,
    pub precision: Matrix,
    pub det_omega: f64,
    pub theta: Pair,
    pub additive_sd: Option<f64>,
    pub k: usize,
    pub max_evaluations: u32,
}

// A subject's search, by the number of effects. A session has searches of one kind only, so that its state
// holds one of the two.
#[derive(Clone, Copy)]
pub enum SubjectSearch {
    One(Search),
    Two(Search2),
}

// Where an objective stands: whether a reply is awaited, and then the individual values that were asked for;
// the subject, the number of its first observation among all, its warm start and its search; the objective's
// sum so far, and the sum of the squares of eta. The individual values stay once they are answered, and the
// state's words keep them: so the flag stands beside them.
#[derive(Clone, Copy)]
pub struct Progress {
    pub awaits: bool,
    pub individual: Pair,
    pub subject: usize,
    pub first: usize,
    pub warm: Pair,
    pub search: SubjectSearch,
    pub ofv: f64,
    pub eta_squares: f64,
}

// What a refusal is about: nothing in particular, a subject, or a subject and one of its observations.
#[derive(Clone, Copy)]
pub enum Place {
    Nowhere,
    Subject(usize),
    Observation(usize, usize),
}

// Why something is refused: document 01's number and its place.
#[derive(Clone, Copy)]
pub struct Refusal {
    pub number: u32,
    pub place: Place,
}

// The answer of a step: a question, with eta and the individual values; the finished objective; or a refusal.
#[derive(Clone, Copy)]
pub enum Step {
    Asked(Pair, Pair),
    Finished(f64),
    Refused(Refusal),
}

// The end of a step: where the objective stands, the tally, and the answer.
#[derive(Clone, Copy)]
pub struct Halted {
    pub progress: Progress,
    pub tally: Tally,
    pub step: Step,
}

// A search with one evaluation more, and the blocks from which the blocks of the work words get their rows.
#[derive(Clone, Copy)]
pub struct Advanced {
    pub progress: Progress,
    pub sources: Sources,
}

// A mode that has passed check 16: eta, the negative log likelihood there, and what it adds to the objective.
#[derive(Clone, Copy)]
pub struct Mode {
    pub eta: Pair,
    pub nll: f64,
    pub term: f64,
}

// ---- what the searches of an objective have in common

// The precision and the determinant of an accepted omega; without an inverse all are 0.
#[tactic(auto, unfolding(crate::specs::Subjects::fit2, crate::specs::Subjects::fit_by, matrix::specs::Matrix::answer))]
fn fit_2d(setup: Setup, theta: Pair) -> Fit
    ensures { result ≡ fit2 setup theta }
{
    let omega = [
        [setup.omega00, setup.omega01],
        [setup.omega10, setup.omega11],
    ];
    match matrix::inverse_positive(omega) {
        Some(det) => fit_with(setup, theta, matrix::inverse(omega, det), det),
        None => fit_with(setup, theta, [[0.0, 0.0], [0.0, 0.0]], 0.0),
    }
}

#[tactic(auto, unfolding(crate::specs::Subjects::fit_with))]
fn fit_with(setup: Setup, theta: Pair, precision: [[f64; 2]; 2], det_omega: f64) -> Fit
    ensures { result ≡ fit_with setup theta precision det_omega }
{
    Fit {
        effects: setup.effects,
        eta_bound: setup.eta_bound,
        tolerance: mode::population_focei::eta_tolerance(setup.gradient_tolerance),
        omega: setup.omega00,
        precision: matrix::matrix_of(precision),
        det_omega,
        theta,
        additive_sd: setup.additive_sd,
        k: setup.k,
        max_evaluations: setup.max_evaluations,
    }
}

// What the searches of an objective have in common, by its own setup (`setup::with_parameters`) and theta.
#[tactic(auto, unfolding(float64::specs::Pick::pick))]
pub fn fit_of(own: Setup, theta: Pair) -> Fit
    ensures { result ≡ fit_in own theta }
{
    if own.effects == 2 {
        return fit_2d(own, theta);
    }
    fit_with(own, theta, [[0.0, 0.0], [0.0, 0.0]], 0.0)
}

// ---- a subject's search

// The search with one effect. One with two, which only a state from outside a session has, counts as one that
// has asked for nothing.
pub fn one_of(search: SubjectSearch) -> Search
    ensures { result ≡ one_of search }
{
    match search {
        SubjectSearch::One(own) => own,
        SubjectSearch::Two(_) => Search::start(),
    }
}

// The search with two effects; one with one counts as one that has asked for nothing.
pub fn two_of(search: SubjectSearch) -> Search2
    ensures { result ≡ two_of search }
{
    match search {
        SubjectSearch::One(_) => Search2::start(),
        SubjectSearch::Two(own) => own,
    }
}

#[tactic(auto, unfolding(crate::specs::Subjects::first_search, float64::specs::Pick::pick))]
fn first_search(effects: u32) -> SubjectSearch
    ensures { result ≡ first_search effects }
{
    if effects == 2 {
        return SubjectSearch::Two(Search2::start());
    }
    SubjectSearch::One(Search::start())
}

// Where an objective stands as a subject's search begins: `first` is the number of the subject's first
// observation among all, `warm` its warm start, and the sums are those of the subjects before.
#[tactic(auto, unfolding(crate::specs::Subjects::begin_subject))]
pub fn begin_subject(
    effects: u32,
    subject: usize,
    first: usize,
    warm: Pair,
    ofv: f64,
    eta_squares: f64,
) -> Progress
    ensures { result ≡ begin_subject effects subject first warm ofv eta_squares }
{
    Progress {
        awaits: false,
        individual: Pair {
            first: 0.0,
            second: 0.0,
        },
        subject,
        first,
        warm,
        search: first_search(effects),
        ofv,
        eta_squares,
    }
}

// ---- the answers of a step

// No reply is awaited any more.
#[tactic(auto, unfolding(crate::specs::Subjects::idle, crate::specs::Subjects::with_search))]
fn idle(progress: Progress) -> Progress
    ensures { result ≡ idle progress }
{
    Progress {
        awaits: false,
        ..progress
    }
}

// The end of a step in a refusal that ends the objective: no reply is awaited any more.
#[tactic(auto, unfolding(crate::specs::Subjects::refused_by))]
pub fn refused(progress: Progress, tally: Tally, refusal: Refusal) -> Halted
    ensures { result ≡ refused_by progress tally refusal }
{
    Halted {
        progress: idle(progress),
        tally,
        step: Step::Refused(refusal),
    }
}

// The same about the subject that is searched.
pub fn refused_here(progress: Progress, tally: Tally, number: u32) -> Halted
    ensures { result ≡ refused_by progress tally (refusal number (Subject progress.subject)) }
{
    let place = Place::Subject(progress.subject);
    refused(progress, tally, Refusal { number, place })
}

// Whether the answer of a step ends the objective: everything but a question does.
#[tactic(auto, unfolding(crate::specs::Subjects::is_over))]
pub fn is_over(step: Step) -> bool
    ensures { result ≡ is_over step }
{
    !matches!(step, Step::Asked(_, _))
}
