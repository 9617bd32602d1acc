// What a subject's search asks for within an objective, and what an evaluated point makes of it, with one
// effect or two: the point that is wanted, the search afterwards, and from where the blocks of the work words
// get their rows. By value; each function is defined for all values.
ghost use Rattle.std.specs.Prelude.{◌≡◌};
ghost use Rattle.search.specs.Subjects.{settings, settings2, wanted1, wanted2, wanted_by, conditional1, conditional2, grid_sources};
ghost use Rattle.search.specs.Subjects.{bracket_sources, sources1, current_source, is_new_best, population_source, sources2, with_search};

use super::{Fit, Progress, SubjectSearch};
use matrix::Pair;
use mode::Request;
use mode::population_focei::{Conditional, Search, Settings, Stage, is_above, is_closer, is_under};
use mode_2d::population_focei_2d::{Conditional2, Search2, Settings2, Stage2, is_taken, joint};
use subject::Sums;
use work::Sources;

// ---- what the search wants

// The settings of a subject's search with one effect: those of the objective, and the subject's warm start.
#[tactic(auto, unfolding(crate::specs::Subjects::settings))]
pub fn settings(fit: Fit, progress: Progress) -> Settings
    ensures { result ≡ settings fit progress }
{
    Settings {
        eta_bound: fit.eta_bound,
        omega: fit.omega,
        tolerance: fit.tolerance,
        warm: progress.warm.first,
    }
}

// The settings of a subject's search with two effects: those of the objective, and the subject's warm start.
#[tactic(auto, unfolding(crate::specs::Subjects::settings2))]
pub fn settings_2d(fit: Fit, progress: Progress) -> Settings2
    ensures { result ≡ settings2 fit progress }
{
    Settings2 {
        eta_bound: fit.eta_bound,
        precision: fit.precision,
        warm: progress.warm,
    }
}

// What a search with one effect wants now, as for either number of effects: a point has 0 for its second
// value.
#[tactic(auto, unfolding(crate::specs::Subjects::wanted1))]
pub fn wanted_1d(settings: Settings, search: Search) -> Request<Pair>
    ensures { result ≡ wanted1 settings search }
{
    match search.request(settings) {
        Request::Point(eta) => Request::Point(Pair {
            first: eta,
            second: 0.0,
        }),
        Request::Mode => Request::Mode,
        Request::Refused(number) => Request::Refused(number),
    }
}

// What a search with two effects wants now, as for either number of effects.
#[tactic(auto, unfolding(crate::specs::Subjects::wanted2))]
pub fn wanted_2d(settings: Settings2, search: Search2) -> Request<Pair>
    ensures { result ≡ wanted2 settings search }
{
    match search.request(settings) {
        Request::Point(eta) => Request::Point(eta),
        Request::Mode => Request::Mode,
        Request::Refused(number) => Request::Refused(number),
    }
}

// What the subject's search wants now, with one effect or two.
#[tactic(auto, unfolding(crate::specs::Subjects::wanted_by, float64::specs::Pick::pick))]
pub fn wanted_by(fit: Fit, progress: Progress) -> Request<Pair>
    ensures { result ≡ wanted_by fit progress }
{
    if fit.effects == 2 {
        return wanted_2d(settings_2d(fit, progress), super::two_of(progress.search));
    }
    wanted_1d(settings(fit, progress), super::one_of(progress.search))
}

// ---- an evaluated point

// The evaluated point that a search with one effect is given, from the sums of an evaluation at eta. The
// prior's eta / omega is added to the score here, and never kept.
#[tactic(auto, unfolding(crate::specs::Subjects::conditional1))]
pub fn conditional(fit: Fit, eta: Pair, sums: Sums) -> Conditional
    ensures { result ≡ conditional1 fit eta sums }
{
    Conditional {
        eta: eta.first,
        nll: sums.nll,
        score: sums.score.first + eta.first / fit.omega,
        information: sums.information.m00,
    }
}

// The evaluated point that a search with two effects is given, from the sums of an evaluation at eta.
#[tactic(auto, unfolding(crate::specs::Subjects::conditional2))]
pub fn conditional_2d(eta: Pair, sums: Sums) -> Conditional2
    ensures { result ≡ conditional2 eta sums }
{
    Conditional2 {
        eta,
        nll: sums.nll,
        score: sums.score,
        information: sums.information,
    }
}

// One effect, on the grid: the ninth point is eta zero. The best is the closer end of the latest upward cell,
// as the search will have it once the grid is whole.
#[tactic(auto, using(float64::specs::Pick::picks), unfolding(crate::specs::Subjects::grid_sources))]
fn grid_sources(search: Search, c: Conditional) -> Sources
    ensures { result ≡ grid_sources search c }
{
    let best = if is_under(search.latest) && is_above(c) {
        if is_closer(search.latest, c) {
            work::LATEST
        } else {
            work::TRIAL
        }
    } else {
        work::BEST
    };
    let population = if search.count == 8 {
        work::TRIAL
    } else {
        work::POPULATION
    };
    Sources {
        population,
        best,
        latest: work::TRIAL,
    }
}

#[tactic(auto, using(float64::specs::Pick::picks), unfolding(crate::specs::Subjects::bracket_sources))]
fn bracket_sources(search: Search, c: Conditional) -> Sources
    ensures { result ≡ bracket_sources search c }
{
    Sources {
        population: work::POPULATION,
        best: if is_closer(c, search.best) {
            work::TRIAL
        } else {
            work::BEST
        },
        latest: work::LATEST,
    }
}

// With one effect: from where the blocks of the work words get their rows, as the search is given the point
// c.
#[tactic(auto, unfolding(crate::specs::Subjects::sources1, crate::specs::Subjects::sources_at))]
pub fn sources(search: Search, c: Conditional) -> Sources
    ensures { result ≡ sources1 search c }
{
    match search.stage {
        Stage::Grid => grid_sources(search, c),
        Stage::Warm | Stage::Secant | Stage::Halving => bracket_sources(search, c),
    }
}

// Two effects: the rounds' current point is the trial where it is a start, or is taken.
#[tactic(auto, unfolding(crate::specs::Subjects::current_source, crate::specs::Subjects::current_at, float64::specs::Pick::pick))]
fn current_source(settings: Settings2, search: Search2, c: Conditional2) -> usize
    ensures { result ≡ current_source settings search c }
{
    match search.stage {
        Stage2::Start => work::TRIAL,
        Stage2::Trial if is_taken(settings, search, c) => work::TRIAL,
        Stage2::Zero | Stage2::Trial | Stage2::Found | Stage2::Halted(_) => work::LATEST,
    }
}

// Whether the rounds of a start are over and its candidate is the best so far, which it is at the first
// start, and later where its joint is lower.
#[tactic(auto, unfolding(crate::specs::Subjects::is_new_best, float64::specs::Pick::pick))]
fn is_new_best(settings: Settings2, search: Search2, after: Search2) -> bool
    ensures { result ≡ is_new_best settings search after }
{
    search.seed < after.seed
        && (search.seed == 0 || joint(settings, after.current) < joint(settings, search.best))
}

#[tactic(auto, unfolding(crate::specs::Subjects::population_source, crate::specs::Subjects::population_at))]
fn population_source(search: Search2) -> usize
    ensures { result ≡ population_source search }
{
    match search.stage {
        Stage2::Zero => work::TRIAL,
        Stage2::Start | Stage2::Trial | Stage2::Found | Stage2::Halted(_) => work::POPULATION,
    }
}

// With two effects: from where the blocks of the work words get their rows, as the point c makes `after` of
// `search`.
#[tactic(auto, unfolding(crate::specs::Subjects::sources2, float64::specs::Pick::pick))]
pub fn sources_2d(settings: Settings2, search: Search2, after: Search2, c: Conditional2) -> Sources
    ensures { result ≡ sources2 settings search after c }
{
    let latest = current_source(settings, search, c);
    Sources {
        population: population_source(search),
        best: if is_new_best(settings, search, after) {
            latest
        } else {
            work::BEST
        },
        latest,
    }
}

// The objective with this search; no reply is awaited any more.
#[tactic(auto, unfolding(crate::specs::Subjects::with_search))]
pub fn with_search(progress: Progress, search: SubjectSearch) -> Progress
    ensures { result ≡ with_search progress search }
{
    Progress {
        awaits: false,
        search,
        ..progress
    }
}
