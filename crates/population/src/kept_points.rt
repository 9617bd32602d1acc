// The way of a subject's search through kept evaluations: as long as the point that it wants is kept, it goes
// on with what is kept of it. The loop carries the search alone and not the whole
// objective, since a value is copied wherever it is passed on.
ghost use Rattle.std.specs.Prelude.{◌≡◌, ℕ, List, Option};
ghost use Rattle.mode_2d.specs.Rules.{of};
ghost use Rattle.work.specs.Work.{block};
ghost use Rattle.cache.specs.Cache.{terms_of, copied};
ghost use Rattle.search.specs.Subjects.{sums_of, one_of, two_of, wanted1, wanted2};
ghost use Rattle.search.specs.declared.Fit.{Fit};
ghost use Rattle.search.specs.declared.Progress.{Progress};
ghost use Rattle.search.specs.declared.SubjectSearch.{SubjectSearch};
ghost use Rattle.search.specs.declared.SubjectSearch.TheVariants.{One, Two};
ghost use Rattle.mode.specs.declared.Request.{Request};
ghost use Rattle.matrix.specs.declared.Pair.{Pair};
ghost use Rattle.population.specs.declared.kept_points.Evaluated.{Evaluated};
ghost use Rattle.population.specs.Kept.{cache_of};
ghost use Rattle.population.specs.Population.{rows_of, Worked, worked};
ghost use Rattle.population.specs.Through.{is_over, eta_of, found_unless, taken1, taken2, through_from, Alike, IsOne, IsTwo};
ghost use Rattle.population.specs.Alone.{one_alike, two_alike};

use cache::CacheOrder;
use matrix::Pair;
use mode::Request;
use mode::population_focei::{Search, Settings};
use mode_2d::population_focei_2d::{Search2, Settings2};
use search::{Fit, Progress, SubjectSearch};
use subject::Sums;

// An evaluation of the point that a search asked for, which the search has not been given yet. Its rows are in
// the trial block.
#[derive(Clone, Copy)]
pub struct Evaluated {
    pub eta: Pair,
    pub sums: Sums,
}

// Where an objective's search has come to, the requests that are left, and what it wants now.
#[derive(Clone, Copy)]
pub struct Reached {
    pub progress: Progress,
    pub left: usize,
    pub wanted: Request<Pair>,
}

// ---- what is kept

// No request is left, or no point is wanted.
#[tactic(auto, unfolding(crate::specs::Through::is_over))]
fn is_over(left: usize, wanted: Request<Pair>) -> bool
    ensures { result ≡ is_over left wanted }
{
    match wanted {
        Request::Point(_) => left == 0,
        Request::Mode | Request::Refused(_) => true,
    }
}

// The point that is wanted; zero where none is.
#[tactic(auto, unfolding(crate::specs::Through::eta_of))]
fn eta_of(wanted: Request<Pair>) -> Pair
    ensures { result ≡ eta_of wanted }
{
    match wanted {
        Request::Point(eta) => eta,
        Request::Mode | Request::Refused(_) => Pair {
            first: 0.0,
            second: 0.0,
        },
    }
}

// The slot of the kept evaluation of a point, unless it is over. The loop of either kind calls it, so that it is
// compiled once, by itself; two floats are passed faster than a pair.
#[tactic(auto, unfolding(crate::specs::Through::found_unless, float64::specs::Pick::pick))]
fn kept_at(
    over: bool,
    fit: Fit,
    subject: usize,
    order: CacheOrder,
    first: f64,
    second: f64,
    cache: &[u64],
) -> Option<usize>
    ensures { result ≡ found_unless over fit subject (cache_of cache.now order) (of first second) }
{
    if over {
        return None;
    }
    let key = search::questions::key_of(fit, subject, Pair { first, second });
    cache::find(cache, fit.k, order, key)
}

// Copies the rows of a kept evaluation to the trial block.
fn recall_rows(k: usize, slot: usize, rows: usize, cache: &[u64], work: &mut [u64])
    ensures { work.new ≡ copied cache.now k slot rows work.old (block rows 3) }
{
    let trial = work::block(rows, work::TRIAL);
    cache::entries::copy_rows(cache, k, slot, rows, work, trial);
}

// The sums of a kept evaluation.
fn recall(k: usize, slot: usize, cache: &[u64]) -> Sums
    ensures { result ≡ sums_of (terms_of cache.now k slot) }
{
    search::questions::sums_of(cache::entries::terms_of(cache, k, slot))
}

// ---- a search alone

// A subject's search alone, with one effect or two, by its settings: what it wants, and what it makes of what is
// in hand. The rows of the trial block go to the blocks where the search has them.
trait Searching: Copy {
    type Search: Copy;

    ghost is_of: { Self → Fit → Progress → Type 0 };

    ghost own: { SubjectSearch → Self.Search };

    ghost among: { Self.Search → SubjectSearch };

    ghost alone: { Self → Fit → ℕ → Option Evaluated → Self.Search → List ℕ → Worked Self.Search };

    ghost wants: { Self → Self.Search → Request Pair };

    ghost alike: { Alike Self Self.Search is_of own among alone wants };

    fn own(search: SubjectSearch) -> Self::Search
        ensures { result ≡ own search };

    fn among(search: Self::Search) -> SubjectSearch
        ensures { result ≡ among search };

    fn take(
        self,
        fit: Fit,
        rows: usize,
        hand: Option<Evaluated>,
        search: Self::Search,
        work: &mut [u64],
    ) -> Self::Search
        ensures { worked result work.new ≡ alone self fit rows hand search work.old };

    fn wanted(self, search: Self::Search) -> Request<Pair>
        ensures { result ≡ wants self search };
}

#[tactic(auto, unfolding(crate::specs::Through::taken1))]
impl Searching for Settings {
    type Search = Search;

    ghost is_of = { IsOne };

    ghost own = { one_of };

    ghost among = { One };

    ghost alone = { λ s fit rows hand x work. taken1 fit s rows hand x work };

    ghost wants = { wanted1 };

    ghost alike = { one_alike };

    fn own(search: SubjectSearch) -> Search {
        search::one_of(search)
    }

    fn among(search: Search) -> SubjectSearch {
        SubjectSearch::One(search)
    }

    fn take(
        self,
        fit: Fit,
        rows: usize,
        hand: Option<Evaluated>,
        search: Search,
        work: &mut [u64],
    ) -> Search {
        match hand {
            None => search,
            Some(Evaluated { eta, sums }) => {
                let c = search::points::conditional(fit, eta, sums);
                let sources = search::points::sources(search, c);
                work::move_rows(work, rows, sources);
                search.advance(self, c)
            }
        }
    }

    fn wanted(self, search: Search) -> Request<Pair> {
        search::points::wanted_1d(self, search)
    }
}

#[tactic(auto, unfolding(crate::specs::Through::taken2))]
impl Searching for Settings2 {
    type Search = Search2;

    ghost is_of = { IsTwo };

    ghost own = { two_of };

    ghost among = { Two };

    ghost alone = { λ s fit rows hand x work. taken2 s rows hand x work };

    ghost wants = { wanted2 };

    ghost alike = { two_alike };

    fn own(search: SubjectSearch) -> Search2 {
        search::two_of(search)
    }

    fn among(search: Search2) -> SubjectSearch {
        SubjectSearch::Two(search)
    }

    fn take(
        self,
        _fit: Fit,
        rows: usize,
        hand: Option<Evaluated>,
        search: Search2,
        work: &mut [u64],
    ) -> Search2 {
        match hand {
            None => search,
            Some(Evaluated { eta, sums }) => {
                let c = search::points::conditional_2d(eta, sums);
                let after = search.advance(self, c);
                let sources = search::points::sources_2d(self, search, after, c);
                work::move_rows(work, rows, sources);
                after
            }
        }
    }

    fn wanted(self, search: Search2) -> Request<Pair> {
        search::points::wanted_2d(self, search)
    }
}

fn through_kept_by<S: Searching>(
    settings: S,
    fit: Fit,
    rows: usize,
    order: CacheOrder,
    start: Progress,
    hand: Option<Evaluated>,
    fuel: usize,
    cache: &[u64],
    work: &mut [u64],
) -> Reached
    requires { S.is_of settings fit start }
    ensures { worked result work.new
        ≡ through_from fit rows (cache_of cache.now order) fuel hand start work.old }
{
    let mut search = S::own(start.search);
    let mut left = fuel;
    let mut given = hand;
    // not over a range: what is left of the requests is part of the answer
    'kept: loop {
        search = settings.take(fit, rows, given, search, work);
        let wanted = settings.wanted(search);
        let over = is_over(left, wanted);
        let at = eta_of(wanted);
        match kept_at(over, fit, start.subject, order, at.first, at.second, cache) {
            Some(slot) => {
                left -= 1;
                recall_rows(fit.k, slot, rows, cache, work);
                given = Some(Evaluated {
                    eta: at,
                    sums: recall(fit.k, slot, cache),
                });
            }
            None => {
                break 'kept Reached {
                    progress: search::points::with_search(start, S::among(search)),
                    left,
                    wanted,
                };
            }
        }
    }
}

// ---- with one effect or two

// The subject's search with what is in hand, and then through at most `fuel` kept evaluations, until it wants
// a point that is not kept, its mode or a refusal.
pub fn through_kept(
    fit: Fit,
    counts: &[u64],
    order: CacheOrder,
    progress: Progress,
    hand: Option<Evaluated>,
    fuel: usize,
    cache: &[u64],
    work: &mut [u64],
) -> Reached
    ensures { worked result work.new
        ≡ through_from fit (rows_of counts.now progress.subject) (cache_of cache.now order) fuel hand progress
        work.old }
{
    let rows = super::rows_of(counts, progress.subject);
    if fit.effects == 2 {
        let settings = search::points::settings_2d(fit, progress);
        return through_kept_by(
            settings, fit, rows, order, progress, hand, fuel, cache, work,
        );
    }
    let settings = search::points::settings(fit, progress);
    through_kept_by(
        settings, fit, rows, order, progress, hand, fuel, cache, work,
    )
}
