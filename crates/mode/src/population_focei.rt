// The one-effect search, `mode` of population_focei.rs: seventeen grid points, the warm start, secant steps,
// halvings. Each public function is defined for all values.
ghost use Rattle.std.specs.Prelude.{◌≡◌, ◌<◌};
ghost use Rattle.mode.specs.Rules.{eta_tolerance, grid_point, secant_point, midpoint, settled, is_above, is_under, is_closer, first_score};
ghost use Rattle.mode.specs.Rules.{fell, first_stage, start, request, screened, entered, tried, chosen, advance};

use super::Request;

// The most evaluations that a search asks for: the points of the grid, the warm start, the secant steps and
// the halvings. That it holds is proved in `mode_theorems` (specs/Claim.antt).
pub const CEILING: u32 = 17 + 1 + 16 + 48;

// What a search is given: eta_bound, omega, the tolerance of eta (`eta_tolerance`) and the subject's warm
// start.
#[derive(Clone, Copy)]
pub struct Settings {
    pub eta_bound: f64,
    pub omega: f64,
    pub tolerance: f64,
    pub warm: f64,
}

// One evaluated point, the source's Conditional without its rows. (Conditional2 is a type of its own, as in the
// source, since each is read beside its own file.) Its score has the prior's eta / omega
// added.
#[derive(Clone, Copy)]
pub struct Conditional {
    pub eta: f64,
    pub nll: f64,
    pub score: f64,
    pub information: f64,
}

// The stages of a search, in their order: the points of the grid, the warm start, secant steps, halvings.
#[derive(Clone, Copy)]
pub enum Stage {
    Grid,
    Warm,
    Secant,
    Halving,
}

// A search between two evaluations. `count` is the number of points of the stage that are evaluated. Of the
// grid it keeps the first score, the latest point, whether the score fell from above 0 to 0 or below, and the
// latest upward cell: `left` and `right`, which are the bracket afterwards.
#[derive(Clone, Copy)]
pub struct Search {
    pub stage: Stage,
    pub count: u32,
    pub first: f64,
    pub latest: Conditional,
    pub fall: bool,
    pub left: Conditional,
    pub right: Conditional,
    pub best: Conditional,
}

// The tolerance of eta within which a mode is settled: gradient_tolerance · 1e-4, clamped to 1e-12..1e-8.
#[tactic(auto, unfolding(crate::specs::Rules::eta_tolerance))]
pub fn eta_tolerance(gradient_tolerance: f64) -> f64
    ensures { result ≡ eta_tolerance gradient_tolerance }
{
    float64::clamp(gradient_tolerance * 1e-4, 1e-12, 1e-8)
}

// Whether a point's score is above 0.
#[tactic(auto, unfolding(crate::specs::Rules::is_above))]
pub fn is_above(c: Conditional) -> bool
    ensures { result ≡ is_above c }
{
    c.score > 0.0
}

// Whether a point's score is 0 or below.
#[tactic(auto, unfolding(crate::specs::Rules::is_under))]
pub fn is_under(c: Conditional) -> bool
    ensures { result ≡ is_under c }
{
    c.score <= 0.0
}

// Whether the first point has the smaller absolute score.
#[tactic(auto, unfolding(crate::specs::Rules::is_closer))]
pub fn is_closer(a: Conditional, b: Conditional) -> bool
    ensures { result ≡ is_closer a b }
{
    float64::abs(a.score) < float64::abs(b.score)
}

// Grid point i, from 0 to 16.
#[tactic(auto, unfolding(crate::specs::Rules::grid_point))]
fn grid_point(eta_bound: f64, i: u32) -> f64
    ensures { result ≡ grid_point eta_bound i }
{
    -eta_bound + eta_bound * (i as f64) / 8.0
}

// The secant's zero, kept a tenth of the bracket's width away from its ends.
#[tactic(auto, unfolding(crate::specs::Rules::secant_point))]
fn secant_point(left: Conditional, right: Conditional) -> f64
    ensures { result ≡ secant_point left right }
{
    let width = right.eta - left.eta;
    let eta = left.eta - left.score * width / (right.score - left.score);
    float64::clamp(eta, left.eta + 0.1 * width, right.eta - 0.1 * width)
}

#[tactic(auto, unfolding(crate::specs::Rules::midpoint))]
fn midpoint(left: Conditional, right: Conditional) -> f64
    ensures { result ≡ midpoint left right }
{
    0.5 * (left.eta + right.eta)
}

// Document 01's settled: by the bracket's width, or by a point's own score and information.
#[tactic(auto, using(float64::specs::Pick::picks), unfolding(crate::specs::Rules::settled))]
fn settled(s: Settings, value: Conditional, left: Conditional, right: Conditional) -> bool
    ensures { result ≡ settled s value left right }
{
    right.eta - left.eta <= s.tolerance
        || float64::abs(value.score) / (1.0 / s.omega + value.information) <= s.tolerance
}

// The score of the first grid point.
#[tactic(auto, using(float64::specs::Pick::picks), unfolding(crate::specs::Rules::first_score))]
fn first_score(x: Search, c: Conditional) -> f64
    ensures { result ≡ first_score x c }
{
    if x.count == 0 { c.score } else { x.first }
}

// Whether the score has fallen from above 0 to 0 or below, here or before.
#[tactic(auto, using(float64::specs::Pick::picks), unfolding(crate::specs::Rules::fell))]
fn fell(x: Search, c: Conditional) -> bool
    ensures { result ≡ fell x c }
{
    is_above(x.latest) && is_under(c) || x.fall
}

// The stage after the grid: the warm start is tried where it lies strictly inside the cell.
#[tactic(auto, using(float64::specs::Pick::picks), unfolding(crate::specs::Rules::first_stage))]
fn first_stage(s: Settings, left: Conditional, right: Conditional) -> Stage
    ensures { result ≡ first_stage s left right }
{
    let inside = s.warm > left.eta && s.warm < right.eta;
    if inside { Stage::Warm } else { Stage::Secant }
}

// The search with one more grid point, compared with the latest one.
#[tactic(auto, using(float64::specs::Pick::picks), unfolding(crate::specs::Rules::screened))]
fn screened(x: Search, c: Conditional) -> Search
    requires { x.count < 17 }
    ensures { result ≡ screened x c }
{
    let (left, right) = if is_under(x.latest) && is_above(c) {
        (x.latest, c)
    } else {
        (x.left, x.right)
    };
    Search {
        stage: Stage::Grid,
        count: x.count + 1,
        first: first_score(x, c),
        latest: c,
        fall: fell(x, c),
        left,
        right,
        ..x
    }
}

// The search that has its cell: it starts at the end of smaller absolute score, the right at a tie.
#[tactic(auto, using(float64::specs::Pick::picks), unfolding(crate::specs::Rules::entered))]
fn entered(s: Settings, x: Search) -> Search
    ensures { result ≡ entered s x }
{
    Search {
        stage: first_stage(s, x.left, x.right),
        count: 0,
        best: if is_closer(x.left, x.right) {
            x.left
        } else {
            x.right
        },
        ..x
    }
}

// After the last grid point the search enters its cell, unless it is to be refused with 13 or 14.
#[tactic(auto, using(float64::specs::Pick::picks), unfolding(crate::specs::Rules::chosen))]
fn chosen(s: Settings, x: Search) -> Search
    ensures { result ≡ chosen s x }
{
    if x.count < 17 || x.first >= 0.0 || is_under(x.latest) || x.fall {
        return x;
    }
    // a score that is NaN may have hidden every cell; the start's right end is not above 0
    if is_above(x.right) { entered(s, x) } else { x }
}

// The search with one more point of the bracket: it replaces one end, and the best where it is closer.
#[tactic(auto, using(float64::specs::Pick::picks), unfolding(crate::specs::Rules::tried))]
fn tried(stage: Stage, count: u32, x: Search, c: Conditional) -> Search
    ensures { result ≡ tried stage count x c }
{
    let (left, right) = if is_above(c) {
        (x.left, c)
    } else {
        (c, x.right)
    };
    Search {
        stage,
        count,
        left,
        right,
        best: if is_closer(c, x.best) { c } else { x.best },
        ..x
    }
}

impl Search {
    // A search that has not asked for anything yet.
    #[tactic(auto, unfolding(crate::specs::Rules::start))]
    pub fn start() -> Search
        ensures { result ≡ start }
    {
        let nowhere = Conditional {
            eta: 0.0,
            nll: 0.0,
            score: 0.0,
            information: 0.0,
        };
        Search {
            stage: Stage::Grid,
            count: 0,
            first: 0.0,
            latest: nowhere,
            fall: false,
            left: nowhere,
            right: nowhere,
            best: nowhere,
        }
    }

    // What the search asks for next.
    #[tactic(auto, using(float64::specs::Pick::picks), unfolding(crate::specs::Rules::request_at))]
    pub fn request(self, s: Settings) -> Request<f64>
        ensures { result ≡ request s self }
    {
        match self.stage {
            Stage::Grid if self.count < 17 => Request::Point(grid_point(s.eta_bound, self.count)),
            Stage::Grid if self.first >= 0.0 || is_under(self.latest) => Request::Refused(13),
            Stage::Grid => Request::Refused(14),
            Stage::Warm => Request::Point(s.warm),
            _ if settled(s, self.best, self.left, self.right) => Request::Mode,
            Stage::Secant => Request::Point(secant_point(self.left, self.right)),
            Stage::Halving if self.count < 48 => Request::Point(midpoint(self.left, self.right)),
            Stage::Halving => Request::Refused(15),
        }
    }

    // The search with one more evaluated point. A search that has no point left to ask for stays as it is.
    #[tactic(auto, using(float64::specs::Pick::picks), unfolding(crate::specs::Rules::advance_at))]
    pub fn advance(self, s: Settings, c: Conditional) -> Search
        ensures { result ≡ advance s self c }
    {
        match self.stage {
            Stage::Grid if self.count < 17 => chosen(s, screened(self, c)),
            Stage::Warm => tried(Stage::Secant, 0, self, c),
            Stage::Secant if self.count < 15 => tried(Stage::Secant, self.count + 1, self, c),
            Stage::Secant => tried(Stage::Halving, 0, self, c),
            Stage::Halving if self.count < 48 => tried(Stage::Halving, self.count + 1, self, c),
            Stage::Grid | Stage::Halving => self,
        }
    }
}
