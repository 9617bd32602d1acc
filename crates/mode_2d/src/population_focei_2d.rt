// The two-effect search, `mode` of population_focei_2d.rs: the point zero, then from each of six starts up to
// 48 Newton rounds of up to 22 reductions (`mode_from_seed`). Each public function is defined for all values.
ghost use Rattle.std.specs.Prelude.{◌≡◌, ◌-◌, ltb, Some, None};
ghost use Rattle.float64.specs.Pick.{pick};
ghost use Rattle.mode_2d.specs.Rules.{prior_score, joint, penalised_score, max_abs, norm, curvature, step_by};
ghost use Rattle.mode_2d.specs.Rules.{scale, reduced, trial_point, decrease, is_passed_over, next_reduction, is_taken, start_point};
ghost use Rattle.mode_2d.specs.Rules.{is_unresolved, is_far, better, between, finish, start, request, advance};
ghost use Rattle.mode_2d.specs.Turns.{over, beginning, taking, leaving, turn_after, tried, descended, proceeded, gone_on};

use matrix::{Matrix, Pair};
use mode::Request;

// The most evaluations that a search with two effects asks for: the point zero, and from each of six starts
// the start and 48 rounds of 22 trials. That it holds is proved in `mode_theorems` (specs/Claim2.antt).
pub const CEILING: u32 = 1 + 6 * (1 + 48 * 22);

// What a search with two effects is given: eta_bound, the precision (omega's inverse), and the subject's warm
// start.
#[derive(Clone, Copy)]
pub struct Settings2 {
    pub eta_bound: f64,
    pub precision: Matrix,
    pub warm: Pair,
}

// One evaluated point with two effects, the source's Conditional2 without its rows. Neither the score nor the
// information includes the prior.
#[derive(Clone, Copy)]
pub struct Conditional2 {
    pub eta: Pair,
    pub nll: f64,
    pub score: Pair,
    pub information: Matrix,
}

// The Newton step of a round: from `eta`, where the penalised score is `score`, against `direction`.
#[derive(Clone, Copy)]
pub struct NewtonStep {
    pub eta: Pair,
    pub score: Pair,
    pub direction: Pair,
}

// The point that a search waits for: zero, a start, or a trial of a round; or its end: a mode, or a refusal
// with document 01's number.
#[derive(Clone, Copy)]
pub enum Stage2 {
    Zero,
    Start,
    Trial,
    Found,
    Halted(u32),
}

// A search with two effects between two evaluations. `seed` numbers the start, 0 to 5, and is 6 once the mode
// is found; `current` is where its rounds stand, and once they are over its candidate; `best` is the best
// candidate of the starts before (before the first candidate, the evaluation at zero). `trial` is the point
// awaited in a round, and `decrease` the fall of `joint` that is foreseen there.
#[derive(Clone, Copy)]
pub struct Search2 {
    pub stage: Stage2,
    pub seed: u32,
    pub round: u32,
    pub reduction: u32,
    pub current: Conditional2,
    pub trial: Pair,
    pub decrease: f64,
    pub best: Conditional2,
}

// What an evaluated point leads to: to the first start; to a start's rounds, which go on in this round from
// this reduction on, at this point (from 22 on there is no reduction, and they are over); or to nothing more.
#[derive(Clone, Copy)]
pub enum Turn {
    FirstStart,
    Rounds(u32, u32, Conditional2),
    Ended,
}

// What the rounds of a start do next: they ask for a trial, of a round and a reduction, with the fall of
// `joint` that is foreseen there; or they are over; or there is no step, since the curvature has no inverse.
#[derive(Clone, Copy)]
pub enum Onward {
    Try(u32, u32, Pair, f64),
    Over,
    NoInverse,
}

// The prior's part of the score.
#[tactic(auto, unfolding(crate::specs::Rules::prior_score))]
fn prior_score(s: Settings2, eta: Pair) -> [f64; 2]
    ensures { result ≡ prior_score s eta }
{
    matrix::product(matrix::array_of(s.precision), eta.into())
}

// Document 01's joint, the penalised negative log likelihood of an evaluated point: the source's `joint`.
#[tactic(auto, unfolding(crate::specs::Rules::joint))]
pub fn joint(s: Settings2, c: Conditional2) -> f64
    ensures { result ≡ joint s c }
{
    c.nll + 0.5 * matrix::dot(c.eta.into(), prior_score(s, c.eta))
}

#[tactic(auto, unfolding(crate::specs::Rules::penalised_score))]
fn penalised_score(s: Settings2, c: Conditional2) -> Pair
    ensures { result ≡ penalised_score s c }
{
    let [first, second] = prior_score(s, c.eta);
    Pair {
        first: c.score.first + first,
        second: c.score.second + second,
    }
}

#[tactic(auto, unfolding(crate::specs::Rules::max_abs))]
fn max_abs(p: Pair) -> f64
    ensures { result ≡ max_abs p }
{
    float64::max(float64::abs(p.first), float64::abs(p.second))
}

// Document 01's norm: the larger absolute penalised score.
#[tactic(auto, unfolding(crate::specs::Rules::norm))]
fn norm(s: Settings2, c: Conditional2) -> f64
    ensures { result ≡ norm s c }
{
    max_abs(penalised_score(s, c))
}

// The curvature of `joint` at a point: precision plus information.
#[tactic(auto, unfolding(crate::specs::Rules::curvature))]
pub fn curvature(precision: Matrix, information: Matrix) -> [[f64; 2]; 2]
    ensures { result ≡ curvature precision information }
{
    matrix::sum(matrix::array_of(precision), matrix::array_of(information))
}

#[tactic(auto, unfolding(crate::specs::Rules::step_by))]
fn step_by(s: Settings2, c: Conditional2, inverse: [[f64; 2]; 2]) -> NewtonStep
    ensures { result ≡ step_by s c inverse }
{
    let score = penalised_score(s, c);
    NewtonStep {
        eta: c.eta,
        score,
        direction: matrix::product(inverse, score.into()).into(),
    }
}

// 2 to the minus `reduction`, by its exponent's bits; 0 from 1023 on, which no search gets to.
fn scale(reduction: u32) -> f64
    ensures { result ≡ scale reduction }
{
    f64::from_bits(1023u64.saturating_sub(reduction as u64) * 0x10_0000_0000_0000)
}

// One effect's value `scale` of the way along, kept within the bound.
#[tactic(auto, unfolding(crate::specs::Rules::reduced))]
fn reduced(eta_bound: f64, eta: f64, scale: f64, direction: f64) -> f64
    ensures { result ≡ reduced eta_bound eta scale direction }
{
    float64::clamp(eta - scale * direction, -eta_bound, eta_bound)
}

#[tactic(auto, unfolding(crate::specs::Rules::trial_point))]
fn trial_point(eta_bound: f64, step: NewtonStep, reduction: u32) -> Pair
    ensures { result ≡ trial_point eta_bound step reduction }
{
    let scale = scale(reduction);
    Pair {
        first: reduced(eta_bound, step.eta.first, scale, step.direction.first),
        second: reduced(eta_bound, step.eta.second, scale, step.direction.second),
    }
}

// The fall of `joint` that the score foresees on the way to `trial`.
#[tactic(auto, unfolding(crate::specs::Rules::decrease))]
fn decrease(step: NewtonStep, trial: Pair) -> f64
    ensures { result ≡ decrease step trial }
{
    let way = [step.eta.first - trial.first, step.eta.second - trial.second];
    matrix::dot(step.score.into(), way)
}

// A trial is not asked for where it is the current point, or where no fall is foreseen. One with a NaN
// fall is asked for.
#[tactic(auto, using(float64::specs::Pick::picks), unfolding(crate::specs::Rules::is_passed_over, crate::specs::Rules::is_same))]
fn is_passed_over(eta_bound: f64, step: NewtonStep, reduction: u32) -> bool
    ensures { result ≡ is_passed_over eta_bound step reduction }
{
    let trial = trial_point(eta_bound, step, reduction);
    trial == step.eta || decrease(step, trial) <= 0.0
}

// The first reduction from `from` on that is not passed over, of 22.
fn next_reduction(eta_bound: f64, step: NewtonStep, from: u32) -> Option<u32>
    ensures { let next = next_reduction eta_bound step (22 - from) from in result ≡ pick (ltb next 22) (Some next) None }
{
    for reduction in from..22 {
        if !is_passed_over(eta_bound, step, reduction) {
            return Some(reduction);
        }
    }
    None
}

// Whether the trial of a round is taken: `joint` at its evaluation c falls by at least 1e-4 of what was
// foreseen.
#[tactic(auto, unfolding(crate::specs::Rules::is_taken))]
pub fn is_taken(s: Settings2, x: Search2, c: Conditional2) -> bool
    ensures { result ≡ is_taken s x c }
{
    joint(s, c) <= joint(s, x.current) - 1e-4 * x.decrease
}

// The six starts: the warm start, zero, and half the bound to either side in each effect.
#[tactic(auto, using(float64::specs::Pick::picks), unfolding(crate::specs::Rules::start_point))]
fn start_point(s: Settings2, seed: u32) -> Pair
    ensures { result ≡ start_point s seed }
{
    let half = 0.5 * s.eta_bound;
    match seed {
        0 => s.warm,
        1 => Pair::ZERO,
        2 => Pair {
            first: half,
            ..Pair::ZERO
        },
        3 => Pair {
            first: -half,
            ..Pair::ZERO
        },
        4 => Pair {
            second: half,
            ..Pair::ZERO
        },
        _ => Pair {
            second: -half,
            ..Pair::ZERO
        },
    }
}

// A candidate that 13 refuses.
#[tactic(auto, using(float64::specs::Pick::picks), unfolding(crate::specs::Rules::is_unresolved))]
fn is_unresolved(s: Settings2, c: Conditional2) -> bool
    ensures { result ≡ is_unresolved s c }
{
    let edge = s.eta_bound - 1e-6;
    norm(s, c) > 1e-3 || float64::abs(c.eta.first) >= edge || float64::abs(c.eta.second) >= edge
}

// A candidate that 14 refuses: far from the best of the starts before.
#[tactic(auto, using(float64::specs::Pick::picks), unfolding(crate::specs::Rules::is_far))]
fn is_far(seed: u32, c: Conditional2, best: Conditional2) -> bool
    ensures { result ≡ is_far seed c best }
{
    let apart = Pair {
        first: c.eta.first - best.eta.first,
        second: c.eta.second - best.eta.second,
    };
    seed != 0 && max_abs(apart) > 1e-3
}

// The better of the candidate and the best before, which is the earlier at a tie.
#[tactic(auto, using(float64::specs::Pick::picks), unfolding(crate::specs::Rules::better))]
fn better(s: Settings2, seed: u32, c: Conditional2, best: Conditional2) -> Conditional2
    ensures { result ≡ better s seed c best }
{
    if seed == 0 || joint(s, c) < joint(s, best) {
        c
    } else {
        best
    }
}

// A search outside of any round.
#[tactic(auto, unfolding(crate::specs::Rules::between))]
fn between(stage: Stage2, seed: u32, current: Conditional2, best: Conditional2) -> Search2
    ensures { result ≡ between stage seed current best }
{
    Search2 {
        stage,
        seed,
        round: 0,
        reduction: 0,
        current,
        trial: Pair::ZERO,
        decrease: 0.0,
        best,
    }
}

// The rounds of a start are over at its candidate c: 13, 14, then the next start or the mode.
#[tactic(auto, using(float64::specs::Pick::picks), unfolding(crate::specs::Rules::finish))]
fn finish(s: Settings2, seed: u32, c: Conditional2, best: Conditional2) -> Search2
    ensures { result ≡ finish s seed c best }
{
    if is_unresolved(s, c) {
        return between(Stage2::Halted(13), seed, c, best);
    }
    if is_far(seed, c, best) {
        return between(Stage2::Halted(14), seed, c, best);
    }
    let better = better(s, seed, c, best);
    if seed < 5 {
        return between(Stage2::Start, seed + 1, c, better);
    }
    between(Stage2::Found, 6, c, better)
}

// The first trial along the step from reduction `from` on.
#[tactic(auto, using(float64::specs::Pick::picks), unfolding(crate::specs::Turns::tried))]
fn try_from(eta_bound: f64, round: u32, from: u32, step: NewtonStep) -> Onward
    ensures { result ≡ tried eta_bound round from step }
{
    match next_reduction(eta_bound, step, from) {
        Some(reduction) => {
            let trial = trial_point(eta_bound, step, reduction);
            Onward::Try(round, reduction, trial, decrease(step, trial))
        }
        None => Onward::Over,
    }
}

// The trials of a round, from reduction `from` on.
#[tactic(auto, unfolding(crate::specs::Turns::descended, crate::specs::Turns::descended_by, matrix::specs::Matrix::answer))]
fn descend(s: Settings2, round: u32, from: u32, c: Conditional2) -> Onward
    ensures { result ≡ descended s round from c }
{
    let curvature = curvature(s.precision, c.information);
    match matrix::inverse_positive(curvature) {
        Some(det) => {
            let step = step_by(s, c, matrix::inverse(curvature, det));
            try_from(s.eta_bound, round, from, step)
        }
        None => Onward::NoInverse,
    }
}

// What the rounds do from there on.
#[tactic(auto, using(float64::specs::Pick::picks), unfolding(crate::specs::Turns::proceeded))]
fn proceed(s: Settings2, round: u32, from: u32, c: Conditional2) -> Onward
    ensures { result ≡ proceeded s round from c }
{
    if from < 22 {
        descend(s, round, from, c)
    } else {
        Onward::Over
    }
}

// The search after an evaluated point, in the rounds of a start. Without an inverse of the curvature it ends
// with 16.
#[tactic(auto, unfolding(crate::specs::Turns::gone_on_by))]
fn go_on(s: Settings2, x: Search2, round: u32, from: u32, current: Conditional2) -> Search2
    ensures { result ≡ gone_on s x.seed round from current x.best }
{
    match proceed(s, round, from, current) {
        Onward::Try(round, reduction, trial, decrease) => Search2 {
            stage: Stage2::Trial,
            round,
            reduction,
            current,
            trial,
            decrease,
            ..x
        },
        Onward::Over => finish(s, x.seed, current, x.best),
        Onward::NoInverse => between(Stage2::Halted(16), x.seed, current, x.best),
    }
}

// ---- where the rounds go on

fn over(c: Conditional2) -> Turn
    ensures { result ≡ over c }
{
    Turn::Rounds(0, 22, c)
}

// The head of a round: the rounds stop where the norm is at most 1e-5.
#[tactic(auto, using(float64::specs::Pick::picks), unfolding(crate::specs::Turns::beginning))]
fn begin_round(s: Settings2, round: u32, c: Conditional2) -> Turn
    ensures { result ≡ beginning s round c }
{
    if norm(s, c) <= 1e-5 {
        over(c)
    } else {
        Turn::Rounds(round, 0, c)
    }
}

// A trial that is taken: the next round begins there, unless this was the last of 48.
#[tactic(auto, using(float64::specs::Pick::picks), unfolding(crate::specs::Turns::taking))]
fn take(s: Settings2, x: Search2, c: Conditional2) -> Turn
    ensures { result ≡ taking s x c }
{
    if x.round < 47 {
        begin_round(s, x.round + 1, c)
    } else {
        over(c)
    }
}

// A trial that is not taken: the next reduction follows, unless this was the last of 22.
#[tactic(auto, using(float64::specs::Pick::picks), unfolding(crate::specs::Turns::leaving))]
fn leave(x: Search2) -> Turn
    ensures { result ≡ leaving x }
{
    if x.reduction < 21 {
        Turn::Rounds(x.round, x.reduction + 1, x.current)
    } else {
        over(x.current)
    }
}

// Which way `advance` goes, by the stage.
#[tactic(auto, using(float64::specs::Pick::picks), unfolding(crate::specs::Turns::turn_at))]
fn turn_after(s: Settings2, x: Search2, c: Conditional2) -> Turn
    ensures { result ≡ turn_after s x c }
{
    match x.stage {
        Stage2::Zero => Turn::FirstStart,
        Stage2::Start => begin_round(s, 0, c),
        Stage2::Trial if is_taken(s, x, c) => take(s, x, c),
        Stage2::Trial => leave(x),
        Stage2::Found | Stage2::Halted(_) => Turn::Ended,
    }
}

impl Search2 {
    // A search that has not asked for anything yet.
    #[tactic(auto, unfolding(crate::specs::Rules::start))]
    pub fn start() -> Search2
        ensures { result ≡ start }
    {
        let nowhere = Conditional2 {
            eta: Pair::ZERO,
            nll: 0.0,
            score: Pair::ZERO,
            information: Matrix {
                m00: 0.0,
                m01: 0.0,
                m10: 0.0,
                m11: 0.0,
            },
        };
        between(Stage2::Zero, 0, nowhere, nowhere)
    }

    // What the search asks for next.
    #[tactic(auto, unfolding(crate::specs::Rules::request_at))]
    pub fn request(self, s: Settings2) -> Request<Pair>
        ensures { result ≡ request s self }
    {
        match self.stage {
            Stage2::Zero => Request::Point(Pair::ZERO),
            Stage2::Start => Request::Point(start_point(s, self.seed)),
            Stage2::Trial => Request::Point(self.trial),
            Stage2::Found => Request::Mode,
            Stage2::Halted(number) => Request::Refused(number),
        }
    }

    // The search with one more evaluated point. A search that has ended stays as it is.
    pub fn advance(self, s: Settings2, c: Conditional2) -> Search2
        ensures { result ≡ advance s self c }
    {
        match turn_after(s, self, c) {
            Turn::FirstStart => between(Stage2::Start, 0, c, c),
            Turn::Rounds(round, from, current) => go_on(s, self, round, from, current),
            Turn::Ended => self,
        }
    }
}
