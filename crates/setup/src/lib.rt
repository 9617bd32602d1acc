// What a session is given, the answer of document 01's checks of it, checks 2 and 3, which look at the setup
// alone, and the setup of one objective. `checks` has 1 to 5 in their order. Each function is defined for all
// values.
#![tactic(auto)]

ghost use Rattle.std.specs.Prelude.{◌≡◌};
ghost use Rattle.setup.specs.Admission.{is_beyond, is_no_variance, is_no_omega, is_no_override, is_no_tolerance, is_no_shape};
ghost use Rattle.setup.specs.Admission.{with_parameters};

pub mod checks;

use matrix::Pair;
use subject::Position;

// What a session is set up with: the number of effects; omega by row and column (with one effect its first
// entry); the bound of eta; the outer fit's gradient_tolerance; the number of outputs; K, the most rows that
// are kept; the additive deviation; the most values and derivatives of a reply; the most evaluations. (The
// source's Setup is another thing: a part of a validated request, with names, units, start and limits.)
#[derive(Clone, Copy)]
pub struct Setup {
    pub effects: u32,
    pub omega00: f64,
    pub omega01: f64,
    pub omega10: f64,
    pub omega11: f64,
    pub eta_bound: f64,
    pub gradient_tolerance: f64,
    pub width: u32,
    pub k: usize,
    pub additive_sd: Option<f64>,
    pub output_budget: u32,
    pub max_evaluations: u32,
}

// What may change with each objective: theta, and with one effect omega and the additive deviation.
#[derive(Clone, Copy)]
pub struct Parameters {
    pub theta: Pair,
    pub omega: f64,
    pub additive_sd: Option<f64>,
}

// How much is lent to a call: the number of observations, and the numbers of work, cache, warm and result
// words.
#[derive(Clone, Copy)]
pub struct Lent {
    pub observations: usize,
    pub work: usize,
    pub cache: usize,
    pub warm: usize,
    pub results: usize,
}

// What is found of the subjects' numbers of observations: their sum and the largest.
#[derive(Clone, Copy)]
pub struct Counts {
    pub total: usize,
    pub largest: usize,
}

// The answer of the checks: accepted, or why not.
pub type Admission = Result<(), AdmissionError>;

// Why the checks refuse: document 01's number, which is the only name of a refusal there; or, with 4, the place
// of an observation.
#[derive(Clone, Copy)]
pub enum AdmissionError {
    Refused(u32),
    Unsound(Position),
}

fn is_beyond(x: f64, low: f64, high: f64) -> bool
    ensures { result ≡ is_beyond x low high }
{
    !(low <= x && x <= high)
}

// ---- 2

fn is_no_variance(omega: f64) -> bool
    ensures { result ≡ is_no_variance omega }
{
    is_beyond(omega, 0.00000095367431640625, 1048576.0)
}

// Whether check 2 refuses: each variance must be from 2^-20 to 2^20, and with two effects omega must be
// symmetric and have an inverse.
pub fn is_no_omega(setup: Setup) -> bool
    ensures { result ≡ is_no_omega setup }
{
    if is_no_variance(setup.omega00) {
        return true;
    }
    if setup.effects == 1 {
        return false;
    }
    if is_no_variance(setup.omega11) {
        return true;
    }
    if setup.omega01 != setup.omega10 {
        return true;
    }
    let omega = [
        [setup.omega00, setup.omega01],
        [setup.omega10, setup.omega11],
    ];
    matrix::inverse_positive(omega).is_none()
}

// ---- 3

// Whether an additive override is refused: it must be finite and not below 0, and with two effects there must
// be none.
fn is_no_override(effects: u32, additive_sd: Option<f64>) -> bool
    ensures { result ≡ is_no_override effects additive_sd }
{
    let Some(additive) = additive_sd else {
        return false;
    };
    if effects == 2 {
        return true;
    }
    if float64::is_nonfinite(additive) {
        return true;
    }
    additive < 0.0
}

fn is_no_tolerance(gradient_tolerance: f64) -> bool
    ensures { result ≡ is_no_tolerance gradient_tolerance }
{
    if float64::is_nonfinite(gradient_tolerance) {
        return true;
    }
    gradient_tolerance <= 0.0
}

// Whether check 3 refuses: the bound of eta must be from 2^-10 to 16, the gradient_tolerance finite and above
// 0, the outputs 1 to 64, K from 1 to 100,000, and an override finite and not below 0, with one effect only.
pub fn is_no_shape(setup: Setup) -> bool
    ensures { result ≡ is_no_shape setup }
{
    if is_beyond(setup.eta_bound, 0.0009765625, float64::EDGE) {
        return true;
    }
    if is_no_tolerance(setup.gradient_tolerance) {
        return true;
    }
    if setup.width == 0 {
        return true;
    }
    if 64 < setup.width {
        return true;
    }
    if setup.k == 0 {
        return true;
    }
    if work::MOST_ROWS < setup.k {
        return true;
    }
    is_no_override(setup.effects, setup.additive_sd)
}

// ---- one objective

// The setup of one objective: that of the session with the objective's additive deviation, and with one
// effect its omega.
pub fn with_parameters(setup: Setup, parameters: Parameters) -> Setup
    ensures { result ≡ with_parameters setup parameters }
{
    let omega00 = if setup.effects == 1 {
        parameters.omega
    } else {
        setup.omega00
    };
    Setup {
        omega00,
        additive_sd: parameters.additive_sd,
        ..setup
    }
}
