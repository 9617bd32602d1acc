// What a subject's mode adds to the objective, with one effect or two, once it has passed check 16; and the
// objective after the last subject, with check 18. By value; each function is defined for all values.
ghost use Rattle.std.specs.Prelude.{◌≡◌};
ghost use Rattle.search.specs.Subjects.{closed1, closed2, closed_by, finished, objective_of};

use super::{Fit, Halted, Mode, Place, Progress, Refusal, Step, Tally};
use matrix::Pair;
use mode::population_focei::Conditional;
use mode_2d::population_focei_2d::Conditional2;

// ---- a mode

// With one effect: the curvature at the mode (check 16), and what the mode adds to the objective.
#[tactic(auto, unfolding(crate::specs::Subjects::closed1, float64::specs::Pick::pick))]
fn closed_1d(fit: Fit, best: Conditional, rows: u32) -> Option<Mode>
    ensures { result ≡ closed1 fit best rows }
{
    let omega = fit.omega;
    let curvature = 1.0 / omega + best.information;
    if float64::is_nonfinite(curvature) || curvature <= 0.0 {
        return None;
    }
    let term = 2.0 * best.nll - rows as f64 * likelihood::population_focei::LOG_2PI
        + best.eta * best.eta / omega
        + libm::log(omega * curvature);
    Some(Mode {
        eta: Pair {
            first: best.eta,
            second: 0.0,
        },
        nll: best.nll,
        term,
    })
}

// With two effects: the curvature at the mode (check 16), and what the mode adds to the objective.
#[tactic(auto, unfolding(crate::specs::Subjects::closed2, crate::specs::Subjects::closed_with, matrix::specs::Matrix::answer))]
fn closed_2d(fit: Fit, best: Conditional2, rows: u32) -> Option<Mode>
    ensures { result ≡ closed2 fit best rows }
{
    let curvature = mode_2d::population_focei_2d::curvature(fit.precision, best.information);
    let det_curvature = matrix::inverse_positive(curvature)?;
    let eta = [best.eta.first, best.eta.second];
    let precision = matrix::array_of(fit.precision);
    let term = 2.0 * best.nll - rows as f64 * likelihood::population_focei::LOG_2PI
        + matrix::dot(eta, matrix::product(precision, eta))
        + libm::log(fit.det_omega * det_curvature);
    Some(Mode {
        eta: best.eta,
        nll: best.nll,
        term,
    })
}

// Check 16 of a search's mode, its best point, and what the mode adds to the objective, for a subject of so
// many rows: the curvature and the term of `ofv` in the source's `population`.
#[tactic(auto, unfolding(crate::specs::Subjects::closed_by, float64::specs::Pick::pick))]
pub fn closed_by(fit: Fit, progress: Progress, rows: u32) -> Option<Mode>
    ensures { result ≡ closed_by fit progress rows }
{
    if fit.effects == 2 {
        return closed_2d(fit, super::two_of(progress.search).best, rows);
    }
    closed_1d(fit, super::one_of(progress.search).best, rows)
}

// ---- the objective

// The end of an objective after its last subject, the end of the source's `population`: refused with 18 where
// the sum is not finite, else finished.
#[tactic(auto, unfolding(crate::specs::Subjects::objective_of, float64::specs::Pick::pick))]
pub fn objective_of(progress: Progress, tally: Tally, ofv: f64, eta_squares: f64) -> Halted
    ensures { result ≡ objective_of progress tally ofv eta_squares }
{
    if float64::is_nonfinite(ofv) {
        let refusal = Refusal {
            number: 18,
            place: Place::Nowhere,
        };
        return super::refused(progress, tally, refusal);
    }
    Halted {
        progress: finished(progress, ofv, eta_squares),
        tally,
        step: Step::Finished(ofv),
    }
}

#[tactic(auto, unfolding(crate::specs::Subjects::finished))]
fn finished(progress: Progress, ofv: f64, eta_squares: f64) -> Progress
    ensures { result ≡ finished progress ofv eta_squares }
{
    Progress {
        awaits: false,
        ofv,
        eta_squares,
        ..progress
    }
}
