// The one-effect search: the caller keeps it as twenty words (state_words::one_effect), asks what it wants
// next and hands it the evaluated point.
ghost use Rattle.std.specs.Prelude.{◌≡◌};
ghost use Rattle.float64.specs.Answer.{number_of, or_old};
ghost use Rattle.mode.specs.Rules.{eta_tolerance, start};
ghost use Rattle.state_words.specs.SearchWords.{point_of, saved};
ghost use Rattle.test_exports.specs.Mode.{settings_of, requested, advanced, request_number, point_or};

use mode::Request;
use mode::population_focei::{Conditional, Search, Settings};

// The tolerance of eta within which a mode is settled (`mode::population_focei::eta_tolerance`).
pub fn curlewstand_eta_tolerance(gradient_tolerance: f64) -> f64
    ensures { result ≡ eta_tolerance gradient_tolerance }
{
    mode::population_focei::eta_tolerance(gradient_tolerance)
}

// Writes the words of a search that has not asked for anything.
pub fn curlewstand_mode_start(search: &mut [u64; 20])
    ensures { search.new ≡ saved start }
{
    *search = state_words::one_effect::save(Search::start());
}

// What the search asks for next: 0, with the point written; 1 for a mode, the search's best point; document
// 01's number for a refusal, 13, 14 or 15; or 19 where the words are no search. Only 0 writes anything.
pub fn curlewstand_mode_request(
    eta_bound: f64,
    omega: f64,
    tolerance: f64,
    warm: f64,
    search: &[u64; 20],
    point: &mut f64,
) -> u32
    ensures value { result ≡ request_number (requested (settings_of eta_bound omega tolerance warm) search.now) }
    ensures point_after { point.new
        ≡ point_or point.old (requested (settings_of eta_bound omega tolerance warm) search.now) }
{
    let settings = Settings {
        eta_bound,
        omega,
        tolerance,
        warm,
    };
    let Some(x) = state_words::one_effect::load(search) else {
        return 19;
    };
    match x.request(settings) {
        Request::Point(p) => {
            *point = p;
            0
        }
        Request::Mode => 1,
        Request::Refused(number) => number,
    }
}

// Writes the words of the search with one more evaluated point, and answers 0; or answers 19 where the
// words are no search, and nothing is written.
pub fn curlewstand_mode_advance(
    eta_bound: f64,
    omega: f64,
    tolerance: f64,
    warm: f64,
    search: &mut [u64; 20],
    eta: f64,
    nll: f64,
    score: f64,
    information: f64,
) -> u32
    ensures value { result ≡ number_of
        (advanced (settings_of eta_bound omega tolerance warm) search.old (point_of eta nll score information)) }
    ensures search_after { search.new
        ≡ or_old search.old
        (advanced (settings_of eta_bound omega tolerance warm) search.old (point_of eta nll score information)) }
{
    let settings = Settings {
        eta_bound,
        omega,
        tolerance,
        warm,
    };
    let c = Conditional {
        eta,
        nll,
        score,
        information,
    };
    let Some(x) = state_words::one_effect::load(search) else {
        return 19;
    };
    *search = state_words::one_effect::save(x.advance(settings, c));
    0
}
