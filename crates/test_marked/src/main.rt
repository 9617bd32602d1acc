// Holds the leaves of the calculation, as `test_exports` exports them, to document 01's marked facts. Each
// check is proved before it is run: from the contract of the function that it calls, and from the table in
// specs/Marked.antt.
#![tactic(auto)]

ghost use Rattle.std.specs.Prelude.{◌≡◌, ◌<◌};
ghost use Rattle.mode.specs.Rules.{grid_point};
ghost use Rattle.test_marked.specs.Marked.{four};

// Each row of the table is a function of its own, since each is proved from its own line of the table.
//
// value 3, f 1, f_eta 2, a 1, p 0: score -4, information 4.
fn additive_row() {
    let mut terms = [0.0, 0.0, 0.0];
    let number = test_exports::leaves::curlewstand_row_terms(3.0, 0.0, 1.0, 2.0, 1.0, &mut terms);
    check::expect(number == 0);
    check::expect(float64::to_word(terms[1]) == 0xc010_0000_0000_0000);
    check::expect(float64::to_word(terms[2]) == 0x4010_0000_0000_0000);
}

// value 4, f 2, f_eta 1, a 0, p 1: score -0.5, information 0.75.
fn proportional_row() {
    let mut terms = [0.0, 0.0, 0.0];
    let number = test_exports::leaves::curlewstand_row_terms(4.0, 1.0, 2.0, 1.0, 0.0, &mut terms);
    check::expect(number == 0);
    check::expect(float64::to_word(terms[1]) == 0xbfe0_0000_0000_0000);
    check::expect(float64::to_word(terms[2]) == 0x3fe8_0000_0000_0000);
}

// p 1, a 0, f 0: 11.
fn no_variance(value: f64, f_eta: f64) {
    let mut terms = [0.0, 0.0, 0.0];
    let number = test_exports::leaves::curlewstand_row_terms(
        value, 1.0, 0.0, f_eta, 0.0, &mut terms,
    );
    check::expect(number == 11);
}

// p 0, f infinite: 11.
fn infinite_prediction(value: f64, additive: f64, f_eta: f64) {
    let mut terms = [0.0, 0.0, 0.0];
    let infinity = f64::from_bits(0x7ff0_0000_0000_0000);
    let number = test_exports::leaves::curlewstand_row_terms(
        value, 0.0, infinity, f_eta, additive, &mut terms,
    );
    check::expect(number == 11);
}

// p 1, a 0, f 0 with two effects: 11.
fn no_variance_2d(value: f64, first: f64, second: f64) {
    let mut nll = 0.0;
    let mut score = [0.0, 0.0];
    let mut information = [[0.0, 0.0], [0.0, 0.0]];
    let number = test_exports::leaves::curlewstand_add_row(
        value,
        0.0,
        1.0,
        0.0,
        &[first, second],
        &mut nll,
        &mut score,
        &mut information,
    );
    check::expect(number == 11);
}

// p 0, f infinite with two effects: 11.
fn infinite_prediction_2d(value: f64, additive: f64, first: f64, second: f64) {
    let mut nll = 0.0;
    let mut score = [0.0, 0.0];
    let mut information = [[0.0, 0.0], [0.0, 0.0]];
    let infinity = f64::from_bits(0x7ff0_0000_0000_0000);
    let number = test_exports::leaves::curlewstand_add_row(
        value,
        additive,
        0.0,
        infinity,
        &[first, second],
        &mut nll,
        &mut score,
        &mut information,
    );
    check::expect(number == 11);
}

// The inverse of (2,0;0,4) is (0.5,-0;-0,0.25), det 8.
fn inverse() {
    let mut inverse = [[0.0, 0.0], [0.0, 0.0]];
    let mut det = 0.0;
    check::expect(test_exports::leaves::curlewstand_inverse_positive(
        &[[2.0, 0.0], [0.0, 4.0]],
        &mut inverse,
        &mut det,
    ));
    check::expect(float64::to_word(inverse[0][0]) == 0x3fe0_0000_0000_0000);
    check::expect(float64::to_word(inverse[0][1]) == 0x8000_0000_0000_0000);
    check::expect(float64::to_word(inverse[1][0]) == 0x8000_0000_0000_0000);
    check::expect(float64::to_word(inverse[1][1]) == 0x3fd0_0000_0000_0000);
    check::expect(float64::to_word(det) == 0x4020_0000_0000_0000);
}

// (1,1;1,1) has none.
fn singular() {
    let mut inverse = [[0.0, 0.0], [0.0, 0.0]];
    let mut det = 0.0;
    check::expect(!test_exports::leaves::curlewstand_inverse_positive(
        &[[1.0, 1.0], [1.0, 1.0]],
        &mut inverse,
        &mut det,
    ));
}

// exp 0 = 1, log 1 = 0.
fn exp_and_log() {
    check::expect(
        float64::to_word(test_exports::floats::curlewstand_exp(0.0)) == 0x3ff0_0000_0000_0000,
    );
    check::expect(float64::to_word(test_exports::floats::curlewstand_log(1.0)) == 0);
}

// What a search with eta_bound 4 asks for, with so many points of the grid evaluated.
fn asked_at(count: u64) -> f64
    requires { count < 17 }
    ensures { result ≡ grid_point four count }
{
    let search = [
        0, count, 0, 0, 0, 0, 0, 0, 0, 0, 0, 0, 0, 0, 0, 0, 0, 0, 0, 0,
    ];
    let mut point = 0.0;
    test_exports::mode_search::curlewstand_mode_request(4.0, 1.0, 1e-8, 0.0, &search, &mut point);
    point
}

// The grid for 4 at 0, 8, 16: -4, 0, 4.
fn grid() {
    check::expect(float64::to_word(asked_at(0)) == 0xc010_0000_0000_0000);
    check::expect(float64::to_word(asked_at(8)) == 0);
    check::expect(float64::to_word(asked_at(16)) == 0x4010_0000_0000_0000);
}

// The tolerance from 1e-3: 1e-8; from 1e-9: 1e-12.
fn tolerance() {
    check::expect(
        float64::to_word(test_exports::mode_search::curlewstand_eta_tolerance(1e-3))
            == 0x3e45_798e_e230_8c3a,
    );
    check::expect(
        float64::to_word(test_exports::mode_search::curlewstand_eta_tolerance(1e-9))
            == 0x3d71_9799_812d_ea11,
    );
}

fn main() {
    additive_row();
    proportional_row();
    no_variance(3.0, 2.0);
    infinite_prediction(3.0, 1.0, 2.0);
    no_variance_2d(3.0, 2.0, 1.0);
    infinite_prediction_2d(3.0, 1.0, 2.0, 1.0);
    inverse();
    singular();
    exp_and_log();
    grid();
    tolerance();
}
