// Document 01's stand-ins for libm: log and exp of musl 1.1.20, with musl's names and order of
// operations.
#![tactic(auto)]

ghost use Rattle.std.specs.Prelude.{◌≡◌, ◌<◌, ◌≤◌};
ghost use Rattle.std.specs.Float.{binary64};
ghost use Rattle.std.specs.Float.Ieee.{of_int, minus};
ghost use Rattle.std.specs.Int.Signed.{mag};
ghost use Rattle.libm.specs.Log.{remainder, log_around, log_of_word, log};
ghost use Rattle.libm.specs.Exp.{exp_primary, power_of_two, exp_around, Within, multiple, exp_within, exp};

use float64::{EDGE, LARGEST};

const SMALLEST_NORMAL: f64 = 2.2250738585072014e-308;

const LN2_HI: f64 = 6.93147180369123816490e-01;

const LN2_LO: f64 = 1.90821492927058770002e-10;

const LG1: f64 = 6.666666666666735130e-01;

const LG2: f64 = 3.999999999940941908e-01;

const LG3: f64 = 2.857142874366239149e-01;

const LG4: f64 = 2.222219843214978396e-01;

const LG5: f64 = 1.818357216161805012e-01;

const LG6: f64 = 1.531383769920937332e-01;

const LG7: f64 = 1.479819860511658591e-01;

const INV_LN2: f64 = 1.44269504088896338700e+00;

const P1: f64 = 1.66666666666666019037e-01;

const P2: f64 = -2.77777777770155933842e-03;

const P3: f64 = 6.61375632143793436117e-05;

const P4: f64 = -1.65339022054652515390e-06;

const P5: f64 = 4.13813679705723846039e-08;

// a - b as a float. There is no branch, since the processor would often guess wrong whether a variance is
// below or above 1.
fn difference(a: u32, b: u32) -> f64
    ensures { result ≡ of_int binary64 (minus a b) }
{
    (a as i64 - b as i64) as f64
}

// The polynomial of log.c at z = s * s.
#[tactic(auto, unfolding(crate::specs::Log::remainder))]
fn remainder(z: f64) -> f64
    ensures { result ≡ remainder z }
{
    let w = z * z;
    let t1 = w * (LG2 + w * (LG4 + w * LG6));
    let t2 = z * (LG1 + w * (LG3 + w * (LG5 + w * LG7)));
    t2 + t1
}

// log of 2^k * x, with dk = k, for an x from sqrt(2)/2 to sqrt(2).
#[tactic(auto, unfolding(crate::specs::Log::log_around))]
fn log_around(dk: f64, x: f64) -> f64
    ensures { result ≡ log_around dk x }
{
    let f = x - 1.0;
    let hfsq = 0.5 * f * f;
    let s = f / (2.0 + f);
    let r = remainder(s * s);
    s * (hfsq + r) + dk * LN2_LO - hfsq + f + dk * LN2_HI
}

// log of the float of a word, less up * ln 2: the float is split into 2^k and a part from sqrt(2)/2
// to sqrt(2).
#[tactic(auto, unfolding(crate::specs::Log::log_of_word))]
fn log_of_word(word: u64, up: u32) -> f64
    requires { up ≤ 54 }
    ensures { result ≡ log_of_word word up }
{
    let hx = word / 0x1_0000_0000 + (0x3ff0_0000 - 0x3fe6_a09e);
    let dk = difference((hx / 0x10_0000) as u32, 0x3ff + up);
    let part = (hx % 0x10_0000 + 0x3fe6_a09e) * 0x1_0000_0000 + word % 0x1_0000_0000;
    let x = f64::from_bits(part);
    log_around(dk, x)
}

// The natural logarithm, log of musl's log.c. Zero gives minus infinity, a number below zero NaN; infinity
// and NaN give themselves. A positive normal float is answered first, without a test for NaN.
pub fn log(x: f64) -> f64
    ensures { result ≡ log x }
{
    if SMALLEST_NORMAL <= x {
        if x <= LARGEST {
            return log_of_word(f64::to_bits(x), 0);
        }
        return x;
    }
    let word = float64::to_word(x);
    if word % 0x8000_0000_0000_0000 == 0 {
        return f64::from_bits(0xfff0_0000_0000_0000);
    }
    if 0x8000_0000_0000_0000 <= word {
        return 0.0 / 0.0;
    }
    if 0x7ff0_0000_0000_0000 <= word {
        return x;
    }
    // a subnormal: taken up by 2^54 it has all its digits
    log_of_word(float64::to_word(x * 18014398509481984.0), 54)
}

// exp of x = hi - lo, for an x of at most ln(2)/2 or so.
#[tactic(auto, unfolding(crate::specs::Exp::exp_primary))]
fn exp_primary(x: f64, hi: f64, lo: f64) -> f64
    ensures { result ≡ exp_primary x hi lo }
{
    let xx = x * x;
    let c = x - xx * (P1 + xx * (P2 + xx * (P3 + xx * (P4 + xx * P5))));
    1.0 + (x * c / (2.0 - c) - lo + hi)
}

// 2^k, by its exponent's field.
fn power_of_two(k: i64) -> f64
    requires { mag k < 1000 }
    ensures { result ≡ power_of_two k }
{
    f64::from_bits(((1023 + k) as u64) * 0x10_0000_0000_0000)
}

// exp of x, with k times ln 2 taken out of x.
#[tactic(auto, unfolding(crate::specs::Exp::exp_around))]
fn exp_around(x: f64, k: i64) -> f64
    requires { mag k < 1000 }
    ensures { result ≡ exp_around x k }
{
    let dk = k as f64;
    let hi = x - dk * LN2_HI;
    let lo = dk * LN2_LO;
    exp_primary(hi - lo, hi, lo) * power_of_two(k)
}

// The multiple of ln 2 that is nearest to x, hx being the high word of |x|.
#[tactic(auto, using(float64::specs::Pick::picks), unfolding(crate::specs::Exp::multiple))]
fn multiple(x: f64, hx: u64) -> i64
    requires { Within x }
    ensures { result ≡ multiple x hx }
{
    if hx < 0x3ff0_a2b2 {
        if x < 0.0 {
            return -1;
        }
        return 1;
    }
    if x < 0.0 {
        return std::num::truncating_f64_to_i64(INV_LN2 * x - 0.5);
    }
    std::num::truncating_f64_to_i64(INV_LN2 * x + 0.5)
}

// exp of an x from -EDGE to EDGE, by musl's three ranges of |x|.
#[tactic(auto, using(float64::specs::Pick::picks), unfolding(crate::specs::Exp::exp_within))]
fn exp_within(x: f64) -> f64
    requires { Within x }
    ensures { result ≡ exp_within x }
{
    let hx = float64::to_word(x) / 0x1_0000_0000 % 0x8000_0000;
    if hx <= 0x3e30_0000 {
        return 1.0 + x;
    }
    if hx <= 0x3fd6_2e42 {
        return exp_primary(x, x, 0.0);
    }
    let k = multiple(x, hx);
    exp_around(x, k)
}

// e^x, exp of musl's exp.c, for x from -EDGE to EDGE (16), both included; NaN elsewhere.
#[tactic(auto, using(float64::specs::Pick::picks), unfolding(crate::specs::Exp::exp))]
pub fn exp(x: f64) -> f64
    ensures { result ≡ exp x }
{
    if -EDGE <= x && x <= EDGE {
        exp_within(x)
    } else {
        0.0 / 0.0
    }
}
