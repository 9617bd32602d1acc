// f64 and its 64-bit word, and the operations of Rust's f64 that the sources use. Each function is
// defined for every float and every word.
#![tactic(auto)]

ghost use Rattle.std.specs.Prelude.{◌≡◌};
ghost use Rattle.std.specs.Float.{binary64};
ghost use Rattle.std.specs.Float.Ieee.{of_bits, to_bits};
ghost use Rattle.std.specs.Float.Ieee.Scale.{finite};
ghost use Rattle.float64.specs.Float64.{abs, max, clamp, nonfinite};

// The largest finite float: above it is only infinity. A test against infinity itself would be compiled to
// many tests of bits.
pub const LARGEST: f64 = 1.7976931348623157e308;

// Document 01's largest eta_bound. `libm::exp` is defined from -EDGE to EDGE.
pub const EDGE: f64 = 16.0;

// The float that a word stands for. Every NaN pattern gives a NaN.
pub fn from_word(word: u64) -> f64
    ensures { result ≡ of_bits binary64 word }
{
    // above the infinity's pattern, the sign left out
    if 0x7ff0_0000_0000_0000 < word % 0x8000_0000_0000_0000 {
        return 0.0 / 0.0;
    }
    f64::from_bits(word)
}

// The word that stands for a float: its bits, and 7ff8000000000000 for a NaN.
pub fn to_word(x: f64) -> u64
    ensures { result ≡ to_bits binary64 x }
{
    if x != x {
        return 0x7ff8_0000_0000_0000;
    }
    f64::to_bits(x)
}

// Whether a float is neither a NaN nor an infinity: Rust's f64::is_finite.
pub fn is_finite(x: f64) -> bool
    ensures { result ≡ finite x }
{
    let infinity = f64::from_bits(0x7ff0_0000_0000_0000);
    if x < infinity {
        return -infinity < x;
    }
    false
}

// Whether a float is a NaN or an infinity: what the sources write as `!x.is_finite()`.
pub fn is_nonfinite(x: f64) -> bool
    ensures { result ≡ nonfinite x }
{
    if is_finite(x) {
        return false;
    }
    true
}

// The absolute value, Rust's f64::abs: the sign is cleared.
pub fn abs(x: f64) -> f64
    ensures { result ≡ abs x }
{
    if x < 0.0 {
        return -x;
    }
    if x == 0.0 {
        return 0.0;
    }
    x
}

// The larger of two floats, Rust's f64::max: where one is a NaN, it is the other.
pub fn max(a: f64, b: f64) -> f64
    ensures { result ≡ max a b }
{
    if a != a {
        return b;
    }
    if a < b {
        return b;
    }
    a
}

// The float, or `low` where it is below, or `high` where it is above: Rust's f64::clamp. A NaN stays a NaN.
pub fn clamp(x: f64, low: f64, high: f64) -> f64
    ensures { result ≡ clamp x low high }
{
    if x < low {
        return low;
    }
    if high < x {
        return high;
    }
    x
}
