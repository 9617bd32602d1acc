// Floats: a float and its word, finite, abs, max, clamp, log and exp, as the calculation has them.
ghost use Rattle.std.specs.Prelude.{◌≡◌, from_bits, to_bits};
ghost use Rattle.std.specs.Float.{binary64};
ghost use Rattle.std.specs.Float.Ieee.Scale.{finite};
ghost use Rattle.float64.specs.Float64.{abs, max, clamp};
ghost use Rattle.libm.specs.Log.{log};
ghost use Rattle.libm.specs.Exp.{exp};

// The float that a word stands for; every NaN pattern gives a NaN.
pub fn curlewstand_from_word(word: u64) -> f64
    ensures { result ≡ from_bits binary64 word }
{
    float64::from_word(word)
}

// The word that stands for a float; a NaN gives 7ff8000000000000.
pub fn curlewstand_to_word(x: f64) -> u64
    ensures { result ≡ to_bits binary64 x }
{
    float64::to_word(x)
}

// Whether a float is neither a NaN nor an infinity (`float64::is_finite`).
pub fn curlewstand_is_finite(x: f64) -> bool
    ensures { result ≡ finite x }
{
    float64::is_finite(x)
}

// The absolute value (`float64::abs`).
pub fn curlewstand_abs(x: f64) -> f64
    ensures { result ≡ abs x }
{
    float64::abs(x)
}

// The larger of two floats (`float64::max`).
pub fn curlewstand_max(a: f64, b: f64) -> f64
    ensures { result ≡ max a b }
{
    float64::max(a, b)
}

// A float kept between two others (`float64::clamp`).
pub fn curlewstand_clamp(x: f64, low: f64, high: f64) -> f64
    ensures { result ≡ clamp x low high }
{
    float64::clamp(x, low, high)
}

// The natural logarithm (`libm::log`).
pub fn curlewstand_log(x: f64) -> f64
    ensures { result ≡ log x }
{
    libm::log(x)
}

// e^x from -16 to 16, NaN elsewhere (`libm::exp`).
pub fn curlewstand_exp(x: f64) -> f64
    ensures { result ≡ exp x }
{
    libm::exp(x)
}
