// Floats: a float and its word, finite, abs, max, clamp, log and exp, as the calculation has them.
ghost use Rattle.std.specs.Prelude.{◌≡◌, from_bits, to_bits};
ghost use Rattle.std.specs.Float.{binary64};
ghost use Rattle.std.specs.Float.Ieee.Scale.{finite};
ghost use Rattle.float64.specs.Float64.{abs, max, clamp};
ghost use Rattle.libm.specs.Log.{log};
ghost use Rattle.libm.specs.Exp.{exp};

// The float that a word stands for; every NaN pattern gives a NaN.
#[unsafe(no_mangle)]
pub extern "C" fn curlewstand_from_word(word: u64) -> f64
    ensures { result ≡ from_bits binary64 word }
{
    test_exports::floats::curlewstand_from_word(word)
}

// The word that stands for a float; a NaN gives 7ff8000000000000.
#[unsafe(no_mangle)]
pub extern "C" fn curlewstand_to_word(x: f64) -> u64
    ensures { result ≡ to_bits binary64 x }
{
    test_exports::floats::curlewstand_to_word(x)
}

// Whether a float is neither a NaN nor an infinity (`float64::is_finite`).
#[unsafe(no_mangle)]
pub extern "C" fn curlewstand_is_finite(x: f64) -> bool
    ensures { result ≡ finite x }
{
    test_exports::floats::curlewstand_is_finite(x)
}

// The absolute value (`float64::abs`).
#[unsafe(no_mangle)]
pub extern "C" fn curlewstand_abs(x: f64) -> f64
    ensures { result ≡ abs x }
{
    test_exports::floats::curlewstand_abs(x)
}

// The larger of two floats (`float64::max`).
#[unsafe(no_mangle)]
pub extern "C" fn curlewstand_max(a: f64, b: f64) -> f64
    ensures { result ≡ max a b }
{
    test_exports::floats::curlewstand_max(a, b)
}

// A float kept between two others (`float64::clamp`).
#[unsafe(no_mangle)]
pub extern "C" fn curlewstand_clamp(x: f64, low: f64, high: f64) -> f64
    ensures { result ≡ clamp x low high }
{
    test_exports::floats::curlewstand_clamp(x, low, high)
}

// The natural logarithm (`libm::log`).
#[unsafe(no_mangle)]
pub extern "C" fn curlewstand_log(x: f64) -> f64
    ensures { result ≡ log x }
{
    test_exports::floats::curlewstand_log(x)
}

// e^x from -16 to 16, NaN elsewhere (`libm::exp`).
#[unsafe(no_mangle)]
pub extern "C" fn curlewstand_exp(x: f64) -> f64
    ensures { result ≡ exp x }
{
    test_exports::floats::curlewstand_exp(x)
}
