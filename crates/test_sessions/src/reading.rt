// The words of a script from standard input, 64 bits each, little-endian. `left` is the number of those
// that the session has left. A read that fails ends a function with its error.
ghost use Rattle.std.specs.Prelude.{◌<◌, ◌≤◌};

use matrix::Pair;
use setup::{Parameters, Setup};
use std::io;
use std::io::Read;

// A word as a usize.
pub fn number(word: u64) -> usize {
    word as usize
}

// The lower half of a word, as a u32.
pub fn small(word: u64) -> u32 {
    (word % 0x1_0000_0000) as u32
}

// The next word of the script; 0 beyond the last. Where the input ends, none is left.
pub fn next(reader: &mut impl Read, left: &mut u64) -> io::Result<u64> {
    if *left == 0 {
        return Ok(0);
    }
    let mut bytes = [0u8; 8];
    if input::read_full(reader, &mut bytes)? < 8 {
        *left = 0;
        return Ok(0);
    }
    *left -= 1;
    Ok(u64::from_le_bytes(bytes))
}

fn float(reader: &mut impl Read, left: &mut u64) -> io::Result<f64> {
    Ok(float64::from_word(next(reader, left)?))
}

// Reads the next n words of the script to the first n of these. Words that have no room here are passed over.
pub fn fill(reader: &mut impl Read, words: &mut [u64], n: usize, left: &mut u64) -> io::Result<()> {
    let end = n.min(number(*left));
    for i in 0..end {
        words::put(words, i, next(reader, left)?);
    }
    Ok(())
}

fn additive_sd(reader: &mut impl Read, left: &mut u64) -> io::Result<Option<f64>> {
    let has_additive = next(reader, left)?;
    let additive = float(reader, left)?;
    if has_additive == 0 {
        return Ok(None);
    }
    Ok(Some(additive))
}

// Reads a setup, thirteen words of the script.
pub fn setup(reader: &mut impl Read, left: &mut u64) -> io::Result<Setup> {
    let effects = small(next(reader, left)?);
    let omega00 = float(reader, left)?;
    let omega01 = float(reader, left)?;
    let omega10 = float(reader, left)?;
    let omega11 = float(reader, left)?;
    let eta_bound = float(reader, left)?;
    let gradient_tolerance = float(reader, left)?;
    let width = small(next(reader, left)?);
    let k = number(next(reader, left)?);
    let additive_sd = additive_sd(reader, left)?;
    let output_budget = small(next(reader, left)?);
    let max_evaluations = small(next(reader, left)?);
    Ok(Setup {
        effects,
        omega00,
        omega01,
        omega10,
        omega11,
        eta_bound,
        gradient_tolerance,
        width,
        k,
        additive_sd,
        output_budget,
        max_evaluations,
    })
}

// Reads the parameters of an objective, five words of the script.
pub fn parameters(reader: &mut impl Read, left: &mut u64) -> io::Result<Parameters> {
    let first = float(reader, left)?;
    let second = float(reader, left)?;
    let omega = float(reader, left)?;
    let additive_sd = additive_sd(reader, left)?;
    Ok(Parameters {
        theta: Pair { first, second },
        omega,
        additive_sd,
    })
}
