// The answers of a script's calls: ten words each, little-endian, to standard output.
ghost use Rattle.std.specs.Prelude.{◌+◌, ◌≤◌};

use matrix::Pair;
use search::{Place, Refusal, Step, Tally};
use std::io;
use std::io::Write;

// The answer of a call: its kind (0 asked, 1 finished or opened, 2 refused), and the four words that it
// carries.
#[derive(Clone, Copy, Default)]
pub struct Answer {
    pub kind: u64,
    pub a: u64,
    pub b: u64,
    pub c: u64,
    pub d: u64,
}

// The answer of a setup that opened a session.
pub fn opened() -> Answer {
    Answer {
        kind: 1,
        ..Answer::default()
    }
}

fn asked(eta: Pair, individual: Pair) -> Answer {
    Answer {
        kind: 0,
        a: float64::to_word(eta.first),
        b: float64::to_word(eta.second),
        c: float64::to_word(individual.first),
        d: float64::to_word(individual.second),
    }
}

// The answer of a refusal: its number, and its place: none (0), a subject (1), or a subject and one of its
// observations (2).
pub fn refused(refusal: Refusal) -> Answer {
    let a = refusal.number as u64;
    match refusal.place {
        Place::Nowhere => Answer {
            kind: 2,
            a,
            ..Answer::default()
        },
        Place::Subject(subject) => Answer {
            kind: 2,
            a,
            b: 1,
            c: subject as u64,
            d: 0,
        },
        Place::Observation(subject, observation) => Answer {
            kind: 2,
            a,
            b: 2,
            c: subject as u64,
            d: observation as u64,
        },
    }
}

// The answer of a step. `shrinkage` is what a finished objective carries besides.
pub fn told(step: Step, shrinkage: u64) -> Answer {
    match step {
        Step::Asked(eta, individual) => asked(eta, individual),
        Step::Finished(objective) => Answer {
            kind: 1,
            a: float64::to_word(objective),
            b: shrinkage,
            ..Answer::default()
        },
        Step::Refused(refusal) => refused(refusal),
    }
}

fn put_word(bytes: &mut [u8; 80], at: usize, word: u64)
    requires { at + 8 ≤ 80 }
{
    bytes[at..at + 8].copy_from_slice(&word.to_le_bytes());
}

// Writes the ten words of a call: its answer, the tally, the digests of the warm starts and of the results,
// and what is seen of the other words. A write that fails ends it with its error.
pub fn write(
    writer: &mut impl Write,
    answer: Answer,
    tally: Tally,
    warm: u64,
    results: u64,
    seen: u64,
) -> io::Result<()> {
    let mut bytes = [0u8; 80];
    put_word(&mut bytes, 0, answer.kind);
    put_word(&mut bytes, 8, answer.a);
    put_word(&mut bytes, 16, answer.b);
    put_word(&mut bytes, 24, answer.c);
    put_word(&mut bytes, 32, answer.d);
    put_word(&mut bytes, 40, tally.calls.0 as u64);
    put_word(&mut bytes, 48, tally.cached_rows.0 as u64);
    put_word(&mut bytes, 56, warm);
    put_word(&mut bytes, 64, results);
    put_word(&mut bytes, 72, seen);
    writer.write_all(&bytes)
}
