// Document 01's check 4, of one observation after the other, by value. Each function is defined for all values.
ghost use Rattle.std.specs.Prelude.{◌≡◌};
ghost use Rattle.subject.specs.Observations.{is_no_deviation, is_sound, next_place, first_check, check_at, check_observation};

use super::{Check, Position};
use float64::LARGEST;
use likelihood::population_focei::Observation;

// Whether a deviation is refused: it must be from 0 up to the largest finite float, and a NaN fails the first
// test. There are few tests, since every call of a session checks all observations.
fn is_no_deviation(deviation: f64) -> bool
    ensures { result ≡ is_no_deviation deviation }
{
    if 0.0 <= deviation {
        return LARGEST < deviation;
    }
    true
}

// Document 01's check 4 of one observation.
fn is_sound(observation: Observation, width: u32) -> bool
    ensures { result ≡ is_sound observation width }
{
    if width as usize <= observation.output {
        return false;
    }
    if float64::is_nonfinite(observation.value) {
        return false;
    }
    if is_no_deviation(observation.additive) {
        return false;
    }
    if is_no_deviation(observation.proportional) {
        return false;
    }
    if 0.0 < observation.additive {
        return true;
    }
    0.0 < observation.proportional
}

// The place after this one, in a subject of `count` observations.
fn next_place(place: Position, count: u64) -> Position
    ensures { result ≡ next_place place count }
{
    let next = std::num::wrapping_add_usize(place.observation, 1);
    if (next as u64) < count {
        return Position {
            observation: next,
            ..place
        };
    }
    Position {
        subject: std::num::wrapping_add_usize(place.subject, 1),
        observation: 0,
    }
}

// The check of the observations before the first of them.
pub fn first_check() -> Check
    ensures { result ≡ first_check }
{
    Ok(Position {
        subject: 0,
        observation: 0,
    })
}

// The check with the observation at the place that was reached.
fn check_at(place: Position, observation: Observation, width: u32, counts: &[u64]) -> Check
    ensures { result ≡ check_at width counts.now observation place }
{
    if is_sound(observation, width) {
        let count = words::read(counts, place.subject);
        return Ok(next_place(place, count));
    }
    Err(place)
}

// Document 01's check 4 with one observation more; `counts` are the subjects' numbers of observations. After
// the first that is not sound nothing changes.
pub fn check_observation(
    check: Check,
    observation: Observation,
    width: u32,
    counts: &[u64],
) -> Check
    ensures { result ≡ check_observation width counts.now observation check }
{
    let place = check?;
    check_at(place, observation, width, counts)
}
