// A step of an objective over lent words: requests of its searches, each for a point or a mode, through kept
// evaluations until there is a question or an end.
ghost use Rattle.std.specs.Prelude.{◌≡◌};
ghost use Rattle.machine.specs.Machine.{loop};
ghost use Rattle.population.specs.Kept.{cache_of, words};
ghost use Rattle.population.specs.Population.{ended, is_over, spent, ran, turn};
ghost use Rattle.population.specs.Steps.{whole_from, unkept, cleared};

use super::Turned;
use super::kept_points::Evaluated;
use cache::CacheOrder;
use matrix::Pair;
use mode::Request;
use search::{Fit, Halted, Place, Progress, Refusal, Step, Tally, refused_here};
use std::ops::ControlFlow;

// What is done with a request that no kept evaluation answers.
#[tactic(auto, unfolding(crate::specs::Steps::unkept))]
fn served(
    fit: Fit,
    counts: &[u64],
    progress: Progress,
    tally: Tally,
    wanted: Request<Pair>,
    work: &mut [u64],
    warm: &mut [u64],
    results: &mut [u64],
) -> Turned
    ensures { ended result work.new warm.new results.new
        ≡ unkept fit counts.now progress tally work.old warm.old results.old wanted }
{
    match wanted {
        Request::Point(eta) => ControlFlow::Break(search::questions::ask(
            fit, progress, tally, eta,
        )),
        Request::Mode => super::at_mode(fit, counts, progress, tally, work, warm, results),
        Request::Refused(number) => ControlFlow::Break(refused_here(progress, tally, number)),
    }
}

#[tactic(auto, unfolding(crate::specs::Population::is_over))]
fn is_over(turned: Turned) -> bool
    ensures { result ≡ is_over turned }
{
    match turned {
        ControlFlow::Continue(_) => false,
        ControlFlow::Break(halted) => search::is_over(halted.step),
    }
}

// What is done with a request that no kept evaluation answers; where it ends the objective the work words are
// cleared.
#[tactic(auto, unfolding(crate::specs::Steps::cleared, float64::specs::Pick::pick))]
fn turn(
    fit: Fit,
    counts: &[u64],
    progress: Progress,
    tally: Tally,
    wanted: Request<Pair>,
    work: &mut [u64],
    warm: &mut [u64],
    results: &mut [u64],
) -> Turned
    ensures { ended result work.new warm.new results.new
        ≡ cleared (unkept fit counts.now progress tally work.old warm.old results.old
        wanted) }
{
    let turned = served(fit, counts, progress, tally, wanted, work, warm, results);
    if is_over(turned) {
        words::clear(work);
    }
    turned
}

// The loop over the remaining requests, at most `fuel` of them: with what is in hand, through kept
// evaluations and modes, until there is a question or an end. A turn of this loop is a request that no kept
// evaluation answers. `fuel` is more than a session's objective can need; if it were used up, the answer
// would be 19. Defined for all values and words.
pub fn requests(
    fit: Fit,
    counts: &[u64],
    order: CacheOrder,
    start: Progress,
    hand: Option<Evaluated>,
    tally: Tally,
    fuel: usize,
    cache: &[u64],
    work: &mut [u64],
    warm: &mut [u64],
    results: &mut [u64],
) -> Halted
    ensures { ran result (cache_of cache.now order) work.new warm.new results.new
        ≡ loop (turn words fit counts.now) spent fuel
        (whole_from fit counts.now hand start tally (cache_of cache.now order) work.old warm.old
        results.old) }
{
    let mut here = start;
    let mut given = hand;
    let mut left = fuel;
    'requests: loop {
        let reached = super::kept_points::through_kept(
            fit, counts, order, here, given, left, cache, work,
        );
        let progress = reached.progress;
        let wanted = reached.wanted;
        if reached.left == 0 {
            break 'requests Halted {
                progress,
                tally,
                step: Step::Refused(Refusal {
                    number: 19,
                    place: Place::Nowhere,
                }),
            };
        }
        match turn(fit, counts, progress, tally, wanted, work, warm, results) {
            ControlFlow::Continue(next) => {
                here = next;
                given = None;
                left = reached.left - 1;
            }
            ControlFlow::Break(halted) => {
                break 'requests halted;
            }
        }
    }
}
