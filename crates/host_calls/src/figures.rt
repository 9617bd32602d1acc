// What a host is told of a session besides the answers of its calls: the shrinkage of a finished objective,
// from the words that the host has. It is defined for all words.
ghost use Rattle.std.specs.Prelude.{◌≡◌};
ghost use Rattle.host_calls.specs.Figures.{told, shrinkage_in, shrinkage_from};

use session::State;
use work::MOST_SUBJECTS;

// The shrinkage that a state tells of an objective of so many subjects.
#[tactic(auto, unfolding(crate::specs::Figures::shrinkage_in, crate::specs::Figures::told, float64::specs::Pick::pick))]
fn shrinkage_in(at: State, subjects: usize) -> Option<f64>
    ensures { told result ≡ shrinkage_in subjects at }
{
    if subjects <= MOST_SUBJECTS && session::has_finished(at.progress, subjects) {
        return Some(session::shrinkage(at, subjects as u32));
    }
    None
}

// The shrinkage of the objective with one effect that the latest call has finished, from the counts, the state
// and the answer as that call left them. There is none where the answer is not of an end, where the words are
// no state, or where the state is not that of a finished objective of so many subjects.
#[tactic(auto, unfolding(crate::specs::Figures::shrinkage_from, crate::specs::Figures::told, crate::specs::Figures::shrinkage_of, state_words::specs::SessionWords::answer, float64::specs::Pick::pick))]
pub fn shrinkage_from(counts: &[u64], state: &[u64], answer: &[u64]) -> Option<f64>
    ensures { told result ≡ shrinkage_from counts.now state.now answer.now }
{
    if words::read(answer, 0) != 1 {
        return None;
    }
    shrinkage_in(state_words::load(state)?, counts.len())
}
