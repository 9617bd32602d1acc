// A reply in its two parts, with the state and the answer as words (see lib.rt). Between the two a loop adds
// the observations to the evaluation. Each function is defined for all values and words. Words that are no
// state are refused with 19.
ghost use Rattle.std.specs.Prelude.{◌≡◌};
ghost use Rattle.session.specs.Calls.{lent_by};
ghost use Rattle.state_words.specs.SessionWords.{loaded_state};
ghost use Rattle.host_calls.specs.Hosting.{setup_of, out, finish_with};
ghost use Rattle.host_calls.specs.SubjectReplies.{subject_first, admit_for};

use super::{Done, SessionSetup};
use search::Tally;
use session::Admitted;
use subject::{Check, Evaluation, Position};

// Where the check of the observations begins, if those of the awaited subject alone are lent: at the first of
// the subject that the state's words name. The state is only read.
#[tactic(auto, unfolding(crate::specs::SubjectReplies::subject_first))]
pub fn subject_first(state: &mut [u64]) -> Check
    ensures { (result ≡ subject_first state.old) × (state.new ≡ state.old) }
{
    Ok(Position {
        subject: words::read(state, 8) as usize,
        observation: 0,
    })
}

// The first part of a reply, lent so many observations and words: of one that lends the observations of the
// awaited subject `alone`, or those of all subjects; the two are known, and each has one call for C. It answers
// whether the reply is accepted, and the evaluation that begins with it. The state is only read.
pub fn admit(
    setup: SessionSetup,
    tally: Tally,
    check: Check,
    alone: bool,
    observations: usize,
    cache: usize,
    work: usize,
    warm: usize,
    results: usize,
    counts: &[u64],
    reply: &[u64],
    state: &mut [u64],
) -> Admitted
    ensures { (result ≡ admit_for alone (setup_of setup) counts.now (lent_by observations cache work warm results) check tally
        reply.now (loaded_state state.old)) × (state.new ≡ state.old) }
{
    let own = super::setup_of(setup);
    let Some(at) = state_words::load(state) else {
        return session::checks::unadmitted(own);
    };
    let lent = session::lent_of(observations, cache, work, warm, results);
    if alone {
        return session::checks::admit_subject_reply(own, at, tally, check, lent, counts, reply);
    }
    session::checks::admit_reply(own, at, tally, check, lent, counts, reply)
}

// The second part of a reply: `admitted` is what the first part answered, and `evaluation` the one that the
// observations were added to. The objective runs on until there is a question or an end, and the state and
// the answer are written.
pub fn finish_reply(
    tally: Tally,
    admitted: Admitted,
    evaluation: Evaluation,
    counts: &[u64],
    state: &mut [u64],
    answer: &mut [u64],
    cache: &mut [u64],
    work: &mut [u64],
    warm: &mut [u64],
    results: &mut [u64],
) -> Done
    ensures { out result state.new answer.new cache.new work.new warm.new
        results.new
        ≡ finish_with counts.now admitted.awaited evaluation tally state.old answer.old
        cache.old work.old warm.old results.old }
{
    let Some(at) = state_words::load(state) else {
        return super::no_state(tally, answer);
    };
    let finished = session_calls::finish_reply(
        at, tally, admitted, evaluation, counts, cache, work, warm, results,
    );
    super::told(finished, state, answer)
}
