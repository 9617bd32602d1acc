// Document 01's program as one function, from the bytes of its records to the bytes that it prints: theta 1,
// omega 1, eta_bound 4, tolerance 1e-4, 10,000 evaluations, K 64, output budget 10,000, width 1, one effect.
#![tactic(auto)]

ghost use Rattle.std.specs.Prelude.{◌≡◌, ◌≤◌, length, take};
ghost use Rattle.session.specs.Calls.{called, held_of};
ghost use Rattle.words.specs.Written.{written, write};
ghost use Rattle.words.specs.Page.{with_items};
ghost use Rattle.focei_fit.specs.Output.{most_evaluations, settings, first_parameters, replied, play, begun, ended, fitted, lent};
ghost use Rattle.focei_fit.specs.Output.{output, input_bytes, printed};

use matrix::Pair;
use search::{CachedRows, Calls, Place, Step, Tally};
use session::{Called, State};
use setup::{Parameters, Setup};
use words::Page;

// The evaluations of a session, and the most questions that are answered: each question raises them.
pub const MOST_EVALUATIONS: u32 = 10000;

// The bytes that the program reads: all records that it takes, and one byte more, so that longer input is
// seen to be too long.
pub const INPUT_BYTES: usize = focei_records::MOST_RECORDS * focei_records::RECORD_BYTES + 1;

// The bytes of the longest text that the program prints, with an `O` and an `H` line, and an `S` and an `F`
// line for each of 256 records.
pub const LONGEST_TEXT: usize = 30267;

// The words of a session and of a reply, enough for 256 records.
#[derive(Clone, Copy)]
struct Memory {
    reply: [u64; 1024],
    cache: [u64; 1536],
    work: [u64; 3072],
    warm: [u64; 256],
    results: [u64; 1280],
}

#[tactic(auto, unfolding(crate::specs::Output::settings))]
fn settings() -> Setup
    ensures { result ≡ settings }
{
    Setup {
        effects: 1,
        omega00: 1.0,
        omega01: 0.0,
        omega10: 0.0,
        omega11: 0.0,
        eta_bound: 4.0,
        gradient_tolerance: 0.0001,
        width: 1,
        k: 64,
        additive_sd: None,
        output_budget: 10000,
        max_evaluations: MOST_EVALUATIONS,
    }
}

#[tactic(auto, unfolding(crate::specs::Output::first_parameters))]
fn first_parameters() -> Parameters
    ensures { result ≡ first_parameters }
{
    Parameters {
        theta: Pair {
            first: 1.0,
            second: 0.0,
        },
        omega: 1.0,
        additive_sd: None,
    }
}

// The answer to a question: the simulator's rows of the subject that is searched. (That the input is no longer than
// 256 records is asked of each of these, since the public function hands it on as it was lent.)
fn answer(
    input: &[u8],
    at: Called,
    individual: Pair,
    observations: &[u64],
    counts: &[u64],
    memory: &mut Memory,
) -> Called
    requires { length input.now ≤ 12288 }
    ensures { called result memory.new.cache memory.new.work memory.new.warm memory.new.results
        ≡ replied input.now counts.now observations.now
        (held_of at.state at.tally memory.old.cache memory.old.work memory.old.warm
        memory.old.results) individual }
{
    let progress = at.state.progress;
    let rows = population::rows_of(counts, progress.subject);
    let n = focei_records::reply(
        input,
        progress.first,
        rows,
        individual.first,
        &mut memory.reply,
    );
    program_calls::reply(
        settings(),
        at.state,
        at.tally,
        observations,
        counts,
        &memory.reply[..n],
        &mut memory.cache,
        &mut memory.work,
        &mut memory.warm,
        &mut memory.results,
    )
}

// Question and answer until there is no question.
fn play(
    input: &[u8],
    first: Called,
    observations: &[u64],
    counts: &[u64],
    memory: &mut Memory,
) -> Called
    requires { length input.now ≤ 12288 }
    ensures { called result memory.new.cache memory.new.work memory.new.warm memory.new.results
        ≡ play input.now counts.now observations.now most_evaluations
        (called first memory.old.cache memory.old.work memory.old.warm memory.old.results) }
{
    let mut at = first;
    for _turn in 0..MOST_EVALUATIONS {
        let Step::Asked(_, individual) = at.step else {
            return at;
        };
        at = answer(input, at, individual, observations, counts, memory);
    }
    at
}

// Writes what is printed of the end of an objective. A question that is left would be printed as 19; there
// is none (crate focei_theorems).
#[tactic(auto, unfolding(crate::specs::Output::ended))]
fn told(page: &mut Page<u8>, at: Called, counts: &[u64], results: &[u64])
    requires { length counts.now ≤ 256 }
    ensures { page.new
        ≡ with_items (ended counts.now at.state at.tally results.now at.step) page.old }
{
    match at.step {
        Step::Asked(_, _) => focei_text::refused(page, 19, Place::Nowhere),
        Step::Finished(objective) => {
            let shrinkage = session::shrinkage(at.state, counts.len() as u32);
            focei_text::finished(
                page,
                objective,
                at.tally.calls.0,
                shrinkage,
                counts,
                results,
            )
        }
        Step::Refused(refusal) => focei_text::refused(page, refusal.number, refusal.place),
    }
}

// Runs the objective of an open session to its end.
#[tactic(auto, unfolding(crate::specs::Output::begun))]
fn run(
    input: &[u8],
    state: State,
    tally: Tally,
    observations: &[u64],
    counts: &[u64],
    memory: &mut Memory,
) -> Called
    requires { length input.now ≤ 12288 }
    ensures { called result memory.new.cache memory.new.work memory.new.warm memory.new.results
        ≡ play input.now counts.now observations.now most_evaluations
        (begun counts.now observations.now
        (held_of state tally memory.old.cache memory.old.work memory.old.warm
        memory.old.results)) }
{
    let first = program_calls::objective(
        settings(),
        first_parameters(),
        state,
        tally,
        observations,
        counts,
        &mut memory.cache,
        &mut memory.work,
        &mut memory.warm,
        &mut memory.results,
    );
    play(input, first, observations, counts, memory)
}

// Sets up the session of the records, runs its objective, and writes the text.
fn fit(page: &mut Page<u8>, input: &[u8], observations: &[u64], counts: &[u64], memory: &mut Memory)
    requires { (length input.now ≤ 12288) × (length counts.now ≤ 256) }
    ensures { page.new
        ≡ with_items (fitted input.now counts.now observations.now memory.old.cache
        memory.old.work memory.old.warm memory.old.results) page.old }
{
    let none = Tally {
        calls: Calls(0),
        cached_rows: CachedRows(0),
    };
    let opened = program_calls::open(
        settings(),
        none,
        observations,
        counts,
        &mut memory.cache,
        &mut memory.work,
        &mut memory.warm,
        &mut memory.results,
    );
    match opened.opening {
        Ok(state) => {
            let last = run(input, state, opened.tally, observations, counts, memory);
            told(page, last, counts, &memory.results)
        }
        Err(refusal) => focei_text::refused(page, refusal.number, refusal.place),
    }
}

// Fits the records in words of the program's own, enough for 256 records.
fn lend(page: &mut Page<u8>, input: &[u8], subjects: usize)
    requires { (length input.now ≤ 12288) × (subjects ≤ 256) }
    ensures { page.new ≡ with_items (lent input.now subjects) page.old }
{
    let mut counts = [0u64; 256];
    let mut observations = [0u64; 1280];
    let mut memory = Memory {
        reply: [0; 1024],
        cache: [0; 1536],
        work: [0; 3072],
        warm: [0; 256],
        results: [0; 1280],
    };
    let n = focei_records::counts(input, subjects, &mut counts);
    let m = focei_records::observations(input, &mut observations);
    fit(page, input, &observations[..m], &counts[..n], &mut memory);
}

// Writes what the program prints of its input, as much of it as `out` has room for, and gives the length of
// what was written. With room for `LONGEST_TEXT` bytes that is the whole text.
pub fn write_text(input: &[u8], out: &mut [u8]) -> usize
    ensures { written result out.new ≡ write (output input.now) (written 0 out.old) }
{
    let mut page = Page::new(out);
    match focei_records::cohort_of(input) {
        Some(subjects) => lend(&mut page, input, subjects),
        None => focei_text::refused(&mut page, 20, Place::Nowhere),
    }
    page.end()
}

// The program between reading and writing: of the bytes that were read, the first `got` of `input` (where
// there are fewer, all of them), it writes what is printed to the front of `out`, and gives its length. There
// is room for every text, so that it stands there whole.
pub fn focei(input: &[u8; INPUT_BYTES], got: usize, out: &mut [u8; LONGEST_TEXT]) -> usize
    ensures input_len { length input.now ≡ input_bytes }
    ensures out_after { written result out.new ≡ printed (take got input.now) out.old }
{
    let bytes: &[u8] = input;
    write_text(&bytes[..got.min(bytes.len())], out)
}
