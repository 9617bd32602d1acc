// Runs scripts of sessions from standard input and writes what each call answers, to be compared with what
// the Rust original answered, crates/test_sessions/stdout. A script is 64-bit words, sessions one after the
// other. A session is:
//
//   1 word      the number of its words that follow
//   13 words    setup: effects, omega00, omega01, omega10, omega11, eta_bound, gradient_tolerance, width,
//               k, has_additive (0 or 1), additive, output_budget, max_evaluations
//   4 words     how many of the program's cache, work, warm and results words are lent
//   1 + n       the number of subjects, and their numbers of observations
//   1 + 5n      the number of observations, and five words each
//   acts        0 setup; 1 objective (theta, second theta, omega, has_additive, additive); 2 reply (n, and
//               n words); 3 failure; 4 the warm starts set (n, and n words); 5 other lengths lent (4
//               words); 6 setup anew (13 words); 7 counts anew; 8 observations anew; 9 the tally set
//               (calls, cached rows)
//
// Each act from 0 to 3 is answered with ten words (answers.rt).
#![tactic(auto)]

mod answers;
mod digests;
mod reading;

ghost use Rattle.std.specs.Prelude.{◌≤◌};

use answers::Answer;
use program_calls::OBSERVATION_WORDS;
use search::{CachedRows, Calls, Tally};
use session::{Begun, Called, State};
use setup::{Parameters, Setup};
use std::io;
use std::io::{Read, Write};

// What every word of the program's own holds before a session.
const UNTOUCHED: u64 = 7777777777777777;

const CACHE: usize = 24576;

const WORK: usize = 6144;

const WARM: usize = 512;

const RESULTS: usize = 2560;

const SUBJECTS: usize = 256;

const OBSERVATIONS: usize = 2560;

const REPLY: usize = 8192;

// The program's own words.
#[derive(Clone, Copy)]
struct Memory {
    observations: [u64; OBSERVATIONS],
    counts: [u64; SUBJECTS],
    reply: [u64; REPLY],
    cache: [u64; CACHE],
    work: [u64; WORK],
    warm: [u64; WARM],
    results: [u64; RESULTS],
}

// The acts of a script, by their numbers from 0 on; any other number is none.
#[derive(Clone, Copy)]
enum Act {
    Setup,
    Objective,
    Reply,
    Failure,
    Warm,
    Lengths,
    SetupAnew,
    Counts,
    Observations,
    Tally,
    None,
}

// How many words are lent.
#[derive(Clone, Copy)]
struct Lengths {
    cache: usize,
    work: usize,
    warm: usize,
    results: usize,
}

// What a session's host has besides its words: the session's own, how many words are lent, how many
// subjects and observations there are, and the operands of the call that is made, the parameters of an
// objective or the number of words of a reply.
#[derive(Clone, Copy)]
struct Host {
    setup: Setup,
    state: State,
    tally: Tally,
    lengths: Lengths,
    subjects: usize,
    observations: usize,
    parameters: Parameters,
    replied: usize,
}

// What a call gave back.
#[derive(Clone, Copy)]
struct Given {
    answer: Answer,
    state: State,
    tally: Tally,
}

fn read_lengths(reader: &mut impl Read, left: &mut u64) -> io::Result<Lengths> {
    let cache = reading::number(reading::next(reader, left)?);
    let work = reading::number(reading::next(reader, left)?);
    let warm = reading::number(reading::next(reader, left)?);
    let results = reading::number(reading::next(reader, left)?);
    Ok(Lengths {
        cache,
        work,
        warm,
        results,
    })
}

// So many words, and their number.
fn read_words(reader: &mut impl Read, words: &mut [u64], left: &mut u64) -> io::Result<usize> {
    let n = reading::number(reading::next(reader, left)?);
    reading::fill(reader, words, n, left)?;
    Ok(n)
}

// The words of the observations; so many observations.
fn read_observations(
    reader: &mut impl Read,
    observations: &mut [u64],
    left: &mut u64,
) -> io::Result<usize> {
    let n = reading::number(reading::next(reader, left)?).min(OBSERVATIONS);
    reading::fill(reader, observations, OBSERVATION_WORDS * n, left)?;
    Ok(n)
}

fn read_tally(reader: &mut impl Read, left: &mut u64) -> io::Result<Tally> {
    let calls = reading::small(reading::next(reader, left)?);
    let cached_rows = reading::number(reading::next(reader, left)?);
    Ok(Tally {
        calls: Calls(calls),
        cached_rows: CachedRows(cached_rows),
    })
}

fn act_of(number: u64) -> Act {
    match number {
        0 => Act::Setup,
        1 => Act::Objective,
        2 => Act::Reply,
        3 => Act::Failure,
        4 => Act::Warm,
        5 => Act::Lengths,
        6 => Act::SetupAnew,
        7 => Act::Counts,
        8 => Act::Observations,
        9 => Act::Tally,
        _ => Act::None,
    }
}

// ---- calls

fn shrinkage_of(setup: Setup, state: State, counts: &[u64]) -> u64 {
    if setup.effects == 2 {
        return 0;
    }
    let subjects = counts.len().min(SUBJECTS) as u32;
    float64::to_word(session::shrinkage(state, subjects))
}

fn told(setup: Setup, called: Called, counts: &[u64]) -> Given {
    Given {
        answer: answers::told(called.step, shrinkage_of(setup, called.state, counts)),
        state: called.state,
        tally: called.tally,
    }
}

fn began(begun: Begun, state: State) -> Given {
    match begun.opening {
        Ok(first) => Given {
            answer: answers::opened(),
            state: first,
            tally: begun.tally,
        },
        Err(refusal) => Given {
            answer: answers::refused(refusal),
            state,
            tally: begun.tally,
        },
    }
}

// How many words of the observations are lent.
fn observed(host: Host) -> usize
    ensures { result ≤ 2560 }
{
    OBSERVATION_WORDS * host.observations.min(OBSERVATIONS / OBSERVATION_WORDS)
}

// As many of the program's own words as are lent.
fn lent(words: &mut [u64], length: usize) -> &mut [u64] {
    let end = length.min(words.len());
    &mut words[..end]
}

fn open(host: Host, memory: &mut Memory) -> Given {
    let begun = program_calls::open(
        host.setup,
        host.tally,
        &memory.observations[..observed(host)],
        &memory.counts[..host.subjects.min(SUBJECTS)],
        lent(&mut memory.cache, host.lengths.cache),
        lent(&mut memory.work, host.lengths.work),
        lent(&mut memory.warm, host.lengths.warm),
        &memory.results[..host.lengths.results.min(RESULTS)],
    );
    began(begun, host.state)
}

fn objective(host: Host, memory: &mut Memory) -> Given {
    let called = program_calls::objective(
        host.setup,
        host.parameters,
        host.state,
        host.tally,
        &memory.observations[..observed(host)],
        &memory.counts[..host.subjects.min(SUBJECTS)],
        &memory.cache[..host.lengths.cache.min(CACHE)],
        lent(&mut memory.work, host.lengths.work),
        lent(&mut memory.warm, host.lengths.warm),
        lent(&mut memory.results, host.lengths.results),
    );
    told(
        host.setup,
        called,
        &memory.counts[..host.subjects.min(SUBJECTS)],
    )
}

fn reply(host: Host, memory: &mut Memory) -> Given {
    let called = program_calls::reply(
        host.setup,
        host.state,
        host.tally,
        &memory.observations[..observed(host)],
        &memory.counts[..host.subjects.min(SUBJECTS)],
        &memory.reply[..host.replied.min(REPLY)],
        lent(&mut memory.cache, host.lengths.cache),
        lent(&mut memory.work, host.lengths.work),
        lent(&mut memory.warm, host.lengths.warm),
        lent(&mut memory.results, host.lengths.results),
    );
    told(
        host.setup,
        called,
        &memory.counts[..host.subjects.min(SUBJECTS)],
    )
}

fn failure(host: Host, memory: &mut Memory) -> Given {
    let called = program_calls::failure(
        host.setup,
        host.state,
        host.tally,
        &memory.observations[..observed(host)],
        &memory.counts[..host.subjects.min(SUBJECTS)],
        &memory.cache[..host.lengths.cache.min(CACHE)],
        lent(&mut memory.work, host.lengths.work),
        &memory.warm[..host.lengths.warm.min(WARM)],
        &memory.results[..host.lengths.results.min(RESULTS)],
    );
    told(
        host.setup,
        called,
        &memory.counts[..host.subjects.min(SUBJECTS)],
    )
}

fn flag(is_set: bool, value: u64) -> u64
    ensures { result ≤ value }
{
    if is_set {
        return value;
    }
    0
}

// 1 if every work word is 0, 2 if every cache word is, 4 if a call changed any of them.
fn seen(cache: &[u64], work: &[u64], is_changed: bool) -> u64 {
    let idle = flag(digests::is_zero(work), 1);
    let empty = flag(digests::is_zero(cache), 2);
    idle + empty + flag(is_changed, 4)
}

fn mark(host: Host, memory: &Memory) -> u64 {
    let cache = digests::mark(&memory.cache[..host.lengths.cache.min(CACHE)], 0);
    digests::mark(&memory.work[..host.lengths.work.min(WORK)], cache)
}

fn given_by(act: Act, host: Host, memory: &mut Memory) -> Given {
    match act {
        Act::Setup => open(host, memory),
        Act::Objective => objective(host, memory),
        Act::Reply => reply(host, memory),
        _ => failure(host, memory),
    }
}

// A call over as many of the program's own words as are lent, and its answer.
fn call(writer: &mut impl Write, act: Act, host: Host, memory: &mut Memory) -> io::Result<Host> {
    let before = mark(host, memory);
    let given = given_by(act, host, memory);
    let is_changed = before != mark(host, memory);
    let lengths = host.lengths;
    answers::write(
        writer,
        given.answer,
        given.tally,
        digests::digest(&memory.warm[..lengths.warm.min(WARM)]),
        digests::digest(&memory.results[..lengths.results.min(RESULTS)]),
        seen(
            &memory.cache[..lengths.cache.min(CACHE)],
            &memory.work[..lengths.work.min(WORK)],
            is_changed,
        ),
    )?;
    Ok(Host {
        state: given.state,
        tally: given.tally,
        ..host
    })
}

// ---- an act's own words

// Reads what an act has of its own; a setup, a failure and an act of any other number have
// nothing.
fn read_act(
    reader: &mut impl Read,
    act: Act,
    host: Host,
    left: &mut u64,
    memory: &mut Memory,
) -> io::Result<Host> {
    let mut next = host;
    match act {
        Act::Objective => next.parameters = reading::parameters(reader, left)?,
        Act::Reply => next.replied = read_words(reader, &mut memory.reply, left)?,
        Act::Warm => {
            read_words(reader, &mut memory.warm, left)?;
        }
        Act::Lengths => next.lengths = read_lengths(reader, left)?,
        Act::SetupAnew => next.setup = reading::setup(reader, left)?,
        Act::Counts => next.subjects = read_words(reader, &mut memory.counts, left)?,
        Act::Observations => {
            next.observations = read_observations(reader, &mut memory.observations, left)?;
        }
        Act::Tally => next.tally = read_tally(reader, left)?,
        Act::Setup | Act::Failure | Act::None => {}
    }
    Ok(next)
}

// ---- a session

// Reads and does the next act: the first four are calls over what is lent.
fn next_act(
    reader: &mut impl Read,
    writer: &mut impl Write,
    host: Host,
    left: &mut u64,
    memory: &mut Memory,
) -> io::Result<Host> {
    let act = act_of(reading::next(reader, left)?);
    let read = read_act(reader, act, host, left, memory)?;
    match act {
        Act::Setup | Act::Objective | Act::Reply | Act::Failure => call(writer, act, read, memory),
        _ => Ok(read),
    }
}

fn begin(reader: &mut impl Read, left: &mut u64, memory: &mut Memory) -> io::Result<Host> {
    let setup = reading::setup(reader, left)?;
    let lengths = read_lengths(reader, left)?;
    let subjects = read_words(reader, &mut memory.counts, left)?;
    let number = read_observations(reader, &mut memory.observations, left)?;
    let state = session::first_state(setup);
    Ok(Host {
        setup,
        state,
        tally: Tally {
            calls: Calls(77),
            cached_rows: CachedRows(7),
        },
        lengths,
        subjects,
        observations: number,
        parameters: state.parameters,
        replied: 0,
    })
}

fn untouch(memory: &mut Memory) {
    memory.observations.fill(UNTOUCHED);
    memory.counts.fill(UNTOUCHED);
    memory.reply.fill(UNTOUCHED);
    memory.cache.fill(UNTOUCHED);
    memory.work.fill(UNTOUCHED);
    memory.warm.fill(UNTOUCHED);
    memory.results.fill(UNTOUCHED);
}

// Runs the next session of the script. False at the end of the input.
fn replay_session(
    reader: &mut impl Read,
    writer: &mut impl Write,
    memory: &mut Memory,
) -> io::Result<bool> {
    let mut left = 1;
    let n = reading::next(reader, &mut left)?;
    if n == 0 {
        return Ok(false);
    }
    left = n;
    untouch(memory);
    let mut host = begin(reader, &mut left, memory)?;
    for _ in 0..u64::MAX {
        if left == 0 {
            break;
        }
        host = next_act(reader, writer, host, &mut left, memory)?;
    }
    Ok(true)
}

// The loops must be seen to end, and nothing says that an input does: so they count turns, to a number that no
// run reaches. A read or a write that fails ends the program with its error. The program's own words are made of
// zeros, once: arrays of other words would be made first, and then copied into the struct.
fn main(rt: HostRuntime) -> io::Result<()> {
    let mut stdin = rt.stdin();
    let mut stdout = rt.stdout();
    let mut memory = Memory {
        observations: [0; OBSERVATIONS],
        counts: [0; SUBJECTS],
        reply: [0; REPLY],
        cache: [0; CACHE],
        work: [0; WORK],
        warm: [0; WARM],
        results: [0; RESULTS],
    };
    for _ in 0..u64::MAX {
        if !replay_session(&mut stdin, &mut stdout, &mut memory)? {
            break;
        }
    }
    Ok(())
}
