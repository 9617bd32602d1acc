// Replays recorded inputs of the leaves. Standard input holds a line for each: an operation's two digits and
// eight words in hexadecimal. For each line the answer is written in the same layout, so that what this
// program writes can be compared with the answers that the Rust original gave, crates/test_leaves/stdout.
#![tactic(auto)]

mod answers;

ghost use Rattle.std.specs.Prelude.{◌+◌, ◌≤◌, ◌<◌};

use std::io;
use std::io::{Read, Write};

// The value of a digit, decimal or hexadecimal in lower case; 0 for any other byte.
fn digit(glyph: u8) -> u64
    ensures { result < 16 }
{
    match glyph {
        b'0'..=b'9' => (glyph - b'0') as u64,
        b'a'..=b'f' => (glyph - b'a' + 10) as u64,
        _ => 0,
    }
}

// The glyph of a value below 16.
fn glyph(value: u64) -> u8
    requires { value < 16 }
{
    if value < 10 {
        return b'0' + value as u8;
    }
    b'a' + (value - 10) as u8
}

// The word whose sixteen digits start at a place of the line.
fn word_at(line: &[u8; 139], at: usize) -> u64
    requires { at + 16 ≤ 139 }
{
    let mut word: u64 = 0;
    for glyph in &line[at..at + 16] {
        word = word % 0x1000_0000_0000_0000 * 16 + digit(*glyph);
    }
    word
}

// Writes a word's sixteen digits at a place of the line.
fn put_word(line: &mut [u8; 139], at: usize, word: u64)
    requires { at + 16 ≤ 139 }
{
    for i in 0..16 {
        line[at + i] = glyph(word >> (60 - 4 * i) & 15);
    }
}

// The eight words of a line.
fn words_of(line: &[u8; 139]) -> [u64; 8] {
    [
        word_at(line, 3),
        word_at(line, 20),
        word_at(line, 37),
        word_at(line, 54),
        word_at(line, 71),
        word_at(line, 88),
        word_at(line, 105),
        word_at(line, 122),
    ]
}

// Puts eight words into a line.
fn put_words(line: &mut [u8; 139], words: [u64; 8]) {
    put_word(line, 3, words[0]);
    put_word(line, 20, words[1]);
    put_word(line, 37, words[2]);
    put_word(line, 54, words[3]);
    put_word(line, 71, words[4]);
    put_word(line, 88, words[5]);
    put_word(line, 105, words[6]);
    put_word(line, 122, words[7]);
}

// Reads a line and writes its answer. False at the end of the input.
fn replay_line(reader: &mut impl Read, writer: &mut impl Write) -> io::Result<bool> {
    let mut line = [0u8; 139];
    let got = input::read_full(reader, &mut line)?;
    if got < 139 {
        return Ok(false);
    }
    let operation = digit(line[0]) * 10 + digit(line[1]);
    let words = words_of(&line);
    put_words(&mut line, answers::answer(operation, words));
    writer.write_all(&line)?;
    Ok(true)
}

// The loop must be seen to end, and nothing says that an input does: so it counts turns, to a number that no run
// reaches. A read or a write that fails ends the program with its error.
fn main(rt: HostRuntime) -> io::Result<()> {
    let mut stdin = rt.stdin();
    let mut stdout = rt.stdout();
    for _ in 0..u64::MAX {
        if !replay_line(&mut stdin, &mut stdout)? {
            break;
        }
    }
    Ok(())
}
