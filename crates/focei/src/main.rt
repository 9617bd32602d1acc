// Document 01's program: reads records from standard input and writes what `focei_fit::focei` makes of them.
// Only reading and writing are outside the proof: one that fails ends the program with its error.
#![tactic(auto)]

use std::io;
use std::io::Write;

fn main(rt: HostRuntime) -> io::Result<()> {
    let mut records = [0u8; focei_fit::INPUT_BYTES];
    let mut text = [0u8; focei_fit::LONGEST_TEXT];
    let got = input::read_full(&mut rt.stdin(), &mut records)?;
    let length = focei_fit::focei(&records, got, &mut text);
    rt.stdout().write_all(&text[..length])
}
