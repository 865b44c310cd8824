// A VBK file from a reader, and the text of its run to a writer. What is printed for the bytes read is the promise of `vbk::blockrun`. A
// program has no status to end with: a read or a write that fails is told by a line on standard error, which ../../tools/program turns into
// a status.
#![tactic(auto)]

ghost use Rattle.std.specs.Prelude.{◌≡◌, length};

use std::io::{Read, Write};

// Bytes that fill the room for a file.
const FULL: usize = 65536;

// Room for the plane of any file.
fn samples() -> [u16; 4096]
    ensures { 4096 ≡ length result }
{
    [0; 4096]
}

// Room for the answers of any file's records.
fn answers() -> [u8; 874]
    ensures { 874 ≡ length result }
{
    [0; 874]
}

// Runs the file that the input is and writes the text. A file of 65,536 bytes or more fills its room, and is too large whatever follows.
// Of a file that could not be read to its end nothing is written.
pub fn run<I: Read, O: Write, E: Write>(input: &mut I, output: &mut O, errors: &mut E) {
    let mut file = streams::large_buffer();
    let mut samples = samples();
    let mut answers = answers();
    let mut out = streams::large_buffer();
    let n = streams::read_full(input, &mut file);
    if n < FULL {
        if !streams::at_end(input) {
            streams::write_all(errors, b"the file could not be read to its end\n");
            return;
        }
    }
    let m = vbk::blockrun(&file[..n], &mut samples, &mut answers, &mut out);
    if !streams::write_all(output, &out[..m]) {
        streams::write_all(errors, b"the text could not be written to its end\n");
    }
}
