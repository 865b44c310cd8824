// Reads a clip's text from standard input and writes the VBK file to standard output. What is wrong is told on standard error.
#![tactic(auto)]

use std::io::Write;

// Bytes that fill the room for a text.
const FULL: usize = 1048576;

// The file of the first n bytes.
fn make<O: Write, E: Write>(output: &mut O, errors: &mut E, text: &[u8; 1048576], n: usize) {
    let mut out = streams::large_buffer();
    let mut words = streams::buffer();
    let made = clip_make::make(clip_io::front(text, n), &mut out, &mut words);
    clip_io::tell(errors, clip_io::front(&words, made.said));
    if let Some(length) = made.file {
        clip_io::put_out(output, errors, clip_io::front(&out, length));
    }
}

fn main(rt: HostRuntime) {
    let mut input = rt.stdin();
    let mut output = rt.stdout();
    let mut errors = rt.stderr();
    let mut text = clip_io::text_room();
    let n = clip_io::read_text(&mut input, &mut text);
    if n == FULL {
        clip_io::tell(&mut errors, b"the text has more than 1048575 bytes\n");
        return;
    }
    if !clip_io::at_end(&mut input) {
        clip_io::tell(&mut errors, b"the text could not be read to its end\n");
        return;
    }
    let m = clip_io::in_bytes(&mut text, n);
    make(&mut output, &mut errors, &text, m);
}
