// Texts on standard input with a line `====` after each: for each the words on what is wrong with it, or how long its file is
// and the first bytes of it, which show each number of a header and of a record in its place.
#![tactic(auto)]

ghost use Rattle.std.specs.Prelude.{◌≤◌, length};

use std::io::Write;

// Bytes of a mark, its line's end among them.
const MARK_BYTES: usize = 5;

fn put<O: Write>(output: &mut O, words: &[u8]) {
    streams::write_all(output, words);
}

// The place of the next line `====`; the end where there is none.
fn next_mark(all: &[u8]) -> usize
    ensures { result ≤ length all.now }
{
    all.iter().position(|&b| b == b'=').unwrap_or(all.len())
}

// A byte as a number, after a blank.
fn put_byte<O: Write>(output: &mut O, b: u8) {
    put(output, b" ");
    streams::print_decimal(output, b as u64);
}

fn put_bytes<O: Write>(output: &mut O, bytes: &[u8]) {
    for &b in bytes {
        put_byte(output, b);
    }
}

// How long a file is, and its first bytes: a header, two samples, a record before its tokens.
fn put_file<O: Write>(output: &mut O, file: &[u8]) {
    streams::print_decimal(output, file.len() as u64);
    put(output, b" bytes:");
    put_bytes(output, clip_io::front(file, 25));
    put(output, b"\n");
}

fn tell<O: Write>(output: &mut O, text: &[u8]) {
    let mut out = streams::large_buffer();
    let mut words = streams::buffer();
    let made = clip_make::make(text, &mut out, &mut words);
    put(output, clip_io::front(&words, made.said));
    if let Some(length) = made.file {
        put_file(output, clip_io::front(&out, length));
    }
}

// The texts one after the other.
fn tell_all<O: Write>(output: &mut O, all: &[u8]) {
    let mut rest = all;
    while !rest.is_empty() {
        let (text, mark) = rest.split_at(next_mark(rest));
        tell(output, text);
        match mark.get(MARK_BYTES..) {
            Some(next) => rest = next,
            None => return,
        }
    }
}

fn tell_front<O: Write>(output: &mut O, room: &[u8; 1048576], n: usize) {
    tell_all(output, clip_io::front(room, n));
}

fn main(rt: HostRuntime) {
    let mut room = clip_io::text_room();
    let n = clip_io::read_text(&mut rt.stdin(), &mut room);
    tell_front(&mut rt.stdout(), &room, n);
}
