// Makes the text of each VBK file that its arguments name, and of the text a file again: a line says whether that is the same file, or why
// no text can say it.
#![tactic(auto)]

use std::io::Write;
use std::rt::{Env, Files};

fn put<O: Write>(output: &mut O, words: &[u8]) {
    streams::write_all(output, words);
}

// The file made of the text, beside the file that the text was made of.
fn back<O: Write>(output: &mut O, file: &[u8], text: &[u8]) {
    let mut out = streams::large_buffer();
    let mut words = streams::buffer();
    let made = clip_make::make(text, &mut out, &mut words);
    match made.file {
        Some(length) if file == clip_io::front(&out, length) => put(output, b"the same file\n"),
        Some(_) => put(output, b"another file\n"),
        None => {
            put(output, b"text refused: ");
            put(output, clip_io::front(&words, made.said));
        }
    }
}

// A file to a text and back.
fn round<O: Write>(output: &mut O, file: &[u8]) {
    let mut text = clip_io::text_room();
    match clip_dump::dump(file, &mut text) {
        Ok(length) => {
            streams::print_decimal(output, length as u64);
            put(output, b" bytes of text, ");
            back(output, file, clip_io::front(&text, length));
        }
        Err(length) => put(output, clip_io::front(&text, length)),
    }
}

fn run_file<R: Files, O: Write, E: Write>(rt: &R, output: &mut O, errors: &mut E, path: &[u8]) {
    match streams::open_read(rt, path) {
        Ok(mut from) => {
            let mut file = streams::large_buffer();
            let n = streams::read_full(&mut from, &mut file);
            put(output, path);
            put(output, b": ");
            round(output, &file[..n]);
        }
        Err(error) => {
            streams::fail(errors, path, error);
        }
    }
}

fn run_argument<R: Env + Files, O: Write, E: Write>(
    rt: &R,
    output: &mut O,
    errors: &mut E,
    i: usize,
) {
    let mut path = streams::buffer();
    let n = streams::arg(rt, i, &mut path);
    run_file(rt, output, errors, &path[..n]);
}

fn main(rt: HostRuntime) {
    let mut output = rt.stdout();
    let mut errors = rt.stderr();
    for i in 1..streams::arg_count(&rt) {
        run_argument(&rt, &mut output, &mut errors, i);
    }
}
