// A reader, which is standard input, line by line through a buffer. What waits in it stands from `from` to `end`.
ghost use Rattle.std.specs.Prelude.{◌<◌, ◌≤◌, length};

use crate::kinds;
use crate::tally::{Counts, KINDS};
use lines::Line;
use std::io::Read;

// Moves what waits to the front; how much that is.
fn to_front(buf: &mut [u8], from: usize, end: usize) -> usize
    requires { (from ≤ end) × (end ≤ length buf.old) }
    ensures { result ≤ length buf.new }
{
    buf[..end].rotate_left(from);
    end - from
}

// Reads as much as there is room for behind `from`; the end of what is there then.
fn read_behind<I: Read>(input: &mut I, buf: &mut [u8], from: usize) -> usize
    requires { from ≤ length buf.old }
    ensures { (from ≤ result) × (result ≤ length buf.new) }
{
    let n = streams::read_full(input, &mut buf[from..]);
    from + n
}

// The kind of a call's line; 0, which no call has, where it has no counts of its own.
fn kind_of(line: &mut Line) -> usize
    ensures { result < 64 }
{
    match line.first_integer::<usize>() {
        Ok(kind) if kind < KINDS => kind,
        _ => 0,
    }
}

// Line `number`: a comment, nothing, or a call.
fn one_line(text: &[u8], number: u64, numbers: &mut [i64], counts: &mut [Counts; KINDS]) {
    if text.is_empty() || text.starts_with(b"#") {
        return;
    }
    let mut line = Line::new(text);
    let kind = kind_of(&mut line);
    counts[kind].add(kinds::verdict(kind, &mut line, numbers), number);
}

// All lines; false where one is longer than the buffer.
pub fn each_line<I: Read>(
    input: &mut I,
    buf: &mut [u8],
    numbers: &mut [i64],
    counts: &mut [Counts; KINDS],
) -> bool {
    let mut from = 0;
    let mut end = 0;
    let mut number = 0u64;
    // a proved loop has to end, and nothing says that the input does
    for turn in 0..u64::MAX {
        match buf[from..end].iter().position(|b| *b == b'\n') {
            Some(length) => {
                number += 1;
                one_line(&buf[from..from + length], number, numbers, counts);
                from += length + 1;
            }
            None => {
                let kept = to_front(buf, from, end);
                if kept == buf.len() {
                    return false;
                }
                from = 0;
                end = read_behind(input, buf, kept);
                if end == kept {
                    // the last line may have no end
                    number += 1;
                    one_line(&buf[..end], number, numbers, counts);
                    return true;
                }
            }
        }
    }
    true
}
