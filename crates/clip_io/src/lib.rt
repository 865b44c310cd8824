// What the programs that make and dump clips share: room for a text, what is made to one writer, or one line to another, which is standard
// error. A program has no status to end with: ../../tools/program turns a line on standard error into one.
#![tactic(auto)]

ghost use Rattle.std.specs.Prelude.{◌≤◌};

use std::io::{Read, Write};

// Room for a text, and for one byte that shows it too long.
pub fn text_room() -> [u8; 1048576] {
    [0; 1048576]
}

// A text from a reader: how many bytes.
pub fn read_text<I: Read>(input: &mut I, text: &mut [u8; 1048576]) -> usize {
    streams::read_full(input, text)
}

// Which byte of a pair of UTF-16 comes first.
#[derive(Clone, Copy, Debug, PartialEq, Eq)]
enum Order {
    LowFirst,
    HighFirst,
}

// How a text is written, by its first two bytes; none in bytes. A pair that is the mark of UTF-16 says so, and so does one with a byte of 0,
// which no text in bytes begins with.
fn order_of(first: u8, second: u8) -> Option<Order> {
    match (first, second) {
        (255, 254) => Some(Order::LowFirst),
        (254, 255) => Some(Order::HighFirst),
        (_, 0) => Some(Order::LowFirst),
        (0, _) => Some(Order::HighFirst),
        _ => None,
    }
}

// A pair of UTF-16 as a byte: a blank for its mark, `?` for what is no ASCII.
fn narrow(low: u8, high: u8) -> u8 {
    match (high, low) {
        (0, 0..=127) => low,
        (254, 255) => b' ',
        _ => b'?',
    }
}

// n pairs made bytes.
fn narrow_all(text: &mut [u8; 1048576], n: usize, order: Order)
    requires { n ≤ 524288 }
{
    for i in 0..n {
        let first = text[2 * i];
        let second = text[2 * i + 1];
        text[i] = match order {
            Order::LowFirst => narrow(first, second),
            Order::HighFirst => narrow(second, first),
        };
    }
}

// A text of n bytes, in bytes: how many they are then.
pub fn in_bytes(text: &mut [u8; 1048576], n: usize) -> usize {
    if text.len() < n || n < 2 {
        return n;
    }
    match order_of(text[0], text[1]) {
        Some(order) => {
            narrow_all(text, n / 2, order);
            n / 2
        }
        None => n,
    }
}

// The first n bytes; all where there are fewer.
pub fn front(bytes: &[u8], n: usize) -> &[u8] {
    bytes.get(..n).unwrap_or(bytes)
}

// Whether the input is at its end: one more read gives nothing. Where a read fails, or failed before, it gives something else.
pub fn at_end<I: Read>(input: &mut I) -> bool {
    streams::at_end(input)
}

// Words for standard error.
pub fn tell<E: Write>(errors: &mut E, words: &[u8]) {
    streams::write_all(errors, words);
}

// What was made, to standard output.
pub fn put_out<O: Write, E: Write>(output: &mut O, errors: &mut E, bytes: &[u8]) {
    if !streams::write_all(output, bytes) {
        tell(errors, b"the output could not be written to its end\n");
    }
}
