// One number for every host: makes calls of every kind from a seed, and prints a digest of all answers and values. Standard input has
// the seed and how many calls of each kind. oracle/harness/digest.rs makes the same calls of the Rust.
#![tactic(auto)]

mod coder;
mod drivers;
mod files;
mod kind;
mod reports;
mod rows;
mod samples;
mod written;

use kind::Kind;
use lines::{Broken, Line};
use std::io::Write;

// The digest of `count` calls of a kind.
fn calls(kind: Kind, seed: u64, count: u64) -> u64 {
    let number = kind as u64;
    let keys = draws::draw(draws::draw(seed, 0), number);
    let mut digest = number;
    for i in 0..count {
        digest = kind.call(draws::draw(keys, i), digest);
    }
    digest
}

// A line: a name, and a digest behind it, which is written by itself, though the name could not be. Whether all was written.
fn print_line<O: Write>(output: &mut O, name: &str, digest: u64) -> bool {
    let named = streams::write_all(output, name.as_bytes());
    let told = streams::print_hex(output, digest) && streams::write_all(output, b"\n");
    named && told
}

// A line for each kind, then the one number. A line that cannot be written holds back none behind it.
fn print_all<O: Write>(output: &mut O, seed: u64, count: u64) -> bool {
    let mut digest = draws::feed(seed, count);
    let mut whole = true;
    for kind in Kind::ALL {
        let of_kind = calls(kind, seed, count);
        digest = draws::feed(digest, of_kind);
        whole &= print_line(output, kind.name(), of_kind);
    }
    print_line(output, "digest                         ", digest) && whole
}

// The seed, and how many calls of each kind.
fn seed_and_count(text: &[u8]) -> Result<(u64, u64), Broken> {
    let mut line = Line::new(text);
    let seed = line.first_integer()?;
    let count = line.integer()?;
    Ok((seed, count))
}

fn main(rt: HostRuntime) {
    let mut errors = rt.stderr();
    let mut buffer = streams::buffer();
    let n = streams::read_full(&mut rt.stdin(), &mut buffer);
    let Ok((seed, count)) = seed_and_count(&buffer[..n]) else {
        streams::write_all(&mut errors, b"no seed and count on standard input\n");
        return;
    };
    if !print_all(&mut rt.stdout(), seed, count) {
        streams::write_all(&mut errors, b"the digest could not be written to its end\n");
    }
}
