// The Rust's answers against our calls: lines of oracle/README.md on standard input, one line of counts for each kind.
#![tactic(auto)]

mod coder;
mod drivers;
mod feed;
mod kinds;
mod parts;
mod rows;
mod tally;
mod verdict;

use tally::{Counts, KINDS};

fn main(rt: HostRuntime) {
    let mut output = rt.stdout();
    let mut counts = [Counts::NONE; KINDS];
    // room for the longest list
    let mut numbers = [0i64; 65536];
    let mut buffer = streams::large_buffer();
    let all = feed::each_line(&mut rt.stdin(), &mut buffer, &mut numbers, &mut counts);
    // counts that cannot be written are seen to be missing by who reads them
    tally::print(&mut output, &counts);
    if !all {
        streams::write_all(&mut output, b"a line is too long\n");
    }
}
