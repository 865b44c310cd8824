// Counts of a kind's lines: those that are the same, that differ, that were skipped, and the first that differs.
use crate::verdict::Verdict;
use std::io::Write;

// Kinds that have counts of their own.
pub const KINDS: usize = 64;

#[derive(Clone, Copy, PartialEq, Eq)]
pub struct Counts {
    same: u64,
    differ: u64,
    skipped: u64,
    first: Option<u64>,
}

impl Counts {
    // No line yet.
    pub const NONE: Counts = Counts {
        same: 0,
        differ: 0,
        skipped: 0,
        first: None,
    };

    // Counts line `number`.
    pub fn add(&mut self, verdict: Verdict, number: u64) {
        match verdict {
            Verdict::Same => self.same = self.same.saturating_add(1),
            Verdict::Skipped => self.skipped = self.skipped.saturating_add(1),
            Verdict::Differ => {
                self.differ = self.differ.saturating_add(1);
                self.first = self.first.or(Some(number));
            }
        }
    }
}

// The line of a kind. Each piece is written by itself, and one that cannot be written holds back none behind it.
fn print_kind<O: Write>(output: &mut O, kind: usize, counts: &Counts) {
    for (words, n) in [
        ("kind ", kind as u64),
        (" same ", counts.same),
        (" differ ", counts.differ),
        (" skipped ", counts.skipped),
    ] {
        streams::write_all(output, words.as_bytes());
        streams::print_decimal(output, n);
    }
    if let Some(first) = counts.first {
        streams::write_all(output, b" first ");
        streams::print_decimal(output, first);
    }
    streams::write_all(output, b"\n");
}

// A line for each kind that was met.
pub fn print<O: Write>(output: &mut O, counts: &[Counts; KINDS]) {
    for (kind, count) in counts.iter().enumerate() {
        if *count != Counts::NONE {
            print_kind(output, kind, count);
        }
    }
}
