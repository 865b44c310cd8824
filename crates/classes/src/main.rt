// Runs the VBK files that its arguments name, `-` being standard input, in order and with one report, and writes how their tokens spread: a
// line for each size and class of magnitudes with its count and sum, then the total. With `--csv` before them, a table for a spreadsheet: the
// rows of each file, then those of all. What is counted is the promise of `vbk_report::replay_report`; what is not is told on standard error.
#![tactic(auto)]

ghost use Rattle.std.specs.Prelude.{◌≤◌, length};

use std::io::{self, Read, Write};
use std::rt::{Env, Files};

// Bytes that fill the room for a file.
const FULL: usize = 65536;

// The least magnitude of each class; the greatest is one less than the next class's least, and the last class has no end.
const LEAST: [u64; 11] = [0, 1, 2, 3, 4, 5, 7, 11, 19, 35, 67];

// How the tokens of the files that were run spread: for each of four sizes and eleven classes a count and a sum.
#[derive(Clone, Copy)]
struct Report {
    counts: [u32; 44],
    sums: [u64; 44],
}

impl Report {
    const NONE: Report = Report {
        counts: [0; 44],
        sums: [0; 44],
    };

    // All tokens that were counted.
    fn total(&self) -> u64 {
        let mut all = 0u64;
        for count in &self.counts {
            all += u64::from(*count);
        }
        all
    }
}

// What is not counted of a file, and why.
fn left_out<E: Write>(errors: &mut E, path: &[u8], why: &[u8]) {
    streams::write_all(errors, path);
    streams::write_all(errors, why);
}

// The number of an answer, at the end of a line. ../../classes has its words.
fn tell_answer<E: Write>(errors: &mut E, number: u64) {
    streams::print_decimal(errors, number);
    streams::write_all(errors, b"\n");
}

// A file whose header is refused, with its number.
fn refused<E: Write>(errors: &mut E, path: &[u8], number: u32) {
    left_out(errors, path, b": refused: ");
    tell_answer(errors, u64::from(number));
}

// `FILE: 2 of 12 records not counted: 5`
fn uncounted<E: Write>(errors: &mut E, path: &[u8], some: usize, records: usize, number: u8) {
    left_out(errors, path, b": ");
    streams::print_decimal(errors, some as u64);
    streams::write_all(errors, b" of ");
    streams::print_decimal(errors, records as u64);
    streams::write_all(errors, b" records not counted: ");
    tell_answer(errors, u64::from(number));
}

// The records that are not counted, answer by answer. The answers of the first `records` are there.
fn tell_records<E: Write>(errors: &mut E, path: &[u8], answers: &[u8; 874], records: usize) {
    for number in 1..21u8 {
        let some = answers
            .iter()
            .take(records)
            .filter(|answer| **answer == number)
            .count();
        if some != 0 {
            uncounted(errors, path, some, records, number);
        }
    }
}

// Runs the file that the input is over the report; whether it has a run. A file of 65,536 bytes or more fills its room, and is too large
// whatever follows.
fn run<I: Read, E: Write>(input: &mut I, errors: &mut E, path: &[u8], report: &mut Report) -> bool {
    let mut file = streams::large_buffer();
    let mut samples = [0u16; 4096];
    let mut answers = [0u8; 874];
    let n = streams::read_full(input, &mut file);
    if n < FULL && !streams::at_end(input) {
        left_out(errors, path, b": could not be read to its end\n");
        return false;
    }
    let outcome = vbk_report::replay_report(
        &file[..n],
        &mut samples,
        &mut answers,
        &mut report.counts,
        &mut report.sums,
    );
    match outcome {
        Ok(run) => {
            tell_records(errors, path, &answers, run.count);
            true
        }
        Err(refusal) => {
            refused(errors, path, u32::from(refusal));
            false
        }
    }
}

// The file at the path; standard input by its name.
fn run_file<R: Files + Input, E: Write>(
    rt: &R,
    errors: &mut E,
    path: &[u8],
    report: &mut Report,
) -> bool {
    if path == b"-".as_slice() {
        return run(&mut rt.reader(), errors, path, report);
    }
    match streams::open_read(rt, path) {
        Ok(mut file) => run(&mut file, errors, path, report),
        Err(error) => {
            streams::fail(errors, path, error);
            false
        }
    }
}

fn run_argument<R: Env + Files + Input, E: Write>(
    rt: &R,
    errors: &mut E,
    i: usize,
    report: &mut Report,
) -> bool {
    let mut path = streams::buffer();
    let n = streams::arg(rt, i, &mut path);
    run_file(rt, errors, &path[..n], report)
}

// A line for each size and class: size, class, count, sum; then the total.
fn print_report<O: Write>(output: &mut O, report: &Report) -> io::Result<()> {
    for (k, (count, sum)) in report.counts.iter().zip(&report.sums).enumerate() {
        let size = k / 11;
        let class = k % 11;
        output.write_all(b"C")?;
        writeln!(output, " {size} {class} {count} {sum}")?;
    }
    let total = report.total();
    output.write_all(b"N")?;
    writeln!(output, " {total}")
}

// A file's name as the first field of a row, between quotation marks: a byte that is a mark itself stands twice.
fn print_name<O: Write>(output: &mut O, name: &[u8]) -> io::Result<()> {
    output.write_all(b"\"")?;
    for byte in name {
        match *byte {
            b'"' => output.write_all(b"\"\"")?,
            other => output.write_all(&[other])?,
        }
    }
    output.write_all(b"\"")
}

// The fields from and to of a class: the last one has no end.
fn print_class<O: Write>(output: &mut O, class: usize) -> io::Result<()>
    requires { class ≤ 10 }
{
    let least = LEAST[class];
    write!(output, ",{least},")?;
    match LEAST.get(class + 1) {
        Some(next) => {
            let greatest = next.saturating_sub(1);
            write!(output, "{greatest}")
        }
        None => Ok(()),
    }
}

// A row of the table: the file's name, size, class, from, to, count, sum.
fn print_row<O: Write>(
    output: &mut O,
    name: &[u8],
    k: usize,
    count: u64,
    sum: u64,
) -> io::Result<()> {
    let size = k / 11;
    let class = k % 11;
    print_name(output, name)?;
    write!(output, ",{size},{class}")?;
    print_class(output, class)?;
    writeln!(output, ",{count},{sum}")
}

// The rows of what a report counts more than an older one.
fn print_rows<O: Write>(
    output: &mut O,
    name: &[u8],
    old: &Report,
    report: &Report,
) -> io::Result<()> {
    for k in 0..44usize {
        let count = u64::from(report.counts[k].saturating_sub(old.counts[k]));
        let sum = report.sums[k].saturating_sub(old.sums[k]);
        print_row(output, name, k, count, sum)?;
    }
    Ok(())
}

fn print_argument<R: Env, O: Write>(
    rt: &R,
    output: &mut O,
    i: usize,
    old: &Report,
    report: &Report,
) -> io::Result<()> {
    let mut path = streams::buffer();
    let n = streams::arg(rt, i, &mut path);
    print_rows(output, &path[..n], old, report)
}

fn tell_unwritten<E: Write>(errors: &mut E, printed: io::Result<()>) {
    if printed.is_err() {
        streams::write_all(errors, b"the text could not be written to its end\n");
    }
}

// The report of all files.
fn print_all<R: Env + Files + Input, O: Write, E: Write>(
    rt: &R,
    output: &mut O,
    errors: &mut E,
    count: usize,
) {
    let mut report = Report::NONE;
    for i in 1..count {
        run_argument(rt, errors, i, &mut report);
    }
    let printed = print_report(output, &report);
    tell_unwritten(errors, printed);
}

// The table of each file, and of all. Files are run to the last one, though the table may not be written so far.
fn table<R: Env + Files + Input, O: Write, E: Write>(
    rt: &R,
    output: &mut O,
    errors: &mut E,
    count: usize,
) {
    let mut report = Report::NONE;
    let mut printed = output.write_all(b"file,size,class,from,to,count,sum\n");
    for i in 2..count {
        let old = report;
        if run_argument(rt, errors, i, &mut report) && printed.is_ok() {
            printed = print_argument(rt, output, i, &old, &report);
        }
    }
    if printed.is_ok() {
        printed = print_rows(output, b"all", &Report::NONE, &report);
    }
    tell_unwritten(errors, printed);
}

// Whether the first word is --csv.
fn wants_csv<R: Env>(rt: &R) -> bool {
    let mut word = streams::buffer();
    let n = streams::arg(rt, 1, &mut word);
    &word[..n] == b"--csv".as_slice()
}

fn main(rt: HostRuntime) {
    let mut output = rt.stdout();
    let mut errors = rt.stderr();
    let count = streams::arg_count(&rt);
    if wants_csv(&rt) {
        table(&rt, &mut output, &mut errors, count);
    } else {
        print_all(&rt, &mut output, &mut errors, count);
    }
}
