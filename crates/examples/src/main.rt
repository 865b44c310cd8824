// Runs each VBK file that its arguments name, and writes the name on a line and the run's text after it.
#![tactic(auto)]

use std::io::Write;
use std::rt::{Env, Files};

fn run_file<R: Files, O: Write, E: Write>(rt: &R, output: &mut O, errors: &mut E, path: &[u8]) {
    match streams::open_read(rt, path) {
        Ok(mut file) => {
            streams::write_all(output, path);
            streams::write_all(output, b"\n");
            vbk_io::run(&mut file, output, errors);
        }
        Err(error) => {
            streams::fail(errors, path, error);
        }
    }
}

fn run_argument<R: Env + Files, O: Write, E: Write>(
    rt: &R,
    output: &mut O,
    errors: &mut E,
    i: usize,
) {
    let mut path = streams::buffer();
    let n = streams::arg(rt, i, &mut path);
    run_file(rt, output, errors, &path[..n]);
}

fn main(rt: HostRuntime) {
    let mut output = rt.stdout();
    let mut errors = rt.stderr();
    let count = streams::arg_count(&rt);
    for i in 1..count {
        run_argument(&rt, &mut output, &mut errors, i);
    }
}
