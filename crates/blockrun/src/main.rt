// Reads a VBK file from standard input, runs it, and writes the run's text to standard output.
#![tactic(auto)]

fn main(rt: HostRuntime) {
    vbk_io::run(&mut rt.stdin(), &mut rt.stdout(), &mut rt.stderr());
}
