// Reads a VBK file from standard input and writes its text to standard output. What is wrong is told on standard error.
#![tactic(auto)]

// Bytes that fill the room for a file.
const FULL: usize = 65536;

// A file of 65,536 bytes or more fills its room, and is too large whatever follows.
fn main(rt: HostRuntime) {
    let mut input = rt.stdin();
    let mut errors = rt.stderr();
    let mut file = streams::large_buffer();
    let mut text = clip_io::text_room();
    let n = streams::read_full(&mut input, &mut file);
    if n < FULL {
        if !clip_io::at_end(&mut input) {
            clip_io::tell(&mut errors, b"the file could not be read to its end\n");
            return;
        }
    }
    match clip_dump::dump(&file[..n], &mut text) {
        Ok(length) => clip_io::put_out(
            &mut rt.stdout(),
            &mut errors,
            clip_io::front(&text, length),
        ),
        Err(length) => clip_io::tell(&mut errors, clip_io::front(&text, length)),
    }
}
