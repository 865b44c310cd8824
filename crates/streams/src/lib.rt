// What the programs read, write and are given, over std: a reader read into a lent buffer, bytes and numbers written, the bytes of an
// argument, a file opened by such bytes. Where a call fails, a bool or a count says so, and no error, since the programs tell of it in one
// line of their own words or not at all. No function has a `requires`.
#![tactic(auto)]

ghost use Rattle.std.specs.Prelude.{◌≡◌, ◌≤◌, ◌++◌, ℕ, List, [], ◌∷◌, length, take, decimal, codes, IsTrue, IsErrAnd, IsUtf8};
ghost use Rattle.std.specs.IoError.{error_kind};
ghost use Rattle.std.specs.Io.KnownBytes.{Appends, Consumes, IsAtEnd};
ghost use Rattle.streams.specs.Hex.{sixteen_digits};

use std::env::FillError;
use std::fmt::InlineText;
use std::io::{Error, ErrorKind, Read, Write};
use std::rt::{Env, Files};
use std::{fs, io, str};

// 4,096 zeros, which hold any path.
pub fn buffer() -> [u8; 4096]
    ensures { 4096 ≡ length result }
{
    [0; 4096]
}

// 65,536 zeros, which hold any VBK file.
pub fn large_buffer() -> [u8; 65536]
    ensures { 65536 ≡ length result }
{
    [0; 65536]
}

// Reads until buf is full, the input ends or a read fails, and returns how many bytes it put at the start of buf. Which of the last two it
// was, `at_end` says.
pub fn read_full<R: Read>(reader: &mut R, buf: &mut [u8]) -> usize
    ensures in_bounds { result ≤ length buf.new }
    ensures bytes { Consumes (R.remaining reader.old) (R.remaining reader.new) (take result buf.new) }
{
    let mut done = 0;
    // a turn reads as much as the reader gives, so that no iterator counts the turns
    while done < buf.len() {
        match reader.read(&mut buf[done..]) {
            Ok(0) => break,
            Ok(n) => done += n,
            Err(_) => break,
        }
    }
    done
}

// Whether the input is at its end: one more read gives nothing. Where a read fails, it is not.
pub fn at_end<R: Read>(reader: &mut R) -> bool
    ensures { IsTrue result → IsAtEnd (R.remaining reader.new) }
{
    let mut one = [0u8; 1];
    match reader.read(&mut one) {
        Ok(n) => n == 0,
        Err(_) => false,
    }
}

// Writes all of the bytes; false where a write takes nothing or fails, when some of them may have been written.
pub fn write_all<W: Write>(writer: &mut W, bytes: &[u8]) -> bool
    ensures { IsTrue result → Appends (W.contents writer.old) (W.contents writer.new) bytes.now }
{
    writer.write_all(bytes).is_ok()
}

// Writes n in decimal digits, likewise.
pub fn print_decimal<W: Write>(writer: &mut W, n: u64) -> bool
    ensures { IsTrue result → Appends (W.contents writer.old) (W.contents writer.new) (decimal n) }
{
    write!(writer, "{n}").is_ok()
}

// Writes n in sixteen hexadecimal digits, likewise.
pub fn print_hex<W: Write>(writer: &mut W, n: u64) -> bool
    ensures { IsTrue result → Appends (W.contents writer.old) (W.contents writer.new) (sixteen_digits n) }
{
    write!(writer, "{n:016x}").is_ok()
}

// How many arguments the program was started with, its own name among them.
pub fn arg_count<E: Env>(env: &E) -> usize {
    for i in 0..usize::MAX {
        if let Err(FillError::NotPresent) = env.arg(i, &mut []) {
            return i;
        }
    }
    usize::MAX
}

// Puts the bytes of argument i at the start of buf, and returns how many there are: 0 where it is missing or longer than buf.
pub fn arg<E: Env>(env: &E, i: usize, buf: &mut [u8]) -> usize
    ensures { result ≤ length buf.new }
{
    match env.arg(i, buf) {
        Ok(n) => n,
        Err(_) => 0,
    }
}

// Opens a file for reading. std names files by text: a path that is no UTF-8 is an invalid file name.
pub fn open_read<F: Files>(files: &F, path: &[u8]) -> io::Result<F::File>
    ensures { ¬ (IsUtf8 path.now) → IsErrAnd result (λ e. error_kind e ≡ ErrorKind.InvalidFilename) }
{
    match str::from_utf8(path) {
        Ok(text) => fs::open(files, text),
        Err(_) => Err(Error::from(ErrorKind::InvalidFilename)),
    }
}

// Writes a line: what failed, as the caller names it, a colon and why; false where it was not written to its end.
pub fn fail<W: Write>(writer: &mut W, what: &[u8], error: Error) -> bool
    ensures { IsTrue result → (why : List ℕ)
        × Appends (W.contents writer.old) (W.contents writer.new) (what.now ++ codes ": " ++ why ++ (10 ∷ [])) }
{
    let text = InlineText::<128>::of(error);
    let named = write_all(writer, what);
    let parted = write_all(writer, b": ");
    let told = write_all(writer, os_words(text.as_str()).as_bytes());
    let ended = write_all(writer, b"\n");
    named & parted & told & ended
}

// The system's words for an error: its text without the number behind them.
fn os_words(text: &str) -> &str {
    match text.split_once(" (os error ") {
        Some((words, _)) => words,
        None => text,
    }
}

#[cfg(test)]
mod tests {
    use super::*;
    use std::test::Fail;

    // A reader that gives a byte at a time and fails after some, and a writer that takes a byte at a time and then none.
    #[derive(Drop)]
    struct Short {
        left: u8,
    }

    impl Read for Short {
        fn read(&mut self, buf: &mut [u8]) -> io::Result<usize> {
            if self.left == 0 {
                return Err(Error::from(ErrorKind::TimedOut));
            }
            if buf.len() == 0 {
                return Ok(0);
            }
            self.left -= 1;
            buf[0] = b'a';
            Ok(1)
        }
    }

    impl Write for Short {
        fn write(&mut self, bytes: &[u8]) -> io::Result<usize> {
            if self.left == 0 {
                return Ok(0);
            }
            self.left -= 1;
            Ok(bytes.len().min(1))
        }

        fn flush(&mut self) -> io::Result<()> {
            Ok(())
        }
    }

    #[test]
    fn reads_to_the_end(rt: HostRuntime) {
        let mut input: &[u8] = b"hello";
        let mut room = [0u8; 8];
        assert_eq!(rt; read_full(&mut input, &mut room), 5);
        assert_eq!(rt; room, *b"hello\0\0\0");
        assert!(rt; at_end(&mut input));
    }

    #[test]
    fn fills_its_room(rt: HostRuntime) {
        let mut input: &[u8] = b"hello";
        let mut room = [0u8; 3];
        assert_eq!(rt; read_full(&mut input, &mut room), 3);
        assert_eq!(rt; room, *b"hel");
        assert!(rt; !at_end(&mut input));
    }

    #[test]
    fn tells_a_read_that_fails(rt: HostRuntime) {
        let mut input = Short { left: 3 };
        let mut room = [0u8; 8];
        assert_eq!(rt; read_full(&mut input, &mut room), 3);
        assert_eq!(rt; room, *b"aaa\0\0\0\0\0");
        assert!(rt; !at_end(&mut input));
    }

    #[test]
    fn tells_a_write_that_fails(rt: HostRuntime) {
        assert!(rt; write_all(&mut Short { left: 5 }, b"hello"));
        assert!(rt; !write_all(&mut Short { left: 4 }, b"hello"));
        assert!(rt; !print_decimal(&mut Short { left: 2 }, 100));
        assert!(rt; !print_hex(&mut Short { left: 15 }, 1));
    }

    #[test]
    fn writes_numbers(rt: HostRuntime) -> Result<(), Fail> {
        let mut out = Vec::new(rt.alloc());
        assert!(rt; print_decimal(&mut out, 0));
        assert!(rt; write_all(&mut out, b" "));
        assert!(rt; print_decimal(&mut out, 18446744073709551615));
        assert!(rt; write_all(&mut out, b" "));
        assert!(rt; print_hex(&mut out, 0xdeadbeef));
        assert_eq!(rt;
            out.as_slice(),
            b"0 18446744073709551615 00000000deadbeef".as_slice()
        );
        Ok(())
    }

    // The words are the C library's.
    #[test]
    fn says_why(rt: HostRuntime) -> Result<(), Fail> {
        let mut out = Vec::new(rt.alloc());
        assert!(rt; fail(&mut out, b"x", Error::from_raw_os_error(2)));
        assert!(rt; fail(&mut out, b"", Error::from(ErrorKind::InvalidFilename)));
        assert_eq!(rt;
            out.as_slice(),
            b"x: No such file or directory\n: invalid filename\n".as_slice()
        );
        Ok(())
    }

    #[test]
    fn opens_by_bytes(rt: HostRuntime) -> Result<(), Fail> {
        for (path, kind) in [
            (b"".as_slice(), ErrorKind::NotFound),
            (b"\xff".as_slice(), ErrorKind::InvalidFilename),
        ] {
            match open_read(&rt, path) {
                Ok(_) => assert!(rt; false),
                Err(error) => assert_eq!(rt; error.kind(), kind),
            }
        }
        assert!(rt; at_end(&mut open_read(&rt, b"/dev/null")?));
        Ok(())
    }

    #[test]
    fn is_given_its_name(rt: HostRuntime) {
        let mut name = buffer();
        assert!(rt; 0 < arg_count(&rt));
        assert!(rt; 0 < arg(&rt, 0, &mut name));
        assert_eq!(rt; arg(&rt, 0, &mut name[..0]), 0);
        assert_eq!(rt; arg(&rt, arg_count(&rt), &mut name), 0);
        assert_eq!(rt; large_buffer().len(), 65536);
    }
}
