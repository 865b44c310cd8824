// A clip's text made of a VBK file (docs/REFERENCE.md): a row for the header, one for each row of samples, and for each record its own row
// and one for each row of tokens. A file that no text can say is told in words.
// Each function takes the place to write at beside the buffer and hands back the next one: how far it is at most is what its contract says, and
// a struct that held the buffer would have to say in each clause besides that it still holds it.
#![tactic(auto)]

ghost use Rattle.std.specs.Prelude.{◌≡◌, ◌+◌, ◌*◌, ◌≤◌, ◌<◌, length, IfOk, MatchResult};
ghost use Rattle.clip_rows.specs.Rows.{Said};
ghost use Rattle.clip_dump.specs.Inner.{Within, Plane};

use std::fmt;
use std::fmt::{Display, InlineText, Write};
use vbk_read::{Cursor, Head, Record};

// No text is longer: 16 bytes for each of the longest file.
pub const TEXT_LIMIT: usize = 1048560;

// No line of words is longer.
const LINE_LIMIT: usize = 256;

// Why no text can say a file: the answer's number of its header or of a record, and which record that is.
#[derive(Clone, Copy)]
enum Refused {
    Header { answer: u32 },
    Record { index: u64, at: usize, answer: u32 },
}

// What an answer of the header or a record means.
#[derive(Clone, Copy)]
struct Meaning {
    answer: u32,
}

// The place of the next record in the file, and the place past this one's rows in the text.
#[derive(Clone, Copy)]
struct Step {
    next: usize,
    place: usize,
}

impl Display for Meaning {
    fn fmt<W: Write>(&self, f: &mut fmt::Formatter<W>) -> fmt::Result {
        f.write_str(match self.answer {
            1 => "the depth is not 8, 10 or 12",
            2 => "the size is above 3, and the next record's place is not known",
            10 => "the file does not begin with VBK",
            11 => "the version is not 1",
            12 => "the file is cut short",
            13 => "the file is above 65535 bytes, or width times height is not 1 to 4096",
            14 => "the lossless byte is above 1",
            _ => "",
        })?;
        write!(f, " (answer {})", self.answer)
    }
}

impl Display for Refused {
    fn fmt<W: Write>(&self, f: &mut fmt::Formatter<W>) -> fmt::Result {
        match *self {
            Refused::Header { answer } => writeln!(f, "header: {}", Meaning { answer }),
            Refused::Record { index, at, answer } => {
                writeln!(f, "record {index} at byte {at}: {}", Meaning { answer })
            }
        }
    }
}

// One byte.
fn put_byte(out: &mut [u8], at: usize, b: u8) -> usize
    requires { at < length out.old }
    ensures { Within out.old at 1 result out.new }
{
    out[at] = b;
    at + 1
}

// A number in decimal.
fn put_decimal(out: &mut [u8], at: usize, n: u64) -> usize
    requires { at + 20 ≤ length out.old }
    ensures { Within out.old at 20 result out.new }
{
    vbk_text::put_decimal(out, at, n)
}

// A comma and a number.
fn put_number(out: &mut [u8], at: usize, n: u64) -> usize
    requires { at + 21 ≤ length out.old }
    ensures { Within out.old at 21 result out.new }
{
    let a = put_byte(out, at, b',');
    put_decimal(out, a, n)
}

// A comma, a minus and a number.
fn put_negative(out: &mut [u8], at: usize, n: u64) -> usize
    requires { at + 22 ≤ length out.old }
    ensures { Within out.old at 22 result out.new }
{
    let a = put_byte(out, at, b',');
    let b = put_byte(out, a, b'-');
    put_decimal(out, b, n)
}

// A comma and a token.
fn put_token(out: &mut [u8], at: usize, t: i32) -> usize
    requires { at + 22 ≤ length out.old }
    ensures { Within out.old at 22 result out.new }
{
    let m = answers::magnitude(i64::from(t));
    if t < 0 {
        return put_negative(out, at, m);
    }
    put_number(out, at, m)
}

// Three numbers.
fn put_three(out: &mut [u8], at: usize, l: u64, m: u64, n: u64) -> usize
    requires { at + 63 ≤ length out.old }
    ensures { Within out.old at 63 result out.new }
{
    let a = put_number(out, at, l);
    let b = put_number(out, a, m);
    put_number(out, b, n)
}

// `VBK`
fn put_mark(out: &mut [u8]) -> usize
    requires { 3 ≤ length out.old }
    ensures { Within out.old 0 3 result out.new }
{
    let a = put_byte(out, 0, b'V');
    let b = put_byte(out, a, b'B');
    put_byte(out, b, b'K')
}

// `VBK,depth,width,height`
fn put_header(out: &mut [u8], depth: u8, width: u16, height: u16) -> usize
    requires { 67 ≤ length out.old }
    ensures { Within out.old 0 67 result out.new }
{
    let a = put_mark(out);
    let b = put_three(
        out,
        a,
        u64::from(depth),
        u64::from(width),
        u64::from(height),
    );
    put_byte(out, b, b'\n')
}

// The samples of a row, which begins at a place of the file.
fn put_samples(out: &mut [u8], at: usize, file: &[u8], from: usize, width: usize) -> usize
    requires { (at + 21 * width ≤ length out.old) × (from + 2 * width ≤ length file.now) }
    ensures { Within out.old at (21 * width) result out.new }
{
    let mut place = at;
    for k in 0..width {
        let c = Cursor { at: from + 2 * k };
        let got = c.read_u16(file);
        place = put_number(out, place, u64::from(got.value));
    }
    place
}

// `S` and the samples of a row.
fn put_row(out: &mut [u8], at: usize, file: &[u8], from: usize, width: usize) -> usize
    requires { (at + 2 + 21 * width ≤ length out.old) × (from + 2 * width ≤ length file.now) }
    ensures { Within out.old at (2 + 21 * width) result out.new }
{
    let a = put_byte(out, at, b'S');
    let b = put_samples(out, a, file, from, width);
    put_byte(out, b, b'\n')
}

// All rows of samples.
fn put_plane(out: &mut [u8], at: usize, file: &[u8], width: usize, height: usize) -> usize
    requires { (0 < width) × ((at + 23 * (height * width) ≤ length out.old) × (10 + 2 * (height * width) ≤ length file.now)) }
    ensures { Within out.old at (23 * (height * width)) result out.new }
{
    let mut place = at;
    for r in 0..height {
        place = put_row(out, place, file, 10 + 2 * (r * width), width);
    }
    place
}

// The tokens of a row, which begins at a place of the file.
fn put_tokens(out: &mut [u8], at: usize, file: &[u8], from: usize, side: usize) -> usize
    requires { (at + 22 * side ≤ length out.old) × (from + 4 * side ≤ length file.now) }
    ensures { Within out.old at (22 * side) result out.new }
{
    let mut place = at;
    for k in 0..side {
        let c = Cursor { at: from + 4 * k };
        let got = c.read_i32(file);
        place = put_token(out, place, got.value);
    }
    place
}

// `K` and the tokens of a row.
fn put_line(out: &mut [u8], at: usize, file: &[u8], from: usize, side: usize) -> usize
    requires { (at + 2 + 22 * side ≤ length out.old) × (from + 4 * side ≤ length file.now) }
    ensures { Within out.old at (2 + 22 * side) result out.new }
{
    let a = put_byte(out, at, b'K');
    let b = put_tokens(out, a, file, from, side);
    put_byte(out, b, b'\n')
}

// All rows of a record's tokens.
fn put_block(out: &mut [u8], at: usize, file: &[u8], from: usize, side: usize) -> usize
    requires { (0 < side) × ((at + 24 * (side * side) ≤ length out.old) × (from + 4 * (side * side) ≤ length file.now)) }
    ensures { Within out.old at (24 * (side * side)) result out.new }
{
    let mut place = at;
    for r in 0..side {
        place = put_line(out, place, file, from + 4 * (r * side), side);
    }
    place
}

// `,x,y,size,type,lossless,dc`
fn put_six(out: &mut [u8], at: usize, h: Head) -> usize
    requires { at + 126 ≤ length out.old }
    ensures { Within out.old at 126 result out.new }
{
    let a = put_three(out, at, u64::from(h.x), u64::from(h.y), u64::from(h.size));
    put_three(
        out,
        a,
        u64::from(h.tx_type),
        u64::from(h.lossless),
        u64::from(h.dc),
    )
}

// `R,x,y,size,type,lossless,dc,ac`
fn put_head(out: &mut [u8], at: usize, h: Head) -> usize
    requires { at + 149 ≤ length out.old }
    ensures { Within out.old at 149 result out.new }
{
    let a = put_byte(out, at, b'R');
    let b = put_six(out, a, h);
    let c = put_number(out, b, u64::from(h.ac));
    put_byte(out, c, b'\n')
}

// The rows of a record at a place of the file.
fn put_record(out: &mut [u8], at: usize, file: &[u8], from: usize, h: Head, side: usize) -> usize
    requires { (0 < side) × ((at + 149 + 24 * (side * side) ≤ length out.old) × (from + 11 + 4 * (side * side) ≤ length file.now)) }
    ensures { Within out.old at (149 + 24 * (side * side)) result out.new }
{
    let a = put_head(out, at, h);
    put_block(out, a, file, from + 11, side)
}

// The rows of the record at a place of the file, or its answer's number.
fn put_one(out: &mut [u8], at: usize, file: &[u8], from: usize) -> Result<Step, u32>
    requires { (at ≤ 16 * from) × ((from < length file.now) × (16 * length file.now ≤ length out.old)) }
    ensures step { IfOk result (λ s. (s.place ≤ 16 * s.next) × ((from < s.next) × (s.next ≤ length file.now))) }
    ensures room { length out.new ≡ length out.old }
{
    match vbk_read::record_at(file, from) {
        Record::Whole(head, next) => {
            let side = answers::side(u32::from(head.size) + 2);
            Ok(Step {
                next: next.at,
                place: put_record(out, at, file, from, head, side),
            })
        }
        refused => Err(answers::code(refused.answer())),
    }
}

// The rows of all records from a place on, where none is refused; the place past them.
fn put_records(out: &mut [u8], at: usize, file: &[u8], from: usize) -> Result<usize, Refused>
    requires { (at ≤ 16 * from) × ((from ≤ length file.now) × (16 * length file.now ≤ length out.old)) }
    ensures place { IfOk result (λ n. n ≤ length out.new) }
    ensures room { length out.new ≡ length out.old }
{
    let mut place = at;
    let mut p = from;
    let mut index: u64 = 0;
    while p < file.len() {
        match put_one(out, place, file, p) {
            Ok(step) => {
                place = step.place;
                p = step.next;
            }
            Err(answer) => {
                return Err(Refused::Record {
                    index,
                    at: p,
                    answer,
                });
            }
        }
        index = index.saturating_add(1);
    }
    Ok(place)
}

// The rows of a file with a good header.
fn put_file(
    out: &mut [u8],
    file: &[u8],
    depth: u8,
    width: u16,
    height: u16,
) -> Result<usize, Refused>
    requires { Plane file.now width height × (1048560 ≤ length out.old) }
    ensures place { IfOk result (λ n. n ≤ length out.new) }
    ensures room { length out.new ≡ length out.old }
{
    let w = usize::from(width);
    let h = usize::from(height);
    let a = put_header(out, depth, width, height);
    let b = put_plane(out, a, file, w, h);
    put_records(out, b, file, 10 + 2 * (h * w))
}

// The text of a file, in a buffer that has room for the longest; how long it is.
fn dump_text(file: &[u8], out: &mut [u8]) -> Result<usize, Refused>
    requires { 1048560 ≤ length out.old }
    ensures place { IfOk result (λ n. n ≤ length out.new) }
    ensures room { length out.new ≡ length out.old }
{
    match vbk_read::read_header(file) {
        Ok(f) => put_file(out, file, f.depth, f.width, f.height),
        Err(refusal) => Err(Refused::Header {
            answer: u32::from(refusal),
        }),
    }
}

// The words on what is wrong, at the start of the buffer.
fn tell(out: &mut [u8], refused: Refused) -> usize
    ensures { Said out.old result out.new }
{
    let line = InlineText::<LINE_LIMIT>::of(refused);
    clip_rows::say(out, 0, line.as_str().as_bytes())
}

// The text of a file, at the start of the buffer, and how long it is; or words on what is wrong there, and how long these are: none where
// the longest text has no room.
pub fn dump(file: &[u8], out: &mut [u8]) -> Result<usize, usize>
    ensures { MatchResult result (λ n. Said out.old n out.new) (λ n. Said out.old n out.new) }
{
    if out.len() < TEXT_LIMIT {
        return Err(0);
    }
    match dump_text(file, out) {
        Ok(length) => Ok(length),
        Err(refused) => Err(tell(out, refused)),
    }
}
