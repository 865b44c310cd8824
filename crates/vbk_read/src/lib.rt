// Reading a VBK file: the cursor, the header, the records, and the reader that keeps the file and the place together.
#![tactic(auto)]

ghost use Rattle.std.specs.Prelude.{◌≡◌, ◌+◌, ◌*◌, ◌≤◌, ◌<◌, length};
ghost use Rattle.whole.specs.Lists.{fill};
ghost use Rattle.answers.specs.Answers.{number};
ghost use Rattle.vbk_read.specs.Bytes.{le1, le2, le4, signed32};
ghost use Rattle.vbk_read.specs.Header.{sample_at, marked as isMarked, bad_area, fields_of, Headed};
ghost use Rattle.vbk_read.specs.Records.{head_at, token_at, is_found, record_number, next_in, Recorded, Opened};
ghost use Rattle.vbk_read.specs.Inner.{Took};

use answers::{Answer, Refusal};

// Bytes of the header before the samples.
pub const HEADER_BYTES: usize = 10;

// Bytes of a record before its tokens.
pub const HEAD_BYTES: usize = 11;

// A place in the file. Each read hands back the place past what it read.
#[derive(Clone, Copy)]
pub struct Cursor {
    pub at: usize,
}

// A value that was read, and the place past it.
#[derive(Clone, Copy)]
pub struct Got<T> {
    pub value: T,
    pub next: Cursor,
}

// What the header says, and the place past it.
#[derive(Clone, Copy)]
pub struct Fields {
    pub version: u16,
    pub depth: u8,
    pub width: u16,
    pub height: u16,
    pub next: Cursor,
}

// A record before its tokens, and the place of these.
#[derive(Clone, Copy)]
pub struct Head {
    pub x: u16,
    pub y: u16,
    pub size: u8,
    pub tx_type: u8,
    pub lossless: u8,
    pub dc: u16,
    pub ac: u16,
    pub next: Cursor,
}

// What a read finds at a place.
#[derive(Clone, Copy)]
pub enum Record {
    // No byte is left: there is no further record.
    End,
    // A record that is cut short or of no size: the reading ends with it.
    Last(Refusal),
    // A record whose lossless byte is refused, and the place past it.
    Skipped(Refusal, Cursor),
    // A whole record with a good lossless byte, and the place past it.
    Whole(Head, Cursor),
}

impl Record {
    // A record is there.
    pub fn is_found(self) -> bool
        ensures { result ≡ is_found self }
    {
        !matches!(self, Record::End)
    }

    // The answer of the record's own checks.
    pub fn answer(self) -> Answer
        ensures { number result ≡ record_number self }
    {
        match self {
            Record::Last(refusal) | Record::Skipped(refusal, _) => Err(refusal),
            Record::End | Record::Whole(_, _) => Ok(()),
        }
    }

    // The place to read on from, in a file of `end` bytes.
    pub fn next(self, end: usize) -> usize
        ensures { result ≡ next_in end self }
    {
        match self {
            Record::Skipped(_, next) | Record::Whole(_, next) => next.at,
            Record::End | Record::Last(_) => end,
        }
    }
}

impl Cursor {
    // One byte.
    pub fn read_u8(self, s: &[u8]) -> Got<u8>
        requires { self.at < length s.now }
        ensures { Took (le1 s.now self.at) (self.at + 1) result.value result.next.at }
    {
        let at = self.at;
        Got {
            value: s[at],
            next: Cursor { at: at + 1 },
        }
    }

    // Two bytes, the least first.
    pub fn read_u16(self, s: &[u8]) -> Got<u16>
        requires { self.at + 1 < length s.now }
        ensures { Took (le2 s.now self.at) (self.at + 2) result.value result.next.at }
    {
        let at = self.at;
        Got {
            value: u16::from_le_bytes([s[at], s[at + 1]]),
            next: Cursor { at: at + 2 },
        }
    }

    // Four bytes, the least first, in two's complement.
    pub fn read_i32(self, s: &[u8]) -> Got<i32>
        requires { self.at + 3 < length s.now }
        ensures { Took (signed32 (le4 s.now self.at)) (self.at + 4) result.value result.next.at }
    {
        let at = self.at;
        Got {
            value: i32::from_le_bytes([s[at], s[at + 1], s[at + 2], s[at + 3]]),
            next: Cursor { at: at + 4 },
        }
    }

    // The first `count` samples from here on, into the list.
    pub fn read_samples(self, s: &[u8], count: usize, samples: &mut [u16]) -> Cursor
        requires { (self.at + 2 * count ≤ length s.now) × (count ≤ length samples.old) }
        ensures { (result.at ≡ self.at + 2 * count) × (samples.new ≡ fill count (sample_at s.now self.at) samples.old) }
    {
        let mut c = self;
        for k in 0..count {
            let got = c.read_u16(s);
            samples[k] = got.value;
            c = got.next;
        }
        c
    }

    // The first `count` tokens from here on, into the list.
    pub fn read_tokens(self, s: &[u8], count: usize, tokens: &mut [i64]) -> Cursor
        requires { (self.at + 4 * count ≤ length s.now) × (count ≤ length tokens.old) }
        ensures { (result.at ≡ self.at + 4 * count) × (tokens.new ≡ fill count (token_at s.now self.at) tokens.old) }
    {
        let mut c = self;
        for k in 0..count {
            let got = c.read_i32(s);
            tokens[k] = i64::from(got.value);
            c = got.next;
        }
        c
    }

    // The seven numbers of a record before its tokens.
    pub fn read_head(self, s: &[u8]) -> Head
        requires { self.at + 11 ≤ length s.now }
        ensures { result ≡ head_at s.now self.at }
    {
        let x = self.read_u16(s);
        let y = x.next.read_u16(s);
        let size = y.next.read_u8(s);
        let tx_type = size.next.read_u8(s);
        let lossless = tx_type.next.read_u8(s);
        let dc = lossless.next.read_u16(s);
        let ac = dc.next.read_u16(s);
        let next = ac.next;
        Head {
            x: x.value,
            y: y.value,
            size: size.value,
            tx_type: tx_type.value,
            lossless: lossless.value,
            dc: dc.value,
            ac: ac.value,
            next,
        }
    }
}

// The file begins with "VBK".
fn marked(s: &[u8]) -> bool
    requires { 3 ≤ length s.now }
    ensures { result ≡ isMarked s.now }
{
    s.starts_with(b"VBK")
}

// What the header says after its mark.
fn read_fields(s: &[u8]) -> Fields
    requires { 10 ≤ length s.now }
    ensures { result ≡ fields_of s.now }
{
    let start = Cursor { at: 3 };
    let version = start.read_u16(s);
    let depth = version.next.read_u8(s);
    let width = depth.next.read_u16(s);
    let height = width.next.read_u16(s);
    let next = height.next;
    Fields {
        version: version.value,
        depth: depth.value,
        width: width.value,
        height: height.value,
        next,
    }
}

// How many samples a plane has.
pub fn plane_area(width: u16, height: u16) -> usize
    ensures { result ≡ width * height }
{
    usize::from(width) * usize::from(height)
}

// Width × height is not 1 to 4,096.
pub fn bad_area(area: usize) -> bool
    ensures { result ≡ bad_area area }
{
    area == 0 || answers::AREA_LIMIT < area
}

// The header, checked in the file's own order: what it says, or its refusal.
pub fn read_header(s: &[u8]) -> Result<Fields, Refusal>
    ensures { Headed s.now result }
{
    if answers::FILE_LIMIT < s.len() {
        return Err(Refusal::TooLarge);
    }
    if s.len() < HEADER_BYTES {
        return Err(Refusal::CutShort);
    }
    if !marked(s) {
        return Err(Refusal::Mark);
    }
    let f = read_fields(s);
    if f.version != 1 {
        return Err(Refusal::Version);
    }
    if answers::bad_depth(u32::from(f.depth)) {
        return Err(Refusal::Depth);
    }
    let n = plane_area(f.width, f.height);
    if bad_area(n) {
        return Err(Refusal::TooLarge);
    }
    if s.len() < HEADER_BYTES + 2 * n {
        return Err(Refusal::CutShort);
    }
    Ok(f)
}

// The record at a place, checked in the file's own order.
pub fn record_at(s: &[u8], at: usize) -> Record
    ensures { Recorded s.now at result }
{
    let end = s.len();
    if end <= at {
        return Record::End;
    }
    if end - at < HEAD_BYTES {
        return Record::Last(Refusal::CutShort);
    }
    let c = Cursor { at };
    let head = c.read_head(s);
    if 3 < head.size {
        return Record::Last(Refusal::Size);
    }
    let n = 4 * answers::area(u32::from(head.size) + 2);
    let from = at + HEAD_BYTES;
    if end - from < n {
        return Record::Last(Refusal::CutShort);
    }
    let next = Cursor { at: from + n };
    if 1 < head.lossless {
        return Record::Skipped(Refusal::LosslessByte, next);
    }
    Record::Whole(head, next)
}

// The lent file, a place in it, and the record there, kept together.
#[derive(Clone, Copy)]
pub struct Reader<'a> {
    pub file: &'a [u8],
    pub at: usize,
    pub record: Record,
}

// A reader of the file at a place.
pub fn open<'a>(file: &'a [u8], at: usize) -> Reader<'a>
    ensures { Opened file.entry at result }
{
    let record = record_at(file, at);
    Reader { file, at, record }
}

impl<'a> Reader<'a> {
    // The reader moved on, past its record.
    pub fn next(self) -> Reader<'a>
        ensures { Opened self.entry.file (next_in (length self.entry.file.now) self.entry.record) result }
    {
        let end = self.file.len();
        open(self.file, self.record.next(end))
    }
}
