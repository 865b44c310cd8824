// What can be wrong with a clip's text, and the words for it: a line for each, with the line's number, the record's, and the fault.
#![tactic(auto)]

ghost use Rattle.clip_rows.specs.Rows.{Said};

use std::fmt;
use std::fmt::{Display, InlineText, Write};

// No line of words is longer.
const LINE_LIMIT: usize = 256;

// Of a field so many bytes are shown.
const SHOWN: usize = 24;

// The kinds of rows.
#[derive(Clone, Copy, Debug, PartialEq, Eq)]
pub enum Row {
    Header,
    Samples,
    Record,
    Tokens,
}

// A column of a row, counted from 1; the numbers of a header and of a record have names.
#[derive(Clone, Copy, Debug, PartialEq, Eq)]
pub struct Column {
    pub row: Row,
    pub number: u64,
}

// A field, between marks: its first bytes, and `?` for those that cannot be shown.
#[derive(Clone, Copy)]
pub struct Quoted<'a> {
    pub bytes: &'a [u8],
}

// A field in its column.
#[derive(Clone, Copy)]
pub struct Cell<'a> {
    pub column: Column,
    pub text: &'a [u8],
}

// The size of a plane, as the header says it.
#[derive(Clone, Copy, Debug, PartialEq, Eq)]
pub struct Plane {
    pub width: u16,
    pub height: u16,
}

// What is wrong with a text.
#[derive(Clone, Copy)]
pub enum Fault<'a> {
    // no row begins so
    UnknownRow {
        first: &'a [u8],
    },
    HeaderLate,
    // the line of the first header
    SecondHeader {
        first: u64,
    },
    Empty {
        column: Column,
    },
    NotANumber(Cell<'a>),
    Below {
        cell: Cell<'a>,
        least: i64,
    },
    Above {
        cell: Cell<'a>,
        most: i64,
    },
    RunCount(Cell<'a>),
    // the numbers that a header or a record has, of those that it needs
    TooFew {
        row: Row,
        numbers: u64,
    },
    TooMany,
    Depth {
        depth: u8,
    },
    Retired,
    Area {
        plane: Plane,
    },
    // the line of the row that asks for so many
    SampleCount {
        line: u64,
        given: u64,
        plane: Plane,
    },
    SamplesLate,
    NoRecord,
    TokenCount {
        line: u64,
        given: u64,
        size: u8,
        need: usize,
    },
    FileLength {
        length: usize,
    },
    NoHeader,
    EmptyText,
    // by the writer, with this answer
    Refused {
        answer: u32,
    },
    More,
    // a warning: so many samples are above the depth's range, and where the first is
    Over {
        column: Column,
        count: u64,
        depth: u8,
    },
}

// A fault and where it is: the line, which an empty text has not, and the record, in the rows of one.
#[derive(Clone, Copy)]
pub struct Told<'a> {
    pub line: Option<u64>,
    pub record: Option<u64>,
    pub fault: Fault<'a>,
}

impl Display for Column {
    fn fmt<W: Write>(&self, f: &mut fmt::Formatter<W>) -> fmt::Result {
        match (self.row, self.number) {
            (Row::Header, 2) => f.write_str("depth"),
            (Row::Header, 3) => f.write_str("width"),
            (Row::Header, 4) => f.write_str("height"),
            (Row::Record, 2) => f.write_str("x"),
            (Row::Record, 3) => f.write_str("y"),
            (Row::Record, 4) => f.write_str("size"),
            (Row::Record, 5) => f.write_str("type"),
            (Row::Record, 6) => f.write_str("lossless"),
            (Row::Record, 7) => f.write_str("dc"),
            (Row::Record, 8) => f.write_str("ac"),
            (_, number) => write!(f, "column {number}"),
        }
    }
}

impl Display for Quoted<'_> {
    fn fmt<W: Write>(&self, f: &mut fmt::Formatter<W>) -> fmt::Result {
        f.write_str("'")?;
        for &b in self.bytes.iter().take(SHOWN) {
            f.write_char(shown(b))?;
        }
        f.write_str(if SHOWN < self.bytes.len() { "..'" } else { "'" })
    }
}

// `x '1.5'`
impl Display for Cell<'_> {
    fn fmt<W: Write>(&self, f: &mut fmt::Formatter<W>) -> fmt::Result {
        write!(f, "{} {}", self.column, Quoted { bytes: self.text })
    }
}

impl Display for Plane {
    fn fmt<W: Write>(&self, f: &mut fmt::Formatter<W>) -> fmt::Result {
        write!(f, "width {} by height {}", self.width, self.height)
    }
}

impl Display for Fault<'_> {
    fn fmt<W: Write>(&self, f: &mut fmt::Formatter<W>) -> fmt::Result {
        match *self {
            Fault::UnknownRow { first } => write!(
                f,
                "{} begins no row: a row begins with VBK, S, R, K or #",
                Quoted { bytes: first }
            ),
            Fault::HeaderLate => f.write_str("the first row is VBK,depth,width,height"),
            Fault::SecondHeader { first } => {
                write!(f, "a second VBK row, the first is in line {first}")
            }
            Fault::Empty { column } => write!(f, "{column} is empty"),
            Fault::NotANumber(cell) => write!(f, "{cell} is not a whole number"),
            Fault::Below { cell, least } => write!(f, "{cell} is below {least}"),
            Fault::Above { cell, most } => write!(f, "{cell} is above {most}"),
            Fault::RunCount(cell) => write!(f, "{cell}: a run COUNT*VALUE counts 1 to 65535"),
            Fault::TooFew {
                row: Row::Header,
                numbers,
            } => write!(f, "{numbers} numbers, VBK has 3: depth, width, height"),
            Fault::TooFew { numbers, .. } => write!(
                f,
                "{numbers} numbers, a record has 7 before its tokens: x, y, size, type, lossless, dc, ac"
            ),
            Fault::TooMany => f.write_str("more than 3 numbers, VBK has 3: depth, width, height"),
            Fault::Depth { depth } => write!(f, "depth {depth} is not 8 or 10"),
            Fault::Retired => f.write_str("depth 12 is read but no longer written, take 8 or 10"),
            Fault::Area { plane } => write!(
                f,
                "{plane} is {} samples, a plane has 1 to 4096",
                vbk_read::plane_area(plane.width, plane.height)
            ),
            Fault::SampleCount { given, plane, .. } => write!(
                f,
                "{given} samples, {plane} needs {}",
                vbk_read::plane_area(plane.width, plane.height)
            ),
            Fault::SamplesLate => {
                f.write_str("samples after a record, all S rows stand before the first R")
            }
            Fault::NoRecord => {
                f.write_str("tokens before the first record, a K row goes on with one")
            }
            Fault::TokenCount {
                given,
                size,
                need,
                ..
            } => write!(f, "{given} tokens, its size {size} needs {need}"),
            Fault::FileLength { length } => write!(
                f,
                "the file would have {length} bytes, a VBK file has at most 65535"
            ),
            Fault::NoHeader => f.write_str("the text ends, and has no row VBK,depth,width,height"),
            Fault::EmptyText => f.write_str("the text is empty"),
            Fault::Refused { answer } => write!(f, "the file is refused with answer {answer}"),
            Fault::More => f.write_str("more is wrong, the first 20 are told"),
            Fault::Over {
                column,
                count: 1,
                depth,
                ..
            } => write!(
                f,
                "warning: {column} is above {}, the largest of depth {depth}",
                top(depth)
            ),
            Fault::Over {
                column,
                count,
                depth,
                ..
            } => write!(
                f,
                "warning: {column} is the first of {count} samples above {}, the largest of depth {depth}",
                top(depth)
            ),
        }
    }
}

impl Display for Told<'_> {
    fn fmt<W: Write>(&self, f: &mut fmt::Formatter<W>) -> fmt::Result {
        if let Some(line) = self.line {
            write!(f, "line {line}: ")?;
        }
        if let Some(record) = self.record {
            write!(f, "record {record}: ")?;
        }
        writeln!(f, "{}", self.fault)
    }
}

// A byte that can be shown.
fn shown(b: u8) -> char {
    match b {
        b' '..=b'~' => char::from(b),
        _ => '?',
    }
}

// The largest sample of a depth.
pub fn top(depth: u8) -> u16 {
    match depth {
        8 => 255,
        10 => 1023,
        12 => 4095,
        _ => 65535,
    }
}

// A line of words, after those that are told already; the place past it.
pub fn tell(out: &mut [u8], at: usize, told: Told) -> usize
    ensures { Said out.old result out.new }
{
    let place = at.min(out.len());
    let line = InlineText::<LINE_LIMIT>::of(told);
    clip_rows::say(out, place, line.as_str().as_bytes())
}
