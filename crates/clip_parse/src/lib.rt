// A clip's text (docs/REFERENCE.md) read into the lists of a file, row by row. What is wrong is told in words, and reading goes on.
#![tactic(auto)]

ghost use Rattle.std.specs.Prelude.{◌≡◌, ◌+◌, ◌≤◌, ◌<◌, pos, length, IfSome, OnSome, IfOk};
ghost use Rattle.clip_rows.specs.Rows.{Tail};
ghost use Rattle.clip_parse.specs.Numbers.{IsWithin};

use clip_rows::{Line, Separator};
use clip_state::{Header, MOST, Over, State, letter_row, tokens_of};
use clip_told::{Cell, Column, Fault, Plane, Row};

// What a text says: what is known of it, and the lists of a file, one for each number of a record as `vbk_write` takes them, with room for
// those of any file.
#[derive(Drop)]
pub struct Clip {
    pub state: State,
    pub samples: [u16; 4096],
    pub xs: [u16; 874],
    pub ys: [u16; 874],
    pub sizes: [u8; 874],
    pub tx_types: [u8; 874],
    pub lossless: [u8; 874],
    pub dcs: [u16; 874],
    pub acs: [u16; 874],
    pub counts: [u32; 874],
    pub tokens: [i32; 16384],
}

// A row past its first fields: its text, what is left of it, and the column of the last field.
#[derive(Clone, Copy)]
struct Fields<'a> {
    row: Row,
    separator: Separator,
    text: &'a [u8],
    rest: &'a [u8],
    column: u64,
}

// The numbers of a record before its tokens.
#[derive(Clone, Copy)]
struct Head {
    x: u16,
    y: u16,
    size: u8,
    tx_type: u8,
    lossless: u8,
    dc: u16,
    ac: u16,
}

// So many samples or tokens of this value.
#[derive(Clone, Copy)]
struct Run<T> {
    count: u64,
    value: T,
}

// What is wrong with a row, and the fields with which it goes on; none where it does not.
#[derive(Clone, Copy)]
struct Wrong<'a> {
    fault: Fault<'a>,
    left: Option<Fields<'a>>,
}

impl<'a> From<Fault<'a>> for Wrong<'a> {
    fn from(fault: Fault<'a>) -> Wrong<'a> {
        Wrong { fault, left: None }
    }
}

// The number from `least` to `most` that the digits of a field are.
fn number<'a, T: TryFrom<i64>>(
    cell: Cell<'a>,
    digits: &'a [u8],
    least: i64,
    most: i64,
) -> Result<T, Fault<'a>>
where
    T::Error: Drop,
    ensures { IfOk result (λ value. IsWithin T.try_from_gives least most value) }
{
    match clip_rows::read_number(digits) {
        None => Err(Fault::NotANumber(cell)),
        Some(n) if n < least => Err(Fault::Below { cell, least }),
        Some(n) if most < n => Err(Fault::Above { cell, most }),
        Some(n) => T::try_from(n).map_err(|_| Fault::Above { cell, most }),
    }
}

// How many values a run COUNT*VALUE has.
fn count_of<'a>(cell: Cell<'a>, digits: &'a [u8]) -> Result<u64, Fault<'a>> {
    match clip_rows::read_number(digits) {
        None => Err(Fault::NotANumber(cell)),
        Some(n @ 1..=65535) => Ok(n as u64),
        Some(_) => Err(Fault::RunCount(cell)),
    }
}

// A field of samples or tokens: a number, or COUNT*VALUE.
fn run_of<'a, T: TryFrom<i64>>(cell: Cell<'a>, least: i64, most: i64) -> Result<Run<T>, Fault<'a>>
where
    T::Error: Drop,
{
    match clip_rows::at_star(cell.text) {
        Some((count, value)) => Ok(Run {
            count: count_of(cell, count)?,
            value: number(cell, value, least, most)?,
        }),
        None if cell.text.is_empty() => Err(Fault::Empty {
            column: cell.column,
        }),
        None => Ok(Run {
            count: 1,
            value: number(cell, cell.text, least, most)?,
        }),
    }
}

impl<'a> Fields<'a> {
    // The next field, if the row has one.
    fn next_cell(&mut self) -> Option<Cell<'a>>
        ensures onward { OnSome result (length self.new.rest.now < length self.old.rest.now) }
        ensures tail { Tail self.old.rest.now self.new.rest.now }
    {
        if self.rest.is_empty() {
            return None;
        }
        let field = clip_rows::next_field(self.rest, self.separator);
        self.rest = field.rest;
        self.column = self.column.saturating_add(1);
        Some(Cell {
            column: Column {
                row: self.row,
                number: self.column,
            },
            text: field.text,
        })
    }

    // The number of a header or of a record that comes next, from 0 to `most`.
    fn next_number<T: TryFrom<i64>>(&mut self, most: i64) -> Result<T, Fault<'a>>
    where
        T::Error: Drop,
        ensures within { IfOk result (λ value. IsWithin T.try_from_gives (pos 0) most value) }
        ensures tail { Tail self.old.rest.now self.new.rest.now }
    {
        match self.next_cell() {
            None => Err(Fault::TooFew {
                row: self.row,
                numbers: self.column.saturating_sub(1),
            }),
            Some(cell) if cell.text.is_empty() => Err(Fault::Empty {
                column: cell.column,
            }),
            Some(cell) => number(cell, cell.text, 0, most),
        }
    }

    // The seven numbers of a record before its tokens.
    fn next_head(&mut self) -> Result<Head, Fault<'a>>
        ensures { Tail self.old.rest.now self.new.rest.now }
    {
        Ok(Head {
            x: self.next_number(65535)?,
            y: self.next_number(65535)?,
            size: self.next_number(3)?,
            tx_type: self.next_number(255)?,
            lossless: self.next_number(1)?,
            dc: self.next_number(65535)?,
            ac: self.next_number(65535)?,
        })
    }

    // How much of the text is read.
    fn done(&self) -> usize {
        self.text.len().saturating_sub(self.rest.len())
    }
}

// Which row a first field names.
fn row_of(first: &[u8]) -> Option<Row> {
    match first {
        [letter] => letter_row(*letter),
        [b'V', b'B', b'K'] => Some(Row::Header),
        _ => None,
    }
}

// A line without the blanks and empty fields at its end.
fn row_text(line: &[u8], separator: Separator) -> &[u8] {
    match separator {
        Separator::Blank => clip_rows::trimmed(line, Separator::Any),
        _ => clip_rows::trimmed(line, separator),
    }
}

// Whether a line has nothing to read: it is blank, or begins with `#`.
fn is_skipped(line: &[u8]) -> bool {
    matches!(clip_rows::skip_blanks(line), [] | [b'#', ..])
}

impl Clip {
    // Nothing is read yet.
    fn nothing() -> Clip {
        Clip {
            state: State::nothing(),
            samples: [0; 4096],
            xs: [0; 874],
            ys: [0; 874],
            sizes: [0; 874],
            tx_types: [0; 874],
            lossless: [0; 874],
            dcs: [0; 874],
            acs: [0; 874],
            counts: [0; 874],
            tokens: [0; 16384],
        }
    }

    // Whether the header's numbers are those of a clip that can be written; then the file begins.
    fn begin_file(&mut self, depth: u8, plane: Plane) -> Result<(), Fault<'static>> {
        if answers::bad_depth(u32::from(depth)) {
            return Err(Fault::Depth { depth });
        }
        if answers::retired(u32::from(depth)) {
            return Err(Fault::Retired);
        }
        let n = vbk_read::plane_area(plane.width, plane.height);
        if n == 0 || answers::AREA_LIMIT < n {
            return Err(Fault::Area { plane });
        }
        self.state.begin_file(n);
        Ok(())
    }

    // The row VBK.
    fn take_header<'a>(&mut self, fields: Fields<'a>) -> Result<(), Fault<'a>> {
        if let Some(header) = self.state.header {
            return Err(Fault::SecondHeader { first: header.line });
        }
        let mut fields = fields;
        let depth = fields.next_number(255)?;
        let width = fields.next_number(65535)?;
        let height = fields.next_number(65535)?;
        let plane = Plane { width, height };
        self.state.header = Some(Header {
            line: self.state.line,
            depth,
            plane,
        });
        if !fields.rest.is_empty() {
            return Err(Fault::TooMany);
        }
        self.begin_file(depth, plane)
    }

    // Samples above the depth's range are taken, and remembered.
    fn note_over(&mut self, column: Column, run: Run<u16>) {
        let Some(Header { depth, .. }) = self.state.header else {
            return;
        };
        if run.value <= clip_told::top(depth) {
            return;
        }
        let mut over = self.state.over.unwrap_or(Over {
            line: self.state.line,
            column,
            count: 0,
            depth,
        });
        over.count = over.count.saturating_add(run.count);
        self.state.over = Some(over);
    }

    // A run of samples: those past every plane are only counted.
    fn add_samples(&mut self, column: Column, run: Run<u16>) {
        let count = self.state.samples.saturating_add(run.count);
        let from = self.state.samples.min(4096) as usize;
        let stop = count.min(4096) as usize;
        self.samples[from..stop].fill(run.value);
        self.note_over(column, run);
        self.state.samples = count;
    }

    // A run of tokens: those past the block are only counted, and those of no record are not.
    fn add_tokens(&mut self, run: Run<i32>) {
        let Some(mut record) = self.state.record else {
            return;
        };
        let need = self.state.extent.need as u64;
        let start = self.state.extent.start;
        let count = record.given.saturating_add(run.count);
        let from = record.given.min(need) as usize;
        let stop = count.min(need) as usize;
        self.tokens[start + from..start + stop].fill(run.value);
        record.given = count;
        self.state.record = Some(record);
    }

    // A field of samples or tokens.
    fn take_cell<'a>(&mut self, cell: Cell<'a>) -> Result<(), Fault<'a>> {
        match cell.column.row {
            Row::Samples => self.add_samples(cell.column, run_of(cell, 0, 65535)?),
            _ => self.add_tokens(run_of(cell, -2147483648, 2147483647)?),
        }
        Ok(())
    }

    // Samples or tokens to the row's end, or up to a field that is wrong, after which the row goes on.
    fn take_cells<'a>(&mut self, fields: Fields<'a>) -> Result<(), Wrong<'a>> {
        let mut left = fields;
        while let Some(cell) = left.next_cell() {
            if let Err(fault) = self.take_cell(cell) {
                return Err(Wrong {
                    fault,
                    left: Some(left),
                });
            }
        }
        Ok(())
    }

    // A record's numbers into the lists.
    fn store_head(&mut self, i: usize, head: Head, need: usize)
        requires { (i < 874) × (need ≤ 1024) }
        ensures { self.new.state ≡ self.old.state }
    {
        self.xs[i] = head.x;
        self.ys[i] = head.y;
        self.sizes[i] = head.size;
        self.tx_types[i] = head.tx_type;
        self.lossless[i] = head.lossless;
        self.dcs[i] = head.dc;
        self.acs[i] = head.ac;
        self.counts[i] = need as u32;
    }

    // A record for which the file has no room; where something else is wrong its length is not known.
    fn too_long(&mut self, length: usize) -> Result<(), Fault<'static>> {
        if self.state.faults == 0 {
            return Err(Fault::FileLength { length });
        }
        self.state.spoiled = true;
        Ok(())
    }

    // The row R: a record's numbers, and the tokens that follow them as in a row K.
    fn take_record<'a>(&mut self, fields: Fields<'a>) -> Result<(), Wrong<'a>> {
        let mut left = fields;
        let head = left.next_head()?;
        let need = tokens_of(head.size);
        let length = self.state.extent.length + 11 + 4 * need;
        if answers::FILE_LIMIT < length {
            return Ok(self.too_long(length)?);
        }
        self.store_head(self.state.extent.records, head, need);
        self.state.begin_record(head.size, need);
        left.row = Row::Tokens;
        self.take_cells(left)
    }

    // Whether a row may stand where it stands; where something is wrong already, that is not asked.
    fn check_order(&self, row: Row) -> Result<(), Fault<'static>> {
        if self.state.header.is_none() && row != Row::Header {
            return if self.state.faults == 0 {
                Err(Fault::HeaderLate)
            } else {
                Ok(())
            };
        }
        match row {
            Row::Samples if !self.state.spoiled && self.state.met != 0 => Err(Fault::SamplesLate),
            Row::Tokens if !self.state.spoiled && self.state.met == 0 => Err(Fault::NoRecord),
            _ => Ok(()),
        }
    }

    // What follows a row's first field.
    fn take_fields<'a>(&mut self, fields: Fields<'a>) -> Result<(), Wrong<'a>> {
        match fields.row {
            Row::Header => Ok(self.take_header(fields)?),
            Row::Record => self.take_record(fields),
            Row::Samples | Row::Tokens => self.take_cells(fields),
        }
    }

    // A row that is not blank. Where a record's row is met, what came before it is counted; where that is wrong, the row goes on after its
    // letter.
    fn take_row<'a>(&mut self, text: &'a [u8], separator: Separator) -> Result<(), Wrong<'a>>
        requires { 0 < length text.now }
    {
        let first = clip_rows::first_field(text);
        self.state.row = row_of(first.text);
        let Some(row) = self.state.row else {
            return Err(Wrong::from(Fault::UnknownRow { first: first.text }));
        };
        let fields = Fields {
            row,
            separator,
            text,
            rest: first.rest,
            column: 1,
        };
        self.check_order(row)?;
        if row == Row::Record {
            if let Err(fault) = self.state.close() {
                return Err(Wrong {
                    fault,
                    left: Some(fields),
                });
            }
            self.state.meet();
        }
        self.take_fields(fields)
    }

    // A line from its begin.
    fn take_line<'a>(&mut self, line: &'a [u8]) -> Result<(), Wrong<'a>> {
        self.state.next_line();
        let filled = clip_rows::trimmed(line, Separator::Any);
        if is_skipped(filled) {
            return Ok(());
        }
        let separator = Separator::of(filled);
        let text = row_text(line, separator);
        if text.is_empty() {
            return Ok(());
        }
        self.take_row(text, separator)
    }

    // What is left of a line after what was wrong: that of a record after its letter, another one after a field.
    fn go_on<'a>(&mut self, line: &'a [u8], left: Fields<'a>) -> Result<(), Wrong<'a>> {
        if left.row == Row::Record {
            self.state.meet();
        }
        let text = row_text(line, left.separator);
        self.take_fields(Fields {
            text,
            rest: text,
            ..left
        })
    }

    // What is wrong, told after the words that are there.
    fn note(&mut self, fault: Fault, words: &mut [u8])
        ensures { length words.new ≡ length words.old }
    {
        let said = clip_told::tell(words, self.state.said, self.state.told(fault));
        self.state.go_past(said);
    }

    // The text ends: what is missing is told, and samples above the depth's range.
    fn end(&mut self, words: &mut [u8])
        ensures { length words.new ≡ length words.old }
    {
        if let Err(fault) = self.state.finish() {
            self.note(fault, words);
        }
        if let Some(warning) = self.state.warning() {
            self.state.said = clip_told::tell(words, self.state.said, warning);
        }
    }
}

// Where reading goes on in a line, if it does: not where the text has no more byte.
fn onward<'a>(text: &'a [u8], line: Line<'a>, left: Option<Fields<'a>>) -> Option<&'a [u8]>
    ensures onward { IfSome result (λ rest. length rest.now < length text.now) }
    ensures tail { IfSome result (λ rest. Tail text.now rest.now) }
    ensures next { IfSome result (λ rest. length line.entry.rest.now ≤ length rest.now) }
{
    let done = left?.done();
    if done == 0 || text.len().saturating_sub(line.rest.len()) <= done {
        return None;
    }
    text.get(done..)
}

// All rows; what is wrong in words.
pub fn take_rows(text: &[u8], words: &mut [u8]) -> Clip
    ensures { length words.new ≡ length words.old }
{
    let mut clip = Clip::nothing();
    let mut rest = clip_rows::past_utf8_mark(text);
    let mut left: Option<Fields> = None;
    while !rest.is_empty() {
        let line = clip_rows::next_line(rest);
        let taken = match left {
            Some(fields) => clip.go_on(line.text, fields),
            None => clip.take_line(line.text),
        };
        left = None;
        let mut next = line.rest;
        if let Err(wrong) = taken {
            clip.note(wrong.fault, words);
            if MOST < clip.state.faults {
                return clip;
            }
            if let Some(more) = onward(rest, line, wrong.left) {
                left = wrong.left;
                next = more;
            }
        }
        rest = next;
    }
    clip.end(words);
    clip
}
