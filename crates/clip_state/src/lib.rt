// What is known of a clip's text so far, and how a row changes it.
#![tactic(auto)]

ghost use Rattle.std.specs.Prelude.{◌≡◌, ◌+◌, ◌*◌, ◌≤◌};
ghost use Rattle.clip_state.specs.Rows.{letter_row, line_after};

use clip_told::{Column, Fault, Plane, Row, Told};

// So many things that are wrong are told, and that there are more.
pub const MOST: u64 = 20;

// What the file so far takes: it has room for every record taken and for its tokens, and is no longer than a file may be.
#[derive(Clone, Copy)]
pub struct Extent {
    pub records: usize,
    // where the last record's tokens begin, and how many it needs
    pub start: usize,
    pub need: usize,
    pub length: usize,
    pub ghost records_fit: { 75 * records ≤ length },
    pub ghost tokens_fit: { 4 * (start + need) ≤ length },
    pub ghost is_short: { length ≤ 65535 },
}

// What the header says, and its line.
#[derive(Clone, Copy)]
pub struct Header {
    pub line: u64,
    pub depth: u8,
    pub plane: Plane,
}

// Samples above the depth's range: how many, and where the first is.
#[derive(Clone, Copy)]
pub struct Over {
    pub line: u64,
    pub column: Column,
    pub count: u64,
    pub depth: u8,
}

// The last record taken: its line and size, and how many tokens were given.
#[derive(Clone, Copy)]
pub struct Record {
    pub line: u64,
    pub size: u8,
    pub given: u64,
}

// What was read of a text.
#[derive(Clone, Copy)]
pub struct State {
    // lines that were read, and the last row of them
    pub line: u64,
    pub row: Option<Row>,
    // how many faults were told, how long their words are; whether samples or tokens are missing for one of them, so that their count tells
    // nothing
    pub faults: u64,
    pub said: usize,
    pub spoiled: bool,
    pub header: Option<Header>,
    // samples that were given, and those above the depth's range
    pub samples: u64,
    pub over: Option<Over>,
    // records whose row was met, and those taken
    pub met: u64,
    pub record: Option<Record>,
    pub extent: Extent,
}

// Which row the letter of a first field names.
pub fn letter_row(b: u8) -> Option<Row>
    ensures { result ≡ letter_row b }
{
    match b {
        b'S' => Some(Row::Samples),
        b'R' => Some(Row::Record),
        b'K' => Some(Row::Tokens),
        _ => None,
    }
}

// The number of tokens that a size asks for.
pub fn tokens_of(size: u8) -> usize
    ensures { (16 ≤ result) × (result ≤ 1024) }
{
    match size {
        0 => 16,
        1 => 64,
        2 => 256,
        _ => 1024,
    }
}

impl Extent {
    // Of no file.
    fn none() -> Extent
        ensures { result.length ≡ 0 }
    {
        Extent {
            records: 0,
            start: 0,
            need: 0,
            length: 0,
        }
    }

    // Of a file of so many samples.
    fn of_samples(n: usize) -> Extent
        requires { n ≤ 4096 }
        ensures { result.length ≡ 10 + 2 * n }
    {
        Extent {
            records: 0,
            start: 0,
            need: 0,
            length: 10 + 2 * n,
        }
    }

    // With one more record, for which there is room.
    fn with_record(self, need: usize) -> Extent
        requires { (16 ≤ need) × (self.length + 11 + 4 * need ≤ 65535) }
        ensures { (result.records ≡ self.records + 1) × ((result.start ≡ self.start + self.need) × (result.need ≡ need)) }
    {
        Extent {
            records: self.records + 1,
            start: self.start + self.need,
            need,
            length: self.length + 11 + 4 * need,
        }
    }
}

impl State {
    // Nothing is read yet.
    pub fn nothing() -> State
        ensures { (result.line ≡ 0) × (result.faults ≡ 0) }
    {
        State {
            line: 0,
            row: None,
            faults: 0,
            said: 0,
            spoiled: false,
            header: None,
            samples: 0,
            over: None,
            met: 0,
            record: None,
            extent: Extent::none(),
        }
    }

    // One line further.
    #[tactic(auto, unfolding(crate::specs::Rows::line_after))]
    pub fn next_line(&mut self)
        ensures { self.new.line ≡ line_after self.old.line }
    {
        self.line = self.line.saturating_add(1);
    }

    // The file begins, with room for its samples; where it has records already, it began.
    pub fn begin_file(&mut self, n: usize)
        requires { n ≤ 4096 }
        ensures { self.new.line ≡ self.old.line }
    {
        if self.extent.records == 0 {
            self.extent = Extent::of_samples(n);
        }
    }

    // The row of one more record is met.
    pub fn meet(&mut self)
        ensures { self.new.extent ≡ self.old.extent }
    {
        self.met = self.met.saturating_add(1);
    }

    // A record begins, for which the file has room.
    pub fn begin_record(&mut self, size: u8, need: usize)
        requires { (16 ≤ need) × (self.old.extent.length + 11 + 4 * need ≤ 65535) }
        ensures { self.new.extent.records ≡ self.old.extent.records + 1 }
    {
        self.record = Some(Record {
            line: self.line,
            size,
            given: 0,
        });
        self.spoiled = false;
        self.extent = self.extent.with_record(need);
    }

    // The samples, or the last record's tokens, are as many as were asked for; where some are missing for another reason, that was told.
    pub fn close(&self) -> Result<(), Fault<'static>> {
        if self.spoiled {
            return Ok(());
        }
        if self.met == 0 {
            self.close_samples()
        } else {
            self.close_tokens()
        }
    }

    fn close_samples(&self) -> Result<(), Fault<'static>> {
        match self.header {
            Some(Header { line, plane, .. })
                if self.samples != vbk_read::plane_area(plane.width, plane.height) as u64 => {
                Err(Fault::SampleCount {
                    line,
                    given: self.samples,
                    plane,
                })
            }
            _ => Ok(()),
        }
    }

    fn close_tokens(&self) -> Result<(), Fault<'static>> {
        match self.record {
            Some(Record { line, size, given }) if given != self.extent.need as u64 => {
                Err(Fault::TokenCount {
                    line,
                    given,
                    size,
                    need: self.extent.need,
                })
            }
            _ => Ok(()),
        }
    }

    // The text ends: there was a header, and what it and the last record asked for.
    pub fn finish(&self) -> Result<(), Fault<'static>> {
        if self.faults == 0 && self.header.is_none() {
            return Err(if self.line == 0 {
                Fault::EmptyText
            } else {
                Fault::NoHeader
            });
        }
        self.close()
    }

    // The record whose row is read.
    fn record_index(&self) -> Option<u64> {
        match self.row {
            Some(Row::Record | Row::Tokens) => self.met.checked_sub(1),
            _ => None,
        }
    }

    // A fault where it is to be told: past the twentieth, that there is more.
    pub fn told<'a>(&self, fault: Fault<'a>) -> Told<'a> {
        let line = asked_line(fault).unwrap_or(self.line);
        Told {
            line: if line == 0 { None } else { Some(line) },
            record: self.record_index(),
            fault: if self.faults < MOST {
                fault
            } else {
                Fault::More
            },
        }
    }

    // A fault was told, and reading goes on.
    pub fn go_past(&mut self, said: usize)
        ensures { self.new.said ≡ said }
    {
        self.faults = self.faults.saturating_add(1);
        self.said = said;
        self.spoiled = true;
    }

    // The warning of samples above the depth's range, in the line of the first.
    pub fn warning(&self) -> Option<Told<'static>> {
        let over = self.over?;
        Some(Told {
            line: Some(over.line),
            record: None,
            fault: Fault::Over {
                column: over.column,
                count: over.count,
                depth: over.depth,
            },
        })
    }
}

// The line of the row that asked for samples or tokens, where their count is wrong.
fn asked_line(fault: Fault) -> Option<u64> {
    match fault {
        Fault::SampleCount { line, .. } | Fault::TokenCount { line, .. } => Some(line),
        _ => None,
    }
}
