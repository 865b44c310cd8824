// The rows of a clip's text (docs/REFERENCE.md): lines, fields and numbers, each the front of the bytes that are left; and words put into a buffer.
#![tactic(auto)]

ghost use Rattle.std.specs.Prelude.{◌≡◌, ◌+◌, ◌≤◌, ◌<◌, length, IfSome};
ghost use Rattle.clip_rows.specs.Rows.{Front, Piece, Said, Tail};

// A line without its end, and the lines after it.
#[derive(Clone, Copy)]
pub struct Line<'a> {
    pub text: &'a [u8],
    pub rest: &'a [u8],
}

// A field without the blanks around it, and what is left of its row.
#[derive(Clone, Copy)]
pub struct Field<'a> {
    pub text: &'a [u8],
    pub rest: &'a [u8],
}

// What parts the fields of a row.
#[derive(Clone, Copy, Debug, PartialEq, Eq)]
pub enum Separator {
    // it is not known yet: any comma, semicolon or tab
    Any,
    Blank,
    Mark(u8),
}

impl Separator {
    // The first comma, semicolon or tab of a row outside quotation marks; a blank where there is none.
    pub fn of(row: &[u8]) -> Separator {
        let end = cell_end(row, Separator::Any);
        row.get(end)
            .map_or(Separator::Blank, |&b| Separator::Mark(b))
    }

    // Whether a byte parts fields.
    fn parts(self, b: u8) -> bool {
        match self {
            Separator::Any => is_mark(b),
            Separator::Blank => b == b' ',
            Separator::Mark(mark) => b == mark,
        }
    }
}

// A blank, the carriage return before a line's end, or a quotation mark.
fn is_blank(b: u8) -> bool {
    matches!(b, b' ' | b'\r' | b'"')
}

// Comma, semicolon or tab.
fn is_mark(b: u8) -> bool {
    matches!(b, b',' | b';' | b'\t')
}

// The text from its first byte on that is no blank.
pub fn skip_blanks(text: &[u8]) -> &[u8]
    ensures { Tail text.now result.now }
{
    let blanks = text
        .iter()
        .position(|&b| !is_blank(b))
        .unwrap_or(text.len());
    &text[blanks..]
}

// The text without the blanks and separators at its end.
pub fn trimmed(text: &[u8], separator: Separator) -> &[u8]
    ensures { Front text.now result.now }
{
    match text
        .iter()
        .rposition(|&b| !is_blank(b) && !separator.parts(b))
    {
        Some(last) => &text[..last + 1],
        None => &text[..0],
    }
}

// How many bytes a word has.
fn word_length(text: &[u8], separator: Separator) -> usize
    ensures { result ≤ length text.now }
{
    text.iter()
        .position(|&b| is_blank(b) || separator.parts(b))
        .unwrap_or(text.len())
}

// What follows one comma, semicolon or tab, where one is there.
fn past_mark(text: &[u8]) -> &[u8]
    ensures { Tail text.now result.now }
{
    match text.split_first() {
        Some((&b, rest)) if is_mark(b) => rest,
        _ => text,
    }
}

// A row's first field: empty where a comma, semicolon or tab is there already.
pub fn first_field(row: &[u8]) -> Field
    requires { 0 < length row.now }
    ensures within { length result.text.now + length result.rest.now ≤ length row.now }
    ensures onward { length result.rest.now < length row.now }
    ensures tail { Tail row.now result.rest.now }
    ensures piece { Piece row.now result.rest.now result.text.now }
{
    let word = skip_blanks(row);
    match word.split_first() {
        None => Field {
            text: word,
            rest: word,
        },
        Some((&b, rest)) if is_mark(b) => Field {
            text: &word[..0],
            rest,
        },
        Some((_, others)) => {
            let (text, rest) = word.split_at(1 + word_length(others, Separator::Any));
            Field {
                text,
                rest: past_mark(skip_blanks(rest)),
            }
        }
    }
}

// The place of the next separator outside quotation marks; the end where there is none.
fn cell_end(row: &[u8], separator: Separator) -> usize
    ensures { result ≤ length row.now }
{
    let mut quoted = false;
    for (i, &b) in row.iter().enumerate() {
        if !quoted && separator.parts(b) {
            return i;
        }
        quoted ^= b == b'"';
    }
    row.len()
}

// The field at the front of a row that blanks part.
fn next_word(row: &[u8]) -> Field
    requires { 0 < length row.now }
    ensures within { length result.text.now + length result.rest.now ≤ length row.now }
    ensures onward { length result.rest.now < length row.now }
    ensures tail { Tail row.now result.rest.now }
    ensures piece { Piece row.now result.rest.now result.text.now }
{
    let word = skip_blanks(row);
    match word.split_first() {
        None => Field {
            text: word,
            rest: word,
        },
        Some((_, others)) => {
            let (text, rest) = word.split_at(1 + word_length(others, Separator::Blank));
            Field {
                text,
                rest: skip_blanks(rest),
            }
        }
    }
}

// The field at the front of a row with a separator: what stands before the next one, without the blanks around it.
fn next_cell(row: &[u8], separator: Separator) -> Field
    requires { 0 < length row.now }
    ensures within { length result.text.now + length result.rest.now ≤ length row.now }
    ensures onward { length result.rest.now < length row.now }
    ensures tail { Tail row.now result.rest.now }
    ensures piece { Piece row.now result.rest.now result.text.now }
{
    let (cell, left) = row.split_at(cell_end(row, separator));
    Field {
        text: trimmed(skip_blanks(cell), Separator::Blank),
        rest: left.get(1..).unwrap_or(left),
    }
}

// The field at the front of a row whose fields are parted so.
pub fn next_field(row: &[u8], separator: Separator) -> Field
    requires { 0 < length row.now }
    ensures within { length result.text.now + length result.rest.now ≤ length row.now }
    ensures onward { length result.rest.now < length row.now }
    ensures tail { Tail row.now result.rest.now }
    ensures piece { Piece row.now result.rest.now result.text.now }
{
    match separator {
        Separator::Blank => next_word(row),
        _ => next_cell(row, separator),
    }
}

// Whether a line ends here: with LF, or with CR where no LF follows.
fn line_ends(text: &[u8]) -> bool {
    match text {
        [b'\n', ..] => true,
        [b'\r', b'\n', ..] => false,
        [b'\r', ..] => true,
        _ => false,
    }
}

// The first line of a text.
pub fn next_line(text: &[u8]) -> Line
    requires { 0 < length text.now }
    ensures within { length result.text.now ≤ length text.now }
    ensures onward { length result.rest.now < length text.now }
    ensures front { Front text.now result.text.now }
    ensures tail { Tail text.now result.rest.now }
{
    for i in 0..text.len() {
        if line_ends(&text[i..]) {
            return Line {
                text: &text[..i],
                rest: &text[i + 1..],
            };
        }
    }
    Line {
        text,
        rest: &text[text.len()..],
    }
}

// The text past the mark of UTF-8 that spreadsheets put at the start.
pub fn past_utf8_mark(text: &[u8]) -> &[u8]
    ensures { Tail text.now result.now }
{
    if text.starts_with(b"\xef\xbb\xbf") {
        &text[3..]
    } else {
        text
    }
}

// The number that is the whole field: digits after at most one minus. One too great for 64 bits is the greatest of them, or the least.
pub fn read_number(field: &[u8]) -> Option<i64> {
    match field.split_first() {
        Some((b'-', digits)) => Some(read_digits(digits)?.saturating_neg()),
        _ => read_digits(field),
    }
}

// Digits to the end, at least one.
fn read_digits(digits: &[u8]) -> Option<i64> {
    if digits.is_empty() {
        return None;
    }
    let mut value: i64 = 0;
    for &b in digits {
        if !b.is_ascii_digit() {
            return None;
        }
        value = value.saturating_mul(10).saturating_add(i64::from(b - b'0'));
    }
    Some(value)
}

// COUNT*VALUE, parted at its star.
pub fn at_star(field: &[u8]) -> Option<(&[u8], &[u8])>
    ensures whole { IfSome result (λ p. length p.0.now + 1 + length p.1.now ≡ length field.now) }
    ensures front { IfSome result (λ p. Front field.now p.0.now) }
    ensures tail { IfSome result (λ p. Tail field.now p.1.now) }
{
    let star = field.iter().position(|&b| b == b'*')?;
    Some((&field[..star], &field[star + 1..]))
}

// Bytes into a buffer from a place on; the place past them.
pub fn put_bytes(out: &mut [u8], at: usize, s: &[u8]) -> usize
    requires { at + length s.now ≤ length out.old }
    ensures { (result ≡ at + length s.now) × (length out.new ≡ length out.old) }
{
    let end = at + s.len();
    out[at..end].copy_from_slice(s);
    end
}

// Words, where the buffer has room for them.
pub fn say(out: &mut [u8], at: usize, words: &[u8]) -> usize
    requires { at ≤ length out.old }
    ensures { Said out.old result out.new }
{
    if out.len() - at < words.len() {
        return at;
    }
    put_bytes(out, at, words)
}
