// What blockrun prints, written into a lent buffer. Each function takes the place to write at and hands back the place past its text: a writer
// that held buffer and place together would hold a `&mut`, and each of its methods would have to say besides which buffer it still holds.
#![tactic(auto)]

ghost use Rattle.std.specs.Prelude.{◌≡◌, [], ◌∷◌, ◌+◌, ◌*◌, ◌≤◌, ◌<◌, length};
ghost use Rattle.whole.specs.Steps.{each};
ghost use Rattle.vbk_text.specs.Decimal.{decimal};
ghost use Rattle.vbk_text.specs.Text.{word, number_line, header_line, answer_line, samples_from, row_line, refused, ran, text};
ghost use Rattle.vbk_text.specs.Inner.{Room, Put};

// No run's text is longer.
pub const TEXT_LIMIT: usize = 45040;

// One byte.
fn put_byte(out: &mut [u8], at: usize, b: u8) -> usize
    requires { Room out.old at (b ∷ []) }
    ensures { Put out.old at (b ∷ []) result out.new }
{
    out[at] = b;
    at + 1
}

// The ASCII byte of a digit.
fn digit(d: u64) -> u8
    requires { d < 10 }
    ensures { result ≡ 48 + d }
{
    48 + d as u8
}

// A number in decimal.
pub fn put_decimal(out: &mut [u8], at: usize, n: u64) -> usize
    requires { Room out.old at (decimal n) }
    ensures { Put out.old at (decimal n) result out.new }
{
    if n < 10 {
        return put_byte(out, at, digit(n));
    }
    let next = put_decimal(out, at, n / 10);
    put_byte(out, next, digit(n % 10))
}

// A space and a number.
fn put_word(out: &mut [u8], at: usize, n: u64) -> usize
    requires { Room out.old at (word n) }
    ensures { Put out.old at (word n) result out.new }
{
    let next = put_byte(out, at, b' ');
    put_decimal(out, next, n)
}

// A letter and a number on a line.
fn put_number(out: &mut [u8], at: usize, letter: u8, n: u64) -> usize
    requires { Room out.old at (number_line letter n) }
    ensures { Put out.old at (number_line letter n) result out.new }
{
    let a = put_byte(out, at, letter);
    let b = put_word(out, a, n);
    put_byte(out, b, b'\n')
}

// `VBK version depth width height`
fn put_header(out: &mut [u8], at: usize, version: u64, depth: u64, width: u64, height: u64) -> usize
    requires { Room out.old at (header_line version depth width height) }
    ensures { Put out.old at (header_line version depth width height) result out.new }
{
    let a = put_byte(out, at, b'V');
    let b = put_byte(out, a, b'B');
    let c = put_byte(out, b, b'K');
    let d = put_word(out, c, version);
    let e = put_word(out, d, depth);
    let f = put_word(out, e, width);
    let g = put_word(out, f, height);
    put_byte(out, g, b'\n')
}

// `B index answer`
fn put_answer(out: &mut [u8], at: usize, answers: &[u8], index: usize) -> usize
    requires { (index < length answers.now) × Room out.old at (answer_line answers.now index) }
    ensures { Put out.old at (answer_line answers.now index) result out.new }
{
    let a = put_byte(out, at, b'B');
    let b = put_word(out, a, index as u64);
    let c = put_word(out, b, u64::from(answers[index]));
    put_byte(out, c, b'\n')
}

// All `B` lines.
fn put_answers(out: &mut [u8], at: usize, answers: &[u8]) -> usize
    requires { Room out.old at (each (length answers.now) (answer_line answers.now)) }
    ensures { Put out.old at (each (length answers.now) (answer_line answers.now)) result out.new }
{
    let mut place = at;
    for i in 0..answers.len() {
        place = put_answer(out, place, answers, i);
    }
    place
}

// The words of `count` samples from `from` on.
fn put_samples(out: &mut [u8], at: usize, samples: &[u16], from: usize, count: usize) -> usize
    requires { (from + count ≤ length samples.now) × Room out.old at (samples_from samples.now from count) }
    ensures { Put out.old at (samples_from samples.now from count) result out.new }
{
    let mut place = at;
    for c in 0..count {
        place = put_word(out, place, u64::from(samples[from + c]));
    }
    place
}

// `S` and the samples of row r
fn put_row(out: &mut [u8], at: usize, samples: &[u16], width: usize, r: usize) -> usize
    requires { (r * width + width ≤ length samples.now) × Room out.old at (row_line samples.now width r) }
    ensures { Put out.old at (row_line samples.now width r) result out.new }
{
    let a = put_byte(out, at, b'S');
    let b = put_samples(out, a, samples, r * width, width);
    put_byte(out, b, b'\n')
}

// All `S` lines.
fn put_rows(out: &mut [u8], at: usize, samples: &[u16], width: usize, height: usize) -> usize
    requires { (height * width ≤ length samples.now) × Room out.old at (each height (row_line samples.now width)) }
    ensures { Put out.old at (each height (row_line samples.now width)) result out.new }
{
    let mut place = at;
    for r in 0..height {
        place = put_row(out, place, samples, width, r);
    }
    place
}

// `E number`, at the start of the buffer.
pub fn write_refusal(out: &mut [u8], n: u64) -> usize
    requires { Room out.old 0 (text (refused n)) }
    ensures { Put out.old 0 (text (refused n)) result out.new }
{
    put_number(out, 0, b'E', n)
}

// A run's header, answers, samples and touched count, at the start of the buffer.
pub fn write_run(
    out: &mut [u8],
    version: u64,
    depth: u64,
    width: usize,
    height: usize,
    answers: &[u8],
    samples: &[u16],
    touched: u64,
) -> usize
    requires { (height * width ≤ length samples.now) × Room out.old 0 (text (ran version depth width height answers.now samples.now touched)) }
    ensures { Put out.old 0 (text (ran version depth width height answers.now samples.now touched)) result out.new }
{
    let a = put_header(out, 0, version, depth, width as u64, height as u64);
    let b = put_answers(out, a, answers);
    let c = put_rows(out, b, samples, width, height);
    put_number(out, c, b'T', touched)
}
