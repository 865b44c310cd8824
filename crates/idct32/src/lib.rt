// The 32-bit engine. The work stands in numbers of 16 bits, products in 32; the 64-bit block is read at the start and written at the end.
#![tactic(auto)]

ghost use Rattle.std.specs.Prelude.{◌≡◌, is_ok, true, false, ◌≤◌, ltb, pos, nat_abs, length, get_or};
ghost use Rattle.whole.specs.Lists.{fill};
ghost use Rattle.whole.specs.Round.{Round2};
ghost use Rattle.whole.specs.Within.{Within};
ghost use Rattle.answers.specs.Bad.{any_beyond};
ghost use Rattle.answers.specs.Limits.{COEF_LIMIT};
ghost use Rattle.answers.specs.Sizes.{side, area};
ghost use Rattle.narrow.specs.Kept.{short, shorts};
ghost use Rattle.blocks.specs.Block.{rows, columns};
ghost use Rattle.blocks.specs.Inner.{Possible, dc_value};
ghost use Rattle.blocks.specs.Inverse.{apply, row_pass, column_pass, rounding};
ghost use Rattle.weights.specs.Inner.{total};
ghost use Rattle.tested.specs.Line.{pass_of};
ghost use Rattle.idct32.specs.Engine.{kept_rows, kept_columns, within16, Driven32};
ghost use Rattle.idct32.specs.Inner.{Flat, rounded};

use answers::{Answer, Refusal};
use tested::{Kind, TooWide};

// The greatest sum of magnitudes with which no number on the way leaves 16 bits: a law of crate weights.
const FEW: u32 = 31883;

// x is of 16 bits.
fn is_short(x: i64) -> bool
    ensures { result ≡ short x }
{
    -32768 <= x && x <= 32767
}

// x is beyond the limit of a coefficient.
fn is_beyond(x: i64) -> bool
    ensures { result ≡ ltb COEF_LIMIT (nat_abs x) }
{
    x < -2147483648 || 2147483648 < x
}

// Whether one of the first `count` numbers is. By comparisons alone: `answers::any_beyond` takes magnitudes, in 64 bits.
fn any_beyond(block: &[i64], count: usize) -> bool
    requires { count ≤ length block.now }
    ensures { result ≡ any_beyond COEF_LIMIT count block.now }
{
    block[..count].iter().any(|&x| is_beyond(x))
}

// A number that is of 16 bits, in 16 bits.
fn narrowed(x: i64) -> i16
    requires { short x ≡ true }
    ensures { result ≡ x }
{
    x as i16
}

// Whether the first `count` numbers are of 16 bits; no early return, for speed.
fn all_short(block: &[i64], count: usize) -> bool
    requires { count ≤ length block.now }
    ensures { result ≡ shorts count block.now }
{
    let mut all = true;
    for k in 0..count {
        all = all & is_short(block[k]);
    }
    all
}

// These numbers, all of 16 bits, to the front of the work; by index, as two lists go side by side.
fn copy(work: &mut [i16; 1024], block: &[i64], count: usize)
    requires { (count ≤ 1024) × (count ≤ length block.now) × (shorts count block.now ≡ true) }
    ensures { work.new ≡ fill count (λ k. get_or block.now k (pos 0)) work.old }
{
    for k in 0..count {
        work[k] = narrowed(block[k]);
    }
}

// The first `count` numbers of the block to the front of the work, where all are of 16 bits. They are compared and narrowed, and nothing else.
fn take(work: &mut [i16; 1024], block: &[i64], count: usize) -> Result<(), TooWide>
    requires { (count ≤ 1024) × (count ≤ length block.now) }
    ensures is { is_ok result ≡ shorts count block.now }
    ensures then { is_ok result ≡ true → work.new ≡ fill count (λ k. get_or block.now k (pos 0)) work.old }
{
    if !all_short(block, count) {
        return Err(TooWide);
    }
    copy(work, block, count);
    Ok(())
}

// The transform of the rows.
fn row_kind(tx_type: u8, lossless: bool) -> Kind
    ensures { pass_of result ≡ row_pass tx_type lossless }
{
    if lossless {
        Kind::WhtRow
    } else if blocks::row_dct(tx_type) {
        Kind::Dct
    } else {
        Kind::Adst
    }
}

// The transform of the columns.
fn column_kind(tx_type: u8, lossless: bool) -> Kind
    ensures { pass_of result ≡ column_pass tx_type lossless }
{
    if lossless {
        Kind::WhtColumn
    } else if blocks::column_dct(tx_type) {
        Kind::Dct
    } else {
        Kind::Adst
    }
}

// All rows, where no number leaves 16 bits.
fn rows(work: &mut [i16; 1024], n: u32, tx_type: u8, lossless: bool) -> Result<(), TooWide>
    requires { Possible n tx_type lossless × (length work.old ≡ 1024) }
    ensures is { is_ok result ≡ kept_rows (row_pass tx_type lossless) n work.old }
    ensures then { is_ok result ≡ true → work.new ≡ rows (apply (row_pass tx_type lossless) n) (side n) work.old }
{
    tested::rows(work, n, row_kind(tx_type, lossless))
}

// All columns, not rounded, where no number leaves 16 bits.
fn columns(work: &mut [i16; 1024], n: u32, tx_type: u8, lossless: bool) -> Result<(), TooWide>
    requires { Possible n tx_type lossless × (length work.old ≡ 1024) }
    ensures is { is_ok result ≡ kept_columns (column_pass tx_type lossless) n work.old }
    ensures then { is_ok result ≡ true → work.new ≡ columns (apply (column_pass tx_type lossless) n) (λ z. z) (side n) work.old }
{
    tested::columns(work, n, column_kind(tx_type, lossless))
}

// Rows and columns of a block of few magnitudes, with no test on the way, by strips of eight columns.
fn both(work: &mut [i16; 1024], n: u32, tx_type: u8)
    requires { Possible n tx_type false × (3 ≤ n) × (length work.old ≡ 1024) × (total (area n) work.old ≤ 31883) }
    ensures { work.new ≡ columns (apply (column_pass tx_type false) n) (λ z. z) (side n) (rows (apply (row_pass tx_type false) n) (side n) work.old) }
{
    let mut z = narrow_lines::zeros();
    let strips = answers::side(n) / 8;
    narrow_lines::to_strips(&mut z, work, n);
    narrow_lines::rows(&mut z, n, blocks::row_dct(tx_type), strips);
    narrow_lines::columns(&mut z, n, blocks::column_dct(tx_type));
    narrow_lines::from_strips(work, &z, n);
}

// Rows, then columns, not rounded, where no number leaves 16 bits. Almost every block of a stream has so few magnitudes that none does: a law.
fn passes(
    work: &mut [i16; 1024],
    n: u32,
    tx_type: u8,
    lossless: bool,
    sum: u32,
) -> Result<(), TooWide>
    requires { Possible n tx_type lossless × (length work.old ≡ 1024) × («sum» ≡ total (area n) work.old) }
    ensures is { is_ok result ≡ within16 n tx_type lossless work.old }
    ensures then { is_ok result ≡ true → work.new ≡ columns (apply (column_pass tx_type lossless) n) (λ z. z) (side n) (rows (apply (row_pass tx_type lossless) n) (side n) work.old) }
{
    if n >= 3 && sum <= FEW {
        both(work, n, tx_type);
        return Ok(());
    }
    rows(work, n, tx_type, lossless)?;
    columns(work, n, tx_type, lossless)
}

// Round2(x, k) of a number of T, and x itself where k is 0.
fn round2(x: i32, k: u32) -> i32
    requires { (k ≤ 6) × Within 32768 x }
    ensures { result ≡ rounded x k }
{
    if k == 0 {
        x
    } else {
        (x + (1i32 << (k - 1))) >> k
    }
}

// The first `count` numbers of the work to the block, rounded by `bits`.
fn give_rounded(block: &mut [i64], work: &[i16; 1024], count: usize, bits: u32)
    requires { (count ≤ 1024) × (count ≤ length block.old) × (bits ≤ 6) }
    ensures { block.new ≡ fill count (λ k. rounded (get_or work.now k (pos 0)) bits) block.old }
{
    for k in 0..count {
        block[k] = i64::from(round2(narrow::wide(work[k]), bits));
    }
}

// The residual to the block; that of a lossless block as it is. By the size: with literals the compiler shifts by a constant.
fn give(block: &mut [i64], work: &[i16; 1024], n: u32, lossless: bool)
    requires { (2 ≤ n) × (n ≤ 5) × (lossless ≡ true → n ≡ 2) × (area n ≤ length block.old) }
    ensures { block.new ≡ fill (area n) (λ k. rounding n lossless (get_or work.now k (pos 0))) block.old }
{
    if lossless {
        give_rounded(block, work, 16, 0);
    } else if n == 2 {
        give_rounded(block, work, 16, 4);
    } else if n == 3 {
        give_rounded(block, work, 64, 5);
    } else {
        give_rounded(block, work, answers::area(n), 6);
    }
}

// Whether a block is of type 0, with few magnitudes, and place 0 has them all.
fn is_flat(work: &[i16; 1024], sum: u32, tx_type: u8, lossless: bool) -> bool
    ensures { result ≡ true → Flat work.now «sum» tx_type lossless }
{
    !lossless && tx_type == 0 && sum <= FEW && narrow_lines::total(work, 1) == sum
}

// The one number that place 0 gives everywhere; 11585 is cos64(16).
fn flat_value(x: i32, n: u32) -> i32
    requires { (2 ≤ n) × (n ≤ 5) × Within 32768 x }
    ensures { result ≡ dc_value n x }
{
    let row = narrow::round14(x * 11585);
    let column = narrow::round14(row * 11585);
    round2(column, blocks::rounding_bits(n))
}

// The residual of such a block, whose number at place 0 is x.
fn give_flat(block: &mut [i64], x: i16, n: u32, count: usize)
    requires { (2 ≤ n) × (n ≤ 5) × (count ≤ length block.old) }
    ensures { block.new ≡ fill count (λ k. dc_value n x) block.old }
{
    let v = flat_value(narrow::wide(x), n);
    dc::fill_first(block, count, i64::from(v));
}

// The residual of the block, in its place, with no number wider than 32 bits on the way. The block is written when every row and column has passed.
pub fn inverse_transform_2d_32(block: &mut [i64], n: u32, tx_type: u8, lossless: bool) -> Answer
    ensures { Driven32 (record { block = block.entry.now; n = n; tx_type = tx_type; lossless = lossless }) result block.exit.now }
{
    idct::shape(block.len(), n, tx_type, lossless)?;
    let count = answers::area(n);
    let mut work = narrow_lines::zeros();
    if take(&mut work, block, count).is_err() {
        if any_beyond(block, count) {
            return Err(Refusal::Coefficient);
        }
        return Err(Refusal::Narrow);
    }
    let sum = narrow_lines::total(&work, count);
    if is_flat(&work, sum, tx_type, lossless) {
        give_flat(block, work[0], n, count);
        return Ok(());
    }
    passes(&mut work, n, tx_type, lossless, sum)?;
    give(block, &work, n, lossless);
    Ok(())
}
