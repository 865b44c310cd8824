#![tactic(auto)]

ghost use Rattle.std.specs.Prelude.{◌≡◌, ℕ, ◌+◌, ◌-◌, ◌*◌, ◌^◌, ◌≤◌, ◌<◌, pos, ◌+ℤ◌, ◌-ℤ◌, ◌*ℤ◌, length, get_or, replicate};
ghost use Rattle.whole.specs.Lists.{fill};
ghost use Rattle.whole.specs.Round.{Round2};
ghost use Rattle.whole.specs.Within.{Within};
ghost use Rattle.answers.specs.Answers.{number};
ghost use Rattle.answers.specs.Sizes.{side, area};
ghost use Rattle.basis.specs.Basis.{table};
ghost use Rattle.blocks.specs.Block.{rows, columns};
ghost use Rattle.blocks.specs.Inner.{change_line, FirstWithin};
ghost use Rattle.fwd_dct.specs.Sum.{sum};
ghost use Rattle.fwd_dct.specs.Forward.{RESIDUAL_LIMIT, bits, answer_of, Transformed};
ghost use Rattle.fwd_dct.specs.Inner.{line_of, first_lines};

use answers::{Answer, Refusal, any_beyond, area, bad_side, side};
use basis::{entry, stride, table};
use primitives::round2;

// The greatest magnitude of a residual.
pub const RESIDUAL_LIMIT: u64 = 4095;

// The last step: Round2 by these bits.
fn bits(n: u32) -> u32
    requires { (2 ≤ n) × (n ≤ 5) }
    ensures { (result ≡ bits n) × (1 ≤ result) × (result ≤ 30) }
{
    match n {
        2 => 26,
        3 => 27,
        4 => 28,
        _ => 30,
    }
}

// Two terms of a sum, from place i on.
fn two_terms(x: &[i64; 16], basis: &[i16; 1024], row: usize, i: usize) -> i64
    requires { (i + 1 < 16) × (row + i + 1 < 1024) × Within (2 ^ 32) (get_or x.now i (pos 0)) × Within (2 ^ 32) (get_or x.now (i + 1) (pos 0)) }
    ensures { (result ≡ get_or x.now i (pos 0) *ℤ get_or basis.now (row + i) (pos 0) +ℤ get_or x.now (i + 1) (pos 0) *ℤ get_or basis.now (row + (i + 1)) (pos 0)) × Within (2 ^ 48) result }
{
    let a = entry(basis, row + i);
    let b = entry(basis, row + i + 1);
    x[i] * a + x[i + 1] * b
}

// The sum of x times a row, two terms a turn: quicker than one.
fn dot(x: &[i64; 16], basis: &[i16; 1024], row: usize, pairs: usize) -> i64
    requires { (pairs ≤ 8) × (row + 16 ≤ 1024) × FirstWithin (2 ^ 32) (2 * pairs) x.now }
    ensures { result ≡ sum (2 * pairs) (λ i. get_or x.now i (pos 0) *ℤ get_or basis.now (row + i) (pos 0)) }
{
    let mut s = 0i64;
    for p in 0..pairs {
        s += two_terms(x, basis, row, 2 * p);
    }
    s
}

// The numbers of a line from both ends: the first and the last, the second and the last but one, ..: their sums and their differences.
fn fold(
    sums: &mut [i64; 16],
    differences: &mut [i64; 16],
    s: &[i64],
    start: usize,
    step: usize,
    half: usize,
)
    requires { (half ≤ 16) × ((k : ℕ) → k < 2 * half → start + k * step < length s.now) × ((k : ℕ) → k < 2 * half → Within (2 ^ 31) (get_or s.now (start + k * step) (pos 0))) }
    ensures added { sums.new ≡ fill half (λ i. get_or s.now (start + i * step) (pos 0) +ℤ get_or s.now (start + (2 * half - 1 - i) * step) (pos 0)) sums.old }
    ensures taken { differences.new ≡ fill half (λ i. get_or s.now (start + i * step) (pos 0) -ℤ get_or s.now (start + (2 * half - 1 - i) * step) (pos 0)) differences.old }
{
    for i in 0..half {
        let a = s[start + i * step];
        let b = s[start + (2 * half - 1 - i) * step];
        sums[i] = a + b;
        differences[i] = a - b;
    }
}

// One line through the forward DCT, not rounded: even places from the sums, odd ones from the differences, because row k of a basis is the same
// from both ends for an even k, and turns its sign for an odd one.
fn line(block: &mut [i64], basis: &[i16; 1024], start: usize, step: usize, n: u32)
    requires { (2 ≤ n) × (n ≤ 5) × (basis.now ≡ table) × ((k : ℕ) → k < side n → start + k * step < length block.old) × ((k : ℕ) → k < side n → Within (2 ^ 31) (get_or block.old (start + k * step) (pos 0))) }
    ensures { block.new ≡ change_line (line_of n) (λ z. z) start step (side n) block.old }
{
    let n0 = side(n);
    let next = stride(n);
    let mut sums = [0i64; 16];
    let mut differences = [0i64; 16];
    fold(&mut sums, &mut differences, block, start, step, n0 / 2);
    for m in 0..n0 / 2 {
        let k = 2 * m;
        block[start + k * step] = dot(&sums, basis, k * next, n0 / 4);
        block[start + (k + 1) * step] = dot(&differences, basis, (k + 1) * next, n0 / 4);
    }
}

// All lines: the first begins at place 0, each other `next` past the one before, and its numbers are `step` apart.
fn each_line(block: &mut [i64], basis: &[i16; 1024], n: u32, next: usize, step: usize)
    requires size { (2 ≤ n) × (n ≤ 5) × (next ≤ 32) }
    requires basis { basis.now ≡ table }
    requires places { (i k : ℕ) → i < side n → k < side n → i * next + k * step < length block.old }
    requires range { (i k : ℕ) → i < side n → k < side n → Within (2 ^ 31) (get_or (first_lines n next step i block.old) (i * next + k * step) (pos 0)) }
    ensures { block.new ≡ first_lines n next step (side n) block.old }
{
    for i in 0..side(n) {
        line(block, basis, i * next, step, n);
    }
}

// All rows.
fn rows(block: &mut [i64], basis: &[i16; 1024], n: u32)
    requires { (2 ≤ n) × (n ≤ 5) × (basis.now ≡ table) × (area n ≤ length block.old) × FirstWithin (2 ^ 31) (area n) block.old }
    ensures { block.new ≡ rows (line_of n) (side n) block.old }
{
    each_line(block, basis, n, side(n), 1);
}

// All columns.
fn columns(block: &mut [i64], basis: &[i16; 1024], n: u32)
    requires { (2 ≤ n) × (n ≤ 5) × (basis.now ≡ table) × (area n ≤ length block.old) × FirstWithin (2 ^ 31) (area n) block.old }
    ensures { block.new ≡ columns (line_of n) (λ z. z) (side n) block.old }
{
    each_line(block, basis, n, 1, side(n));
}

// Every number rounded, once.
fn round_all(block: &mut [i64], shift: u32)
    requires { (1 ≤ «shift») × («shift» ≤ 30) × FirstWithin (2 ^ 62) (length block.old) block.old }
    ensures { block.new ≡ fill (length block.old) (λ k. Round2 (get_or block.old k (pos 0)) «shift») block.old }
{
    for x in block.iter_mut() {
        *x = round2(*x, shift);
    }
}

// The answer to the whole input, before anything is written.
fn check(block: &[i64], n: u32) -> Answer
    ensures { number result ≡ answer_of (record { block = block.entry.now; n = n }) }
{
    if bad_side(n) {
        return Err(Refusal::Size);
    }
    let count = block.len();
    if count != area(n) {
        return Err(Refusal::Length);
    }
    if any_beyond(block, count, RESIDUAL_LIMIT) {
        return Err(Refusal::Coefficient);
    }
    Ok(())
}

// The coefficients of a block of residuals, in its place.
pub fn forward_dct_2d(block: &mut [i64], n: u32) -> Answer
    ensures { Transformed (record { block = block.entry.now; n = n }) result block.exit.now }
{
    check(block, n)?;
    let basis = table();
    rows(block, &basis, n);
    columns(block, &basis, n);
    round_all(block, bits(n));
    Ok(())
}
