#![tactic(auto)]

ghost use Rattle.std.specs.Prelude.{◌≡◌, ◌||◌, ℕ, ◌+◌, ◌*◌, ◌^◌, ◌≤◌, ◌<◌, eqb, pos, nat_abs, length, get_or};
ghost use Rattle.whole.specs.Lists.{fill};
ghost use Rattle.whole.specs.Round.{Round2};
ghost use Rattle.answers.specs.Sizes.{side};
ghost use Rattle.blocks.specs.Block.{live};
ghost use Rattle.blocks.specs.Inner.{set_line, FirstWithin};
ghost use Rattle.blocks.specs.Inverse.{lossy, row_pass, column_pass, bits, rounding};
ghost use Rattle.blocks.specs.Kind.{pass_of};

// The transform of the lines of a pass; the WHT at a shift.
#[derive(Clone, Copy)]
pub enum Transform {
    Dct,
    Adst,
    Wht(u32),
}

// The n numbers of s at start, start + step, .. into the first places of t.
pub fn load(t: &mut [i64; 32], s: &[i64], start: usize, step: usize, n: usize)
    requires { (n ≤ 32) × ((k : ℕ) → k < n → start + k * step < length s.now) }
    ensures { t.new ≡ fill n (λ k. get_or s.now (start + k * step) (pos 0)) t.old }
{
    for k in 0..n {
        t[k] = s[start + k * step];
    }
}

// The first n numbers of t to these places of s.
pub fn store(s: &mut [i64], t: &[i64; 32], start: usize, step: usize, n: usize)
    requires { (n ≤ 32) × ((k : ℕ) → k < n → start + k * step < length s.old) }
    ensures { s.new ≡ set_line (λ z. z) start step n t.now s.old }
{
    for k in 0..n {
        s[start + k * step] = t[k];
    }
}

// The same, each number rounded by `shift` bits.
pub fn store_rounded(s: &mut [i64], t: &[i64; 32], start: usize, step: usize, n: usize, shift: u32)
    requires { (n ≤ 32) × ((k : ℕ) → k < n → start + k * step < length s.old) × (1 ≤ «shift») × («shift» ≤ 30) × FirstWithin (2 ^ 62) n t.now }
    ensures { s.new ≡ set_line (λ z. Round2 z «shift») start step n t.now s.old }
{
    for k in 0..n {
        s[start + k * step] = primitives::round2(t[k], shift);
    }
}

// Whether some of the n numbers from start on is not 0; a flag and no early return, for speed.
pub fn any_live(s: &[i64], start: usize, n: usize) -> bool
    requires { start + n ≤ length s.now }
    ensures { result ≡ live start n s.now }
{
    let mut any = false;
    for k in 0..n {
        if s[start + k] != 0 {
            any = true;
        }
    }
    any
}

// As any_live, with all numbers or-ed together: the quicker for long lines.
fn or_live(s: &[i64], start: usize, n: usize) -> bool
    requires { start + n ≤ length s.now }
    ensures { result ≡ live start n s.now }
{
    let mut all = 0u64;
    for k in 0..n {
        all |= s[start + k].cast_unsigned();
    }
    all != 0
}

// The same of a longer line: its first number is asked by itself, because a live line mostly begins with one.
pub fn any_live_first(s: &[i64], start: usize, n: usize) -> bool
    requires { (1 ≤ n) × (start + n ≤ length s.now) }
    ensures { result ≡ live start n s.now }
{
    if s[start] != 0 {
        return true;
    }
    or_live(s, start + 1, n - 1)
}

// The n numbers from start on, each plus most, or-ed together; a number below -most wraps to the top. None is above the whole, so below 2 × most
// no magnitude is above most.
pub fn or_plus_most(s: &[i64], start: usize, n: usize, most: u64) -> u64
    requires { (start + n ≤ length s.now) × (most ≤ 2 ^ 61) }
    ensures { result < most + most → (k : ℕ) → k < n → nat_abs (get_or s.now (start + k) (pos 0)) ≤ most }
{
    let mut all = 0u64;
    for k in 0..n {
        all |= most.wrapping_add_signed(s[start + k]);
    }
    all
}

// Bits that the columns are rounded by.
pub fn rounding_bits(n: u32) -> u32
    requires { (2 ≤ n) × (n ≤ 5) }
    ensures { (result ≡ bits n) × (1 ≤ result) × (result ≤ 30) }
{
    match n {
        2 => 4,
        3 => 5,
        _ => 6,
    }
}

// Column j of a block of 2^n rows from t: rounded, unless lossless.
pub fn store_column(s: &mut [i64], t: &[i64; 32], j: usize, n: u32, lossless: bool)
    requires { (2 ≤ n) × (n ≤ 5) × ((k : ℕ) → k < side n → j + k * side n < length s.old) × FirstWithin (2 ^ 62) (side n) t.now }
    ensures { s.new ≡ set_line (rounding n lossless) j (side n) (side n) t.now s.old }
{
    let n0 = answers::side(n);
    if lossless {
        store(s, t, j, n0, n0);
    } else {
        store_rounded(s, t, j, n0, n0, rounding_bits(n));
    }
}

// Types 0 and 1 have DCT rows.
pub fn row_dct(tx_type: u8) -> bool
    ensures { result ≡ eqb tx_type 0 || eqb tx_type 1 }
{
    tx_type == 0 || tx_type == 1
}

// Types 0 and 2 have DCT columns.
pub fn column_dct(tx_type: u8) -> bool
    ensures { result ≡ eqb tx_type 0 || eqb tx_type 2 }
{
    tx_type == 0 || tx_type == 2
}

fn dct_or_adst(use_dct: bool) -> Transform
    ensures { pass_of result ≡ lossy use_dct }
{
    if use_dct {
        Transform::Dct
    } else {
        Transform::Adst
    }
}

// The transform of the rows of a block: lossless is the WHT at shift 2.
pub fn row_transform(tx_type: u8, lossless: bool) -> Transform
    ensures { pass_of result ≡ row_pass tx_type lossless }
{
    if lossless {
        Transform::Wht(2)
    } else {
        dct_or_adst(row_dct(tx_type))
    }
}

// The transform of its columns: lossless is the WHT at shift 0.
pub fn column_transform(tx_type: u8, lossless: bool) -> Transform
    ensures { pass_of result ≡ column_pass tx_type lossless }
{
    if lossless {
        Transform::Wht(0)
    } else {
        dct_or_adst(column_dct(tx_type))
    }
}
