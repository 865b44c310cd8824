// The rows and the columns of a block of 16-bit numbers, line by line, by a written table of the steps of each transform. Every number that T is
// given is tested to be of 16 bits; every product and sum is an i32. For the few blocks that a law does not show to stay within 16 bits: simple,
// and not fast.
#![tactic(auto)]

ghost use Rattle.std.specs.Prelude.{◌≡◌, is_ok, true, false, ℕ, ◌+◌, ◌*◌, ◌≤◌, ◌<◌, ◌^◌, T, pos, length, get_or};
ghost use Rattle.whole.specs.Lists.{fill};
ghost use Rattle.whole.specs.Inner.{AllWithin};
ghost use Rattle.answers.specs.declared.Refusal.TheVariants.{Narrow};
ghost use Rattle.answers.specs.Sizes.{side};
ghost use Rattle.primitives.specs.Brev.{Brev};
ghost use Rattle.primitives.specs.Rotations.{set_pair};
ghost use Rattle.steps.specs.Step.{Bf, Hd, Neg, Move, A4, Wh, step};
ghost use Rattle.steps.specs.Step2.{SB, SH, step2};
ghost use Rattle.adst.specs.Adst.{adst_in, adst_out};
ghost use Rattle.adst.specs.Inner.{arrays};
ghost use Rattle.narrow.specs.Kept.{short, shorts};
ghost use Rattle.narrow.specs.Inner.{short_pair, spin_fits, spin, Turns, fits, fits2, reach};
ghost use Rattle.blocks.specs.Block.{line, rows, columns};
ghost use Rattle.blocks.specs.Inner.{set_line, change_line};
ghost use Rattle.blocks.specs.Inverse.{Dct, apply};
ghost use Rattle.weights.specs.Inner.{Keeps};
ghost use Rattle.tested.specs.Line.{pass_of, steps_of, Sized, Line, RowsKeep, ColumnsKeep, Tells};
ghost use Rattle.tested.specs.Inner.{step_of, known, OfAngle, ready, Told, Gives, Tables};

use answers::Refusal;

// The transform of a line; the WHT has a shift of 2 in rows and none in columns.
#[derive(Clone, Copy)]
pub enum Kind {
    Dct,
    Adst,
    WhtRow,
    WhtColumn,
}

// A step of a line of 2^n numbers t, with 16 products s beside it. A place is a u8; an angle has 64 parts to a half turn; true is for exchanged.
#[derive(Clone, Copy)]
enum Step {
    // The permutation of the DCT.
    Reverse,
    // B of two places, by an angle.
    Turn(u8, u8, i8, bool),
    // H of two places.
    Sums(u8, u8, bool),
    // SB of two places, by an angle.
    Products(u8, u8, i8),
    // SH of two places.
    SumsOfS(u8, u8),
    // t[a] = -t[a].
    Negate(u8),
    // The permutation before the ADST, and the one after it.
    Enter,
    Leave,
    // The ADST of 4 numbers.
    Adst4,
    // The WHT, with its shift.
    Wht(u8),
}

// The steps of the inverse DCT, of 4, 8, 16 and 32 numbers the first 5, 14, 38 and 98; then those of the inverse ADST of 4, 8 and 16 numbers, 1, 22 and
// 50; then the WHT of rows and that of columns.
static STEPS: [Step; 173] = [
    Step::Reverse,
    Step::Turn(0, 1, 16, true),
    Step::Turn(2, 3, 24, false),
    Step::Sums(0, 3, false),
    Step::Sums(1, 2, false),
    Step::Turn(4, 7, 28, false),
    Step::Turn(5, 6, 12, false),
    Step::Sums(4, 5, false),
    Step::Sums(6, 7, true),
    Step::Turn(6, 5, 16, true),
    Step::Sums(0, 7, false),
    Step::Sums(1, 6, false),
    Step::Sums(2, 5, false),
    Step::Sums(3, 4, false),
    Step::Turn(8, 15, 30, false),
    Step::Turn(9, 14, 14, false),
    Step::Turn(10, 13, 22, false),
    Step::Turn(11, 12, 6, false),
    Step::Sums(8, 9, false),
    Step::Sums(10, 11, true),
    Step::Sums(12, 13, false),
    Step::Sums(14, 15, true),
    Step::Turn(14, 9, 24, true),
    Step::Turn(10, 13, 72, true),
    Step::Sums(8, 11, false),
    Step::Sums(12, 15, true),
    Step::Sums(9, 10, false),
    Step::Sums(13, 14, true),
    Step::Turn(13, 10, 16, true),
    Step::Turn(12, 11, 16, true),
    Step::Sums(0, 15, false),
    Step::Sums(1, 14, false),
    Step::Sums(2, 13, false),
    Step::Sums(3, 12, false),
    Step::Sums(4, 11, false),
    Step::Sums(5, 10, false),
    Step::Sums(6, 9, false),
    Step::Sums(7, 8, false),
    Step::Turn(16, 31, 31, false),
    Step::Turn(17, 30, 15, false),
    Step::Turn(18, 29, 23, false),
    Step::Turn(19, 28, 7, false),
    Step::Turn(20, 27, 27, false),
    Step::Turn(21, 26, 11, false),
    Step::Turn(22, 25, 19, false),
    Step::Turn(23, 24, 3, false),
    Step::Sums(16, 17, false),
    Step::Sums(18, 19, true),
    Step::Sums(20, 21, false),
    Step::Sums(22, 23, true),
    Step::Sums(24, 25, false),
    Step::Sums(26, 27, true),
    Step::Sums(28, 29, false),
    Step::Sums(30, 31, true),
    Step::Turn(30, 17, 28, true),
    Step::Turn(22, 25, 84, true),
    Step::Turn(26, 21, 12, true),
    Step::Turn(18, 29, 68, true),
    Step::Sums(16, 19, false),
    Step::Sums(20, 23, true),
    Step::Sums(24, 27, false),
    Step::Sums(28, 31, true),
    Step::Sums(17, 18, false),
    Step::Sums(21, 22, true),
    Step::Sums(25, 26, false),
    Step::Sums(29, 30, true),
    Step::Turn(29, 18, 24, true),
    Step::Turn(21, 26, 72, true),
    Step::Turn(28, 19, 24, true),
    Step::Turn(20, 27, 72, true),
    Step::Sums(16, 23, false),
    Step::Sums(24, 31, true),
    Step::Sums(17, 22, false),
    Step::Sums(25, 30, true),
    Step::Sums(18, 21, false),
    Step::Sums(26, 29, true),
    Step::Sums(19, 20, false),
    Step::Sums(27, 28, true),
    Step::Turn(27, 20, 16, true),
    Step::Turn(26, 21, 16, true),
    Step::Turn(25, 22, 16, true),
    Step::Turn(24, 23, 16, true),
    Step::Sums(0, 31, false),
    Step::Sums(1, 30, false),
    Step::Sums(2, 29, false),
    Step::Sums(3, 28, false),
    Step::Sums(4, 27, false),
    Step::Sums(5, 26, false),
    Step::Sums(6, 25, false),
    Step::Sums(7, 24, false),
    Step::Sums(8, 23, false),
    Step::Sums(9, 22, false),
    Step::Sums(10, 21, false),
    Step::Sums(11, 20, false),
    Step::Sums(12, 19, false),
    Step::Sums(13, 18, false),
    Step::Sums(14, 17, false),
    Step::Sums(15, 16, false),
    Step::Adst4,
    Step::Enter,
    Step::Products(0, 1, 30),
    Step::Products(2, 3, 22),
    Step::Products(4, 5, 14),
    Step::Products(6, 7, 6),
    Step::SumsOfS(0, 4),
    Step::SumsOfS(1, 5),
    Step::SumsOfS(2, 6),
    Step::SumsOfS(3, 7),
    Step::Products(4, 5, 24),
    Step::Products(7, 6, 8),
    Step::SumsOfS(4, 6),
    Step::SumsOfS(5, 7),
    Step::Sums(0, 2, false),
    Step::Sums(1, 3, false),
    Step::Turn(2, 3, 16, true),
    Step::Turn(6, 7, 16, true),
    Step::Leave,
    Step::Negate(1),
    Step::Negate(3),
    Step::Negate(5),
    Step::Negate(7),
    Step::Enter,
    Step::Products(0, 1, 31),
    Step::Products(2, 3, 27),
    Step::Products(4, 5, 23),
    Step::Products(6, 7, 19),
    Step::Products(8, 9, 15),
    Step::Products(10, 11, 11),
    Step::Products(12, 13, 7),
    Step::Products(14, 15, 3),
    Step::SumsOfS(0, 8),
    Step::SumsOfS(1, 9),
    Step::SumsOfS(2, 10),
    Step::SumsOfS(3, 11),
    Step::SumsOfS(4, 12),
    Step::SumsOfS(5, 13),
    Step::SumsOfS(6, 14),
    Step::SumsOfS(7, 15),
    Step::Products(8, 9, 28),
    Step::Products(10, 11, 12),
    Step::Products(12, 13, -4),
    Step::Products(14, 15, -20),
    Step::SumsOfS(8, 12),
    Step::SumsOfS(9, 13),
    Step::SumsOfS(10, 14),
    Step::SumsOfS(11, 15),
    Step::Sums(0, 4, false),
    Step::Sums(1, 5, false),
    Step::Sums(2, 6, false),
    Step::Sums(3, 7, false),
    Step::Products(4, 5, 24),
    Step::Products(7, 6, 8),
    Step::Products(12, 13, 24),
    Step::Products(15, 14, 8),
    Step::SumsOfS(4, 6),
    Step::SumsOfS(5, 7),
    Step::SumsOfS(12, 14),
    Step::SumsOfS(13, 15),
    Step::Sums(0, 2, false),
    Step::Sums(1, 3, false),
    Step::Sums(8, 10, false),
    Step::Sums(9, 11, false),
    Step::Turn(2, 3, 48, false),
    Step::Turn(6, 7, 112, false),
    Step::Turn(10, 11, 112, false),
    Step::Turn(14, 15, 48, false),
    Step::Leave,
    Step::Negate(1),
    Step::Negate(3),
    Step::Negate(13),
    Step::Negate(15),
    Step::Wht(2),
    Step::Wht(0),
];

// The cosine and the sine of an angle of the table. By arms, because an array constant is built anew at each run-time index.
fn cos_sin(angle: i8) -> (i32, i32)
    requires { T (known «angle») }
    ensures { OfAngle «angle» result.0 result.1 }
{
    match angle {
        -20 => (9102, -13623),
        3 => (16207, 2404),
        6 => (15679, 4756),
        7 => (15426, 5520),
        8 => (15137, 6270),
        11 => (14053, 8423),
        12 => (13623, 9102),
        14 => (12665, 10394),
        15 => (12140, 11003),
        16 => (11585, 11585),
        19 => (9760, 13160),
        22 => (7723, 14449),
        23 => (7005, 14811),
        24 => (6270, 15137),
        27 => (3981, 15893),
        28 => (3196, 16069),
        30 => (1606, 16305),
        31 => (804, 16364),
        48 => (-11585, 11585),
        68 => (-16069, -3196),
        72 => (-15137, -6270),
        84 => (-9102, -13623),
        112 => (11585, -11585),
        _ => (16069, -3196),
    }
}

// A number that T is given is not of 16 bits.
#[derive(Clone, Copy, Debug, PartialEq, Eq)]
pub struct TooWide;

impl From<TooWide> for Refusal {
    ghost from_gives = { λ _ refusal. refusal ≡ Narrow };

    fn from(_: TooWide) -> Refusal {
        Refusal::Narrow
    }
}

// x to place a and y to place b, or exchanged, where both are of 16 bits.
fn put(t: &mut [i16; 32], a: usize, b: usize, x: i32, y: i32, flip: bool) -> Result<(), TooWide>
    requires { (a < 32) × (b < 32) }
    ensures { (is_ok result ≡ short_pair x y) × (is_ok result ≡ true → t.new ≡ set_pair t.old a b x y flip) }
{
    if !narrow::is_short(x) {
        return Err(TooWide);
    }
    if !narrow::is_short(y) {
        return Err(TooWide);
    }
    narrow::put16(t, a, b, x, y, flip);
    Ok(())
}

// B, by the cosine and the sine of its angle.
fn rotate(
    t: &mut [i16; 32],
    a: usize,
    b: usize,
    cos: i32,
    sin: i32,
    flip: bool,
) -> Result<(), TooWide>
    requires { Turns a b cos sin }
    ensures { (is_ok result ≡ spin_fits t.old a b cos sin) × (is_ok result ≡ true → t.new ≡ spin t.old a b cos sin flip) }
{
    let r = narrow::turn(t, a, b, cos, sin);
    let x = narrow::round14(r.x);
    let y = narrow::round14(r.y);
    put(t, a, b, x, y, flip)
}

// B.
fn turn(t: &mut [i16; 32], a: usize, b: usize, angle: i8, flip: bool) -> Result<(), TooWide>
    requires { (a < 32) × (b < 32) × T (known «angle») }
    ensures { Told step fits (Bf a b «angle» flip) t.old (is_ok result) t.new }
{
    let (cos, sin) = cos_sin(angle);
    rotate(t, a, b, cos, sin, flip)
}

// H without its flip.
fn sums(t: &mut [i16; 32], a: usize, b: usize) -> Result<(), TooWide>
    requires { (a < 32) × (b < 32) }
    ensures { Told step fits (Hd a b false) t.old (is_ok result) t.new }
{
    let p = narrow::wide(t[a]);
    let q = narrow::wide(t[b]);
    put(t, a, b, p + q, p - q, false)
}

// SB with its flip.
fn products(t: &[i16; 32], s: &mut [i32; 16], a: usize, b: usize, angle: i8)
    requires { (a < 16) × (b < 16) × T (known «angle») }
    ensures { arrays t.now s.new ≡ step2 (SB a b «angle» true) (arrays t.now s.old) }
{
    let (cos, sin) = cos_sin(angle);
    narrow::fsb16(t, s, a, b, cos, sin, true);
}

// SH.
fn sums_of_s(t: &mut [i16; 32], s: &[i32; 16], a: usize, b: usize) -> Result<(), TooWide>
    requires { (a < 16) × (b < 16) × AllWithin reach s.now }
    ensures { Told step2 fits2 (SH a b) (arrays t.old s.now) (is_ok result) (arrays t.new s.now) }
{
    let p = s[a];
    let q = s[b];
    let x = narrow::round14(p + q);
    let y = narrow::round14(p - q);
    put(t, a, b, x, y, false)
}

// T[i] = -T[i].
fn negate(t: &mut [i16; 32], i: usize) -> Result<(), TooWide>
    requires { i < 32 }
    ensures { Told step fits (Neg i) t.old (is_ok result) t.new }
{
    let p = -narrow::wide(t[i]);
    if !narrow::is_short(p) {
        return Err(TooWide);
    }
    narrow::fneg16(t, i);
    Ok(())
}

// The permutation of the DCT, in place: t[i] and t[brev(n, i)] change places for each i below its reverse.
fn reverse(t: &mut [i16; 32], n: u32)
    requires { (2 ≤ n) × (n ≤ 5) }
    ensures { t.new ≡ step (Move (2 ^ n) (Brev n)) t.old }
{
    for i in 0..answers::side(n) {
        let j = primitives::brev(n, i);
        if i < j {
            t.swap(i, j);
        }
    }
}

// The permutation before the ADST: t[2i] = copy_t[n0 - 1 - 2i], t[2i + 1] = copy_t[2i].
fn enter(t: &mut [i16; 32], n: u32)
    requires { (3 ≤ n) × (n ≤ 4) }
    ensures { t.new ≡ step (Move (2 ^ n) (adst_in n)) t.old }
{
    let copy_t = *t;
    let n0 = answers::side(n);
    for i in 0..n0 / 2 {
        t[2 * i] = copy_t[n0 - 1 - 2 * i];
        t[2 * i + 1] = copy_t[2 * i];
    }
}

// The permutation after it: the bits of k, each added to the one above it without carry, in reverse.
fn leave(t: &mut [i16; 32], n: u32)
    requires { (3 ≤ n) × (n ≤ 4) }
    ensures { t.new ≡ step (Move (2 ^ n) (adst_out n)) t.old }
{
    let copy_t = *t;
    for k in 0..answers::side(n) {
        t[k] = copy_t[primitives::brev(n, k ^ (k / 2))];
    }
}

// The ADST of 4 numbers; 5283, 9929 and 13377 are SINPI_1_9 to SINPI_3_9, and SINPI_4_9 is the sum of the first two.
fn adst4(t: &mut [i16; 32]) -> Result<(), TooWide>
    requires { 4 ≤ length t.old }
    ensures { Told step fits A4 t.old (is_ok result) t.new }
{
    let a = narrow::wide(t[0]);
    let b = narrow::wide(t[1]);
    let c = narrow::wide(t[2]);
    let d = narrow::wide(t[3]);
    let u = c + d;
    let x0 = 5283 * (a + c) + 9929 * u;
    let x1 = 9929 * (a - d) - 5283 * u;
    let x2 = 13377 * (a - c + d);
    let x3 = 13377 * b;
    let y0 = narrow::round14(x0 + x3);
    let y1 = narrow::round14(x1 + x3);
    let y2 = narrow::round14(x2);
    let y3 = narrow::round14(x0 + x1 - x3);
    put(t, 0, 1, y0, y1, false)?;
    put(t, 2, 3, y2, y3, false)
}

// The WHT.
fn wht4(t: &mut [i16; 32], shift: u32) -> Result<(), TooWide>
    requires { («shift» ≤ 2) × (4 ≤ length t.old) }
    ensures { Told step fits (Wh «shift») t.old (is_ok result) t.new }
{
    let mut a = narrow::wide(t[0]) >> shift;
    let mut c = narrow::wide(t[1]) >> shift;
    let mut d = narrow::wide(t[2]) >> shift;
    let mut b = narrow::wide(t[3]) >> shift;
    a += c;
    d -= b;
    let e = (a - d) >> 1;
    b = e - b;
    c = e - c;
    a -= b;
    d += c;
    put(t, 0, 1, a, b, false)?;
    put(t, 2, 3, c, d, false)
}

// One step of a line of 2^n numbers.
fn apply(t: &mut [i16; 32], s: &mut [i32; 16], n: u32, step: Step) -> Result<(), TooWide>
    requires { (2 ≤ n) × (n ≤ 5) × T (ready n step) × (4 ≤ length t.old) × AllWithin reach s.old }
    ensures { Told step2 fits2 (step_of n step) (arrays t.old s.old) (is_ok result) (arrays t.new s.new) }
{
    match step {
        Step::Reverse => {
            reverse(t, n);
            Ok(())
        }
        Step::Turn(a, b, angle, flip) => turn(t, a as usize, b as usize, angle, flip),
        Step::Sums(a, b, flip) => {
            if flip {
                sums(t, b as usize, a as usize)
            } else {
                sums(t, a as usize, b as usize)
            }
        }
        Step::Products(a, b, angle) => {
            products(t, s, a as usize, b as usize, angle);
            Ok(())
        }
        Step::SumsOfS(a, b) => sums_of_s(t, s, a as usize, b as usize),
        Step::Negate(a) => negate(t, a as usize),
        Step::Enter => {
            enter(t, n);
            Ok(())
        }
        Step::Leave => {
            leave(t, n);
            Ok(())
        }
        Step::Adst4 => adst4(t),
        Step::Wht(shift) => wht4(t, shift as u32),
    }
}

// The table, lent as it stands: an array constant is built anew in each call.
fn table() -> &'static [Step; 173]
    ensures { Tables result.now }
{
    &STEPS
}

// The steps of a line.
fn steps(table: &[Step; 173], n: u32, kind: Kind) -> &[Step]
    requires { Tables table.now × Sized kind n }
    ensures { Gives n result.now (steps_of (pass_of kind) n) }
{
    match (kind, n) {
        (Kind::Dct, 2) => &table[..5],
        (Kind::Dct, 3) => &table[..14],
        (Kind::Dct, 4) => &table[..38],
        (Kind::Dct, _) => &table[..98],
        (Kind::Adst, 2) => &table[98..99],
        (Kind::Adst, 3) => &table[99..121],
        (Kind::Adst, _) => &table[121..171],
        (Kind::WhtRow, _) => &table[171..172],
        (Kind::WhtColumn, _) => &table[172..],
    }
}

// The DCT of 4 numbers, step by step.
fn dct4(t: &mut [i16; 32]) -> Result<(), TooWide>
    requires { (4 ≤ length t.old) × (shorts 4 t.old ≡ true) }
    ensures { Line Dct 2 t.old (is_ok result) t.new }
{
    reverse(t, 2);
    turn(t, 0, 1, 16, true)?;
    turn(t, 2, 3, 24, false)?;
    sums(t, 0, 3)?;
    sums(t, 1, 2)
}

// A line of 4 numbers, with no table: a third of the blocks of a video are 4 by 4.
fn line4(t: &mut [i16; 32], kind: Kind) -> Result<(), TooWide>
    requires { (4 ≤ length t.old) × (shorts 4 t.old ≡ true) }
    ensures { Line (pass_of kind) 2 t.old (is_ok result) t.new }
{
    match kind {
        Kind::Dct => dct4(t),
        Kind::Adst => adst4(t),
        Kind::WhtRow => wht4(t, 2),
        Kind::WhtColumn => wht4(t, 0),
    }
}

// The inverse transform of the first 2^n numbers of t, where they and every number on the way are of 16 bits. Where not, t is as it came to be.
fn line(t: &mut [i16; 32], steps: &[Step], n: u32, kind: Kind) -> Result<(), TooWide>
    requires { Gives n steps.now (steps_of (pass_of kind) n) × Sized kind n × (2 ^ n ≤ length t.old) × (shorts (2 ^ n) t.old ≡ true) }
    ensures { Line (pass_of kind) n t.old (is_ok result) t.new }
{
    if n == 2 {
        return line4(t, kind);
    }
    let mut s = [0i32; 16];
    for step in steps {
        apply(t, &mut s, n, *step)?;
    }
    Ok(())
}

// By index, as two lists go at two steps. The n numbers of s at start, start + step, .. into the first places of t. As numbers of s they are of 16 bits.
fn load(t: &mut [i16; 32], s: &[i16; 1024], start: usize, step: usize, n: usize)
    requires { (n ≤ 32) × ((k : ℕ) → k < n → start + k * step < 1024) }
    ensures made { t.new ≡ fill n (λ k. get_or s.now (start + k * step) (pos 0)) t.old }
    ensures told { (k : ℕ) → k < n → short (get_or s.now (start + k * step) (pos 0)) ≡ true }
{
    for k in 0..n {
        t[k] = s[start + k * step];
    }
}

// The first n numbers of t to these places of s.
fn store(s: &mut [i16; 1024], t: &[i16; 32], start: usize, step: usize, n: usize)
    requires { (n ≤ 32) × ((k : ℕ) → k < n → start + k * step < 1024) }
    ensures { s.new ≡ set_line (λ z. z) start step n t.now s.old }
{
    for k in 0..n {
        s[start + k * step] = t[k];
    }
}

// One line: its first number at `at`, each `step` past the one before. Where a number leaves 16 bits, the block is as it was.
fn one(
    z: &mut [i16; 1024],
    steps: &[Step],
    at: usize,
    step: usize,
    n: u32,
    kind: Kind,
) -> Result<(), TooWide>
    requires { Gives n steps.now (steps_of (pass_of kind) n) × (2 ≤ n) × (n ≤ 5) × Sized kind n × ((k : ℕ) → k < side n → at + k * step < 1024) }
    ensures { Tells (is_ok result) (Keeps (pass_of kind) n (line at step (side n) z.entry.now)) (z.exit.now ≡ change_line (apply (pass_of kind) n) (λ z. z) at step (side n) z.entry.now) }
{
    let n0 = answers::side(n);
    let mut t = [0i16; 32];
    load(&mut t, z, at, step, n0);
    line(&mut t, steps, n, kind)?;
    store(z, &t, at, step, n0);
    Ok(())
}

// All columns of a block, not rounded, where no number leaves 16 bits. Rows and columns differ in their places and in what they promise; what they
// share is `one`.
pub fn columns(z: &mut [i16; 1024], n: u32, kind: Kind) -> Result<(), TooWide>
    requires { (2 ≤ n) × (n ≤ 5) × Sized kind n × (length z.old ≡ 1024) }
    ensures { Tells (is_ok result) (ColumnsKeep (pass_of kind) n z.entry.now) (z.exit.now ≡ columns (apply (pass_of kind) n) (λ z. z) (side n) z.entry.now) }
{
    let steps = steps(table(), n, kind);
    let n0 = answers::side(n);
    for j in 0..n0 {
        one(z, steps, j, n0, n, kind)?;
    }
    Ok(())
}

// All rows of a block, where no number leaves 16 bits.
pub fn rows(z: &mut [i16; 1024], n: u32, kind: Kind) -> Result<(), TooWide>
    requires { (2 ≤ n) × (n ≤ 5) × Sized kind n × (length z.old ≡ 1024) }
    ensures { Tells (is_ok result) (RowsKeep (pass_of kind) n z.old) (z.new ≡ rows (apply (pass_of kind) n) (side n) z.old) }
{
    let steps = steps(table(), n, kind);
    let n0 = answers::side(n);
    for i in 0..n0 {
        one(z, steps, i * n0, 1, n, kind)?;
    }
    Ok(())
}
