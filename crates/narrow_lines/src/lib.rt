// The rows and the columns of a block of 16-bit numbers that stays within them: no test on the way, and eight lines side by side, which the
// compiler makes one line of eight-fold numbers. The block stands by strips of eight columns: eight columns are then loads side by side, and eight rows
// loads eight numbers apart, for which there are instructions on both processors.
#![tactic(auto)]

ghost use Rattle.std.specs.Prelude.{◌≡◌, Bool, true, false, ℕ, ◌+◌, ◌*◌, ◌≤◌, ◌<◌, pos, nat_abs, length, get_or, set, replicate};
ghost use Rattle.whole.specs.Lists.{tabulate, fill};
ghost use Rattle.whole.specs.Inner.{times};
ghost use Rattle.whole.specs.Round.{Round2};
ghost use Rattle.answers.specs.Sizes.{side, area};
ghost use Rattle.blocks.specs.Block.{row, column, rows, columns};
ghost use Rattle.blocks.specs.Inner.{set_line};
ghost use Rattle.blocks.specs.Inverse.{Pass, Dct, Adst, apply, lossy, rounding};
ghost use Rattle.narrow.specs.Tile.{place, raster};
ghost use Rattle.weights.specs.Inner.{total, Keeps};
ghost use Rattle.narrow_lines.specs.Inner.{start, gap, spot, line_of, Whole, Holds, strip, first, StripKeeps, Dead};

// A block of the greatest size, all zeros.
pub fn zeros() -> [i16; 1024]
    ensures { result ≡ replicate 1024 (pos 0) }
{
    [0i16; 1024]
}

// Where row i, column j of a block stands.
fn place(n0: usize, i: usize, j: usize) -> usize
    requires { (n0 ≤ 32) × (i < n0) × (j < n0) }
    ensures { result ≡ place n0 i j }
{
    8 * n0 * (j / 8) + 8 * i + j % 8
}

// Which way the lines of a block run. A type in place of a flag: each way gets its own code, in which every place is known.
trait Direction {
    ghost goes_down: { Bool };

    // Where number k of line i stands.
    fn spot(n0: usize, i: usize, k: usize) -> usize
        requires { (n0 ≤ 32) × (i < n0) × (k < n0) }
        ensures { result ≡ spot goes_down n0 i k };
}

struct ByRow;

impl Direction for ByRow {
    ghost goes_down = { false };

    fn spot(n0: usize, i: usize, k: usize) -> usize {
        place(n0, i, k)
    }
}

struct ByColumn;

impl Direction for ByColumn {
    ghost goes_down = { true };

    fn spot(n0: usize, i: usize, k: usize) -> usize {
        place(n0, k, i)
    }
}

// Line i into the first places of t. Where n0 is a literal, two loops of few turns unroll and every index folds; one of 32 turns does so
// on one of the two processors only.
fn load<D: Direction>(t: &mut [i16; 32], z: &[i16; 1024], i: usize, n0: usize)
    requires { Whole n0 × (i < n0) × (t.old ≡ replicate 32 (pos 0)) }
    ensures { t.new ≡ line_of D.goes_down n0 i (raster n0 z.now) }
{
    for a in 0..n0 / 8 {
        for b in 0..8usize {
            let k = 8 * a + b;
            t[k] = z[D::spot(n0, i, k)];
        }
    }
}

// And back.
fn store<D: Direction>(z: &mut [i16; 1024], t: &[i16; 32], i: usize, n0: usize)
    requires { Whole n0 × (i < n0) × (length z.old ≡ 1024) }
    ensures { Holds n0 (set_line (λ z. z) (start D.goes_down n0 i) (gap D.goes_down n0) n0 t.now (raster n0 z.entry.now)) z.exit.now }
{
    for a in 0..n0 / 8 {
        for b in 0..8usize {
            let k = 8 * a + b;
            z[D::spot(n0, i, k)] = t[k];
        }
    }
}

// A transform of a line of SIDE numbers.
trait Transform {
    const SIDE: usize;

    ghost SIDE: { ℕ };

    ghost pass: { Pass };

    ghost n: { ℕ };

    // D is not read: so there is a copy for each direction, which has one caller and is inlined into it.
    fn run<D: Direction>(t: &mut [i16; 32])
        requires { Keeps pass n t.old }
        ensures { t.new ≡ apply pass n t.old };

    ghost size: { (SIDE ≡ side n) × Whole (side n) };
}

struct Dct8;

impl Transform for Dct8 {
    const SIDE: usize = 8;

    ghost SIDE = { 8 };

    ghost pass = { Dct };

    ghost n = { 3 };

    ghost use Rattle.std.proofs.Common.{rules};

    ghost size = { Prim.search rules };

    fn run<D: Direction>(t: &mut [i16; 32]) {
        narrow_dct::permute(t, 3, 2, 4);
        narrow_dct::level2(t);
        narrow_dct::level3(t);
    }
}

struct Dct16;

impl Transform for Dct16 {
    const SIDE: usize = 16;

    ghost SIDE = { 16 };

    ghost pass = { Dct };

    ghost n = { 4 };

    ghost use Rattle.std.proofs.Common.{rules};

    ghost size = { Prim.search rules };

    fn run<D: Direction>(t: &mut [i16; 32]) {
        narrow_dct::permute(t, 4, 4, 4);
        narrow_dct::level2(t);
        narrow_dct::level3(t);
        narrow_dct::level4_first(t);
        narrow_dct::level4_last(t);
    }
}

struct Dct32;

impl Transform for Dct32 {
    const SIDE: usize = 32;

    ghost SIDE = { 32 };

    ghost pass = { Dct };

    ghost n = { 5 };

    ghost use Rattle.std.proofs.Common.{rules};

    ghost size = { Prim.search rules };

    fn run<D: Direction>(t: &mut [i16; 32]) {
        narrow_dct::permute(t, 5, 4, 8);
        narrow_dct::level2(t);
        narrow_dct::level3(t);
        narrow_dct::level4_first(t);
        narrow_dct::level4_last(t);
        narrow_dct::level5_turns(t);
        narrow_dct::level5_first(t);
        narrow_dct::level5_next(t);
        narrow_dct::level5_last(t);
        narrow_dct::level5_sums(t);
    }
}

struct Adst8;

impl Transform for Adst8 {
    const SIDE: usize = 8;

    ghost SIDE = { 8 };

    ghost pass = { Adst };

    ghost n = { 3 };

    ghost use Rattle.std.proofs.Common.{rules};

    ghost size = { Prim.search rules };

    fn run<D: Direction>(t: &mut [i16; 32]) {
        let mut s = [0i32; 16];
        narrow_adst::permute::<narrow_adst::Input>(t, 3, 2, 4);
        narrow_adst::adst8_first(t, &mut s);
        narrow_adst::adst8_next(t, &mut s);
        narrow_adst::adst8_last(t);
    }
}

struct Adst16;

impl Transform for Adst16 {
    const SIDE: usize = 16;

    ghost SIDE = { 16 };

    ghost pass = { Adst };

    ghost n = { 4 };

    ghost use Rattle.std.proofs.Common.{rules};

    ghost size = { Prim.search rules };

    fn run<D: Direction>(t: &mut [i16; 32]) {
        let mut s = [0i32; 16];
        narrow_adst::permute::<narrow_adst::Input>(t, 4, 4, 4);
        narrow_adst::adst16_turns(t, &mut s);
        narrow_adst::adst16_first(t, &s);
        narrow_adst::adst16_next(t, &mut s);
        narrow_adst::adst16_more(t, &mut s);
        narrow_adst::adst16_last(t);
    }
}

// The eight lines of strip q through a transform. The line is 8 q + j here and not in the caller: so the compiler sees the strip.
fn eight<T: Transform, D: Direction>(z: &mut [i16; 1024], q: usize)
    requires { (8 * q + 8 ≤ side T.n) × (length z.old ≡ 1024) × StripKeeps D.goes_down T.pass T.n (8 * q) (raster (side T.n) z.old) }
    ensures { Holds (side T.n) (strip D.goes_down T.pass T.n (8 * q) 8 (raster (side T.n) z.old)) z.new }
{
    for j in 0..8usize {
        let mut t = [0i16; 32];
        load::<D>(&mut t, z, 8 * q + j, T::SIDE);
        T::run::<D>(&mut t);
        store::<D>(z, &t, 8 * q + j, T::SIDE);
    }
}

// Eight lines, by size and transform. `use_dct` is a flag, as `blocks` tells it of a block's type.
fn eight_lines<D: Direction>(z: &mut [i16; 1024], q: usize, n: u32, use_dct: bool)
    requires { (3 ≤ n) × (n ≤ 5) × (use_dct ≡ false → n ≤ 4) × (8 * q + 8 ≤ side n) × (length z.old ≡ 1024) × StripKeeps D.goes_down (lossy use_dct) n (8 * q) (raster (side n) z.old) }
    ensures { Holds (side n) (strip D.goes_down (lossy use_dct) n (8 * q) 8 (raster (side n) z.old)) z.new }
{
    if use_dct {
        if n == 3 {
            eight::<Dct8, D>(z, q);
        } else if n == 4 {
            eight::<Dct16, D>(z, q);
        } else {
            eight::<Dct32, D>(z, q);
        }
    } else if n == 3 {
        eight::<Adst8, D>(z, q);
    } else {
        eight::<Adst16, D>(z, q);
    }
}

// The lines of the first `strips` strips of eight.
fn lines<D: Direction>(z: &mut [i16; 1024], n: u32, use_dct: bool, strips: usize)
    requires { (3 ≤ n) × (n ≤ 5) × (use_dct ≡ false → n ≤ 4) × (8 * strips ≤ side n) × (length z.old ≡ 1024) × ((i : ℕ) → i < 8 * strips → Keeps (lossy use_dct) n (line_of D.goes_down (side n) i (raster (side n) z.old))) }
    ensures { Holds (side n) (first D.goes_down (lossy use_dct) n (8 * strips) (raster (side n) z.old)) z.new }
{
    for q in 0..strips {
        eight_lines::<D>(z, q, n, use_dct);
    }
}

// All rows of a block; those past `strips` strips of eight are zeros, and stay so.
pub fn rows(z: &mut [i16; 1024], n: u32, use_dct: bool, strips: usize)
    requires { (3 ≤ n) × (n ≤ 5) × (use_dct ≡ false → n ≤ 4) × (length z.old ≡ 1024) × (8 * strips ≤ side n) × ((i : ℕ) → i < side n → Keeps (lossy use_dct) n (row (side n) i (raster (side n) z.old))) × Dead (8 * strips * side n) (raster (side n) z.old) }
    ensures { (length z.new ≡ 1024) × (raster (side n) z.new ≡ rows (apply (lossy use_dct) n) (side n) (raster (side n) z.old)) }
{
    lines::<ByRow>(z, n, use_dct, strips);
}

// All columns of a block, not rounded.
pub fn columns(z: &mut [i16; 1024], n: u32, use_dct: bool)
    requires { (3 ≤ n) × (n ≤ 5) × (use_dct ≡ false → n ≤ 4) × (length z.old ≡ 1024) × ((j : ℕ) → j < side n → Keeps (lossy use_dct) n (column (side n) j (raster (side n) z.old))) }
    ensures { (length z.exit.now ≡ 1024) × (raster (side n) z.exit.now ≡ columns (apply (lossy use_dct) n) (λ z. z) (side n) (raster (side n) z.entry.now)) }
{
    let strips = answers::side(n) / 8;
    lines::<ByColumn>(z, n, use_dct, strips);
}

// Round2 by two shifts, so that no sum leaves 16 bits; each by a literal, which is one instruction.
fn rounded(x: i16, shift: u32) -> i16
    requires { (5 ≤ «shift») × («shift» ≤ 6) }
    ensures { result ≡ Round2 x «shift» }
{
    if shift == 5 {
        return ((x >> 4) + 1) >> 1;
    }
    ((x >> 5) + 1) >> 1
}

// All numbers of a block, rounded. By index: over a part of z that is lent to an iterator the proof did not close.
pub fn round(z: &mut [i16; 1024], n: u32)
    requires { (3 ≤ n) × (n ≤ 5) × (length z.old ≡ 1024) }
    ensures { z.new ≡ fill (area n) (λ k. rounding n false (get_or z.old k (pos 0))) z.old }
{
    let shift = blocks::rounding_bits(n);
    for k in 0..answers::area(n) {
        z[k] = rounded(z[k], shift);
    }
}

// The magnitude of a number of 16 bits, of the least too.
fn magnitude(x: i16) -> u32
    ensures { (result ≡ nat_abs x) × (result ≤ 32768) }
{
    u32::from(x.unsigned_abs())
}

// The magnitudes of the first `count` numbers, added up.
pub fn total(z: &[i16; 1024], count: usize) -> u32
    requires { count ≤ 1024 }
    ensures { result ≡ total count z.now }
{
    let mut all = 0u32;
    for x in &z[..count] {
        all += magnitude(*x);
    }
    all
}

// Eight numbers, in their order. One by one: with `copy_from_slice` the proof did not close.
fn move_eight(to: &mut [i16; 1024], at: usize, from: &[i16; 1024], start: usize)
    requires { (at + 8 ≤ 1024) × (start + 8 ≤ 1024) }
    ensures { to.new ≡ times 8 (λ c y. set y (at + c) (get_or from.now (start + c) (pos 0))) to.old }
{
    for c in 0..8usize {
        to[at + c] = from[start + c];
    }
}

// A block that stands row by row in s, by strips of eight columns.
pub fn to_strips(z: &mut [i16; 1024], s: &[i16; 1024], n: u32)
    requires { (3 ≤ n) × (n ≤ 5) × (length z.old ≡ 1024) }
    ensures { (length z.new ≡ 1024) × (raster (side n) z.new ≡ tabulate (λ k. get_or s.now k (pos 0)) (area n)) }
{
    let n0 = answers::side(n);
    for q in 0..n0 / 8 {
        for i in 0..n0 {
            move_eight(z, 8 * (n0 * q + i), s, n0 * i + 8 * q);
        }
    }
}

// And back. A function of its own: each writes in the order of its own side, and the two promise different things.
pub fn from_strips(s: &mut [i16; 1024], z: &[i16; 1024], n: u32)
    requires { (3 ≤ n) × (n ≤ 5) }
    ensures { s.new ≡ fill (area n) (λ k. get_or (raster (side n) z.now) k (pos 0)) s.old }
{
    let n0 = answers::side(n);
    for i in 0..n0 {
        for q in 0..n0 / 8 {
            move_eight(s, n0 * i + 8 * q, z, 8 * (n0 * q + i));
        }
    }
}
