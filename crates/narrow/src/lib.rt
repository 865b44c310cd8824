// Lines of 16-bit numbers: every number of T is an i16, every product and sum an i32. What is stored has to be of 16 bits; `tested` has the
// form that tests it.
#![tactic(auto)]

ghost use Rattle.std.specs.Prelude.{◌≡◌, true, false, ◌<◌, pos, get_or};
ghost use Rattle.whole.specs.Round.{Round2};
ghost use Rattle.whole.specs.Within.{Within};
ghost use Rattle.primitives.specs.Rotations.{set_pair};
ghost use Rattle.steps.specs.Step.{Hd, Neg, step};
ghost use Rattle.steps.specs.Step2.{SH, step2};
ghost use Rattle.adst.specs.Inner.{arrays};
ghost use Rattle.narrow.specs.Kept.{short};
ghost use Rattle.narrow.specs.Inner.{short_pair, spin_x, spin_y, spin_fits, spin, Turns, Rotated, Fine16, Fine216, set_both};

// A number of T, at 32 bits.
pub fn wide(x: i16) -> i32
    ensures { (result ≡ x) × Within 32768 result }
{
    i32::from(x)
}

// Both values of a rotation.
#[derive(Clone, Copy)]
pub struct Rotated32 {
    pub x: i32,
    pub y: i32,
}

// A rotation of t[a] and t[b] by the angle that has this cosine and sine, not rounded. Callers give the two as literals: found from the angle,
// they would keep the steps from being inlined.
pub fn turn(t: &[i16; 32], a: usize, b: usize, cos: i32, sin: i32) -> Rotated32
    requires { Turns a b cos sin }
    ensures { Rotated t.now a b cos sin result.x result.y }
{
    let p = wide(t[a]);
    let q = wide(t[b]);
    Rotated32 {
        x: p * cos - q * sin,
        y: p * sin + q * cos,
    }
}

// Round2(x, 14).
pub fn round14(x: i32) -> i32
    requires { Within 2147475455 x }
    ensures { result ≡ Round2 x 14 }
{
    (x + 8192) >> 14
}

// x is of 16 bits.
pub fn is_short(x: i32) -> bool
    ensures { result ≡ short x }
{
    i16::try_from(x).is_ok()
}

// x to place a and y to place b; flip exchanges the two. It stays a flag, here and below: it is an argument of the specification's B and H.
fn put<E: Copy, const N: usize>(t: &mut [E; N], a: usize, b: usize, x: E, y: E, flip: bool)
    requires { (a < N) × (b < N) }
    ensures { t.new ≡ set_both t.old a b x y flip }
{
    if flip {
        t[a] = y;
        t[b] = x;
    } else {
        t[a] = x;
        t[b] = y;
    }
}

// The same of two numbers of 16 bits.
pub fn put16(t: &mut [i16; 32], a: usize, b: usize, x: i32, y: i32, flip: bool)
    requires { (a < 32) × (b < 32) × (short_pair x y ≡ true) }
    ensures { t.new ≡ set_pair t.old a b x y flip }
{
    put(t, a, b, x as i16, y as i16, flip);
}

// B(a, b, angle, flip) on t, for the angle of this cosine and sine, where both results are of 16 bits.
pub fn fb16(t: &mut [i16; 32], a: usize, b: usize, cos: i32, sin: i32, flip: bool)
    requires { Turns a b cos sin × (spin_fits t.old a b cos sin ≡ true) }
    ensures { t.new ≡ spin t.old a b cos sin flip }
{
    let r = turn(t, a, b, cos, sin);
    let x = round14(r.x);
    let y = round14(r.y);
    put16(t, a, b, x, y, flip);
}

// H(a, b, 0) on t, where both results are of 16 bits.
fn sums16(t: &mut [i16; 32], a: usize, b: usize)
    requires { Fine16 (Hd a b false) t.old }
    ensures { t.new ≡ step (Hd a b false) t.old }
{
    let p = wide(t[a]);
    let q = wide(t[b]);
    put16(t, a, b, p + q, p - q, false);
}

// H(a, b, flip) on t, where both results are of 16 bits.
pub fn fh16(t: &mut [i16; 32], a: usize, b: usize, flip: bool)
    requires { Fine16 (Hd a b flip) t.old }
    ensures { t.new ≡ step (Hd a b flip) t.old }
{
    if flip {
        sums16(t, b, a);
    } else {
        sums16(t, a, b);
    }
}

// t[i] = -t[i], where that is of 16 bits.
pub fn fneg16(t: &mut [i16; 32], i: usize)
    requires { Fine16 (Neg i) t.old }
    ensures { t.new ≡ step (Neg i) t.old }
{
    let p = -wide(t[i]);
    t[i] = p as i16;
}

// SB(a, b, angle, flip): the values of a rotation of t, not rounded, into s. Nothing is asked of them; as numbers of t, those that are turned are of 16 bits.
pub fn fsb16(t: &[i16; 32], s: &mut [i32; 16], a: usize, b: usize, cos: i32, sin: i32, flip: bool)
    requires { (a < 16) × (b < 16) × Turns a b cos sin }
    ensures made { s.new ≡ set_pair s.old a b (spin_x t.now a b cos sin) (spin_y t.now a b cos sin) flip }
    ensures told { Within 32768 (get_or t.now a (pos 0)) × Within 32768 (get_or t.now b (pos 0)) }
{
    let r = turn(t, a, b, cos, sin);
    put(s, a, b, r.x, r.y, flip);
}

// SH(a, b): sum and difference of s, rounded, into t, where both are of 16 bits.
pub fn fsh16(t: &mut [i16; 32], s: &[i32; 16], a: usize, b: usize)
    requires { Fine216 (SH a b) (arrays t.old s.now) }
    ensures { arrays t.new s.now ≡ step2 (SH a b) (arrays t.old s.now) }
{
    let p = s[a];
    let q = s[b];
    let x = round14(p + q);
    let y = round14(p - q);
    put16(t, a, b, x, y, false);
}
