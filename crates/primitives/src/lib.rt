#![tactic(auto)]

ghost use Rattle.std.specs.Prelude.{◌≡◌, ℕ, ◌+◌, ◌-◌, ◌*◌, ◌^◌, ◌≤◌, ◌<◌, pos, get_or};
ghost use Rattle.whole.specs.Round.{Round2};
ghost use Rattle.whole.specs.Within.{Within};
ghost use Rattle.primitives.specs.Brev.{Brev};
ghost use Rattle.primitives.specs.Cosine.{cos64_lookup, modulo, Cos64, Sin64};
ghost use Rattle.primitives.specs.Inner.{Turned};
ghost use Rattle.primitives.specs.Rotations.{set_pair, apply_b, apply_h, apply_sb, apply_sh};

// COS64_LOOKUP: entry i is round(16384 cos(i π / 64)). By arms, because an array constant is built anew at each run-time index.
fn cos64_lookup(i: usize) -> i64
    requires { i ≤ 32 }
    ensures { (result ≡ get_or cos64_lookup i (pos 0)) × Within 16384 result }
{
    match i {
        0 => 16384,
        1 => 16364,
        2 => 16305,
        3 => 16207,
        4 => 16069,
        5 => 15893,
        6 => 15679,
        7 => 15426,
        8 => 15137,
        9 => 14811,
        10 => 14449,
        11 => 14053,
        12 => 13623,
        13 => 13160,
        14 => 12665,
        15 => 12140,
        16 => 11585,
        17 => 11003,
        18 => 10394,
        19 => 9760,
        20 => 9102,
        21 => 8423,
        22 => 7723,
        23 => 7005,
        24 => 6270,
        25 => 5520,
        26 => 4756,
        27 => 3981,
        28 => 3196,
        29 => 2404,
        30 => 1606,
        31 => 804,
        32.. => 0,
    }
}

// Round2(x, k): x / 2^k to the nearest, an exact half upward, below zero too.
pub fn round2(x: i64, k: u32) -> i64
    requires { (1 ≤ k) × (k ≤ 30) × Within (2 ^ 62) x }
    ensures { result ≡ Round2 x k }
{
    (x + (1i64 << (k - 1))) >> k
}

// The num_bits low bits of x in reverse.
pub fn brev(num_bits: u32, x: usize) -> usize
    requires { num_bits ≤ 5 }
    ensures { result ≡ Brev num_bits x }
{
    let mut t = 0usize;
    let mut rest = x;
    for i in 0..num_bits {
        let bit = rest % 2;
        t += bit << (num_bits - 1 - i);
        rest = rest / 2;
    }
    t
}

// The remainder by 128 that is not negative.
fn modulo128(angle: i32) -> usize
    ensures { (result ≡ modulo 128 angle) × (result < 128) }
{
    angle.rem_euclid(128) as usize
}

// round(16384 cos(angle π / 64)), from the quarter wave.
pub fn cos64(angle: i32) -> i64
    ensures { (result ≡ Cos64 angle) × Within 16384 result }
{
    let angle2 = modulo128(angle);
    match angle2 {
        0..=32 => cos64_lookup(angle2),
        33..=64 => -cos64_lookup(64 - angle2),
        65..=96 => -cos64_lookup(angle2 - 64),
        _ => cos64_lookup(128 - angle2),
    }
}

// round(16384 sin(angle π / 64)).
pub fn sin64(angle: i32) -> i64
    ensures { (result ≡ Sin64 angle) × Within 16384 result }
{
    cos64(angle.wrapping_sub(32))
}

// The two values of a rotation.
#[derive(Clone, Copy)]
pub struct Rotated {
    pub x: i64,
    pub y: i64,
}

// Both values of B, rounded. At angles 16 + 32k sine and cosine agree up to the sign, and one product does for two.
fn turn(p: i64, q: i64, angle: i32) -> Rotated
    requires { Within (2 ^ 46) p × Within (2 ^ 46) q }
    ensures { Turned p q angle result.x result.y }
{
    let angle2 = modulo128(angle);
    let c = cos64(angle);
    if angle2 % 32 != 16 {
        let s = sin64(angle);
        return Rotated {
            x: round2(p * c - q * s, 14),
            y: round2(p * s + q * c, 14),
        };
    }
    if angle2 / 32 % 2 == 1 {
        return Rotated {
            x: round2((p + q) * c, 14),
            y: round2((q - p) * c, 14),
        };
    }
    Rotated {
        x: round2((p - q) * c, 14),
        y: round2((p + q) * c, 14),
    }
}

// x to place a and y to place b; flip exchanges the two.
pub fn put_pair<const N: usize>(t: &mut [i64; N], a: usize, b: usize, x: i64, y: i64, flip: bool)
    requires { (a < N) × (b < N) }
    ensures { t.new ≡ set_pair t.old a b x y flip }
{
    let (x, y) = if flip { (y, x) } else { (x, y) };
    t[a] = x;
    t[b] = y;
}

// B(a, b, angle, flip) on t.
pub fn butterfly(t: &mut [i64; 32], a: usize, b: usize, angle: i32, flip: bool)
    requires { (a < 32) × (b < 32) × Within (2 ^ 46) (get_or t.old a (pos 0)) × Within (2 ^ 46) (get_or t.old b (pos 0)) }
    ensures { t.new ≡ apply_b t.old a b angle flip }
{
    let r = turn(t[a], t[b], angle);
    put_pair(t, a, b, r.x, r.y, flip);
}

// H(a, b, flip) on t; flip exchanges the roles of a and b.
pub fn hadamard(t: &mut [i64; 32], a: usize, b: usize, flip: bool)
    requires { (a < 32) × (b < 32) × Within (2 ^ 46) (get_or t.old a (pos 0)) × Within (2 ^ 46) (get_or t.old b (pos 0)) }
    ensures { t.new ≡ apply_h t.old a b flip }
{
    let (a, b) = if flip { (b, a) } else { (a, b) };
    let x = t[a];
    let y = t[b];
    t[a] = x + y;
    t[b] = x - y;
}

// SB(a, b, angle, flip): the products of t, not rounded, into s.
pub fn sb(t: &[i64; 32], s: &mut [i64; 16], a: usize, b: usize, angle: i32, flip: bool)
    requires { (a < 16) × (b < 16) × Within (2 ^ 46) (get_or t.now a (pos 0)) × Within (2 ^ 46) (get_or t.now b (pos 0)) }
    ensures { s.new ≡ apply_sb t.now s.old a b angle flip }
{
    let p = t[a];
    let q = t[b];
    let c = cos64(angle);
    let d = sin64(angle);
    let x = p * c - q * d;
    let y = p * d + q * c;
    put_pair(s, a, b, x, y, flip);
}

// SH(a, b): sum and difference of s, rounded, into t.
pub fn sh(t: &mut [i64; 32], s: &[i64; 16], a: usize, b: usize)
    requires { (a < 16) × (b < 16) × Within (2 ^ 61) (get_or s.now a (pos 0)) × Within (2 ^ 61) (get_or s.now b (pos 0)) }
    ensures { t.new ≡ apply_sh t.old s.now a b }
{
    let p = s[a];
    let q = s[b];
    let x = round2(p + q, 14);
    let y = round2(p - q, 14);
    t[a] = x;
    t[b] = y;
}
