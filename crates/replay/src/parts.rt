// Kinds 1 to 8: the primitives. What they require of their numbers is tested here.
ghost use Rattle.std.specs.Prelude.{true, ◌≡◌, ◌<◌, pos, get_or};
ghost use Rattle.whole.specs.Within.{Within};

use crate::verdict::Stop;
use answers::magnitude;
use lines::Line;

// 2^46: operands of B, H and SB.
const LEAF: u64 = 70368744177664;

// 2^61: operands of SH.
const WIDE: u64 = 2305843009213693952;

// 2^62: what Round2 takes.
const ROUNDED: u64 = 4611686018427387904;

// Kind 1.
pub fn round2(line: &mut Line) -> Result<(), Stop> {
    let x = line.integer::<i64>()?;
    let bits = line.integer::<u32>()?;
    let size = magnitude(x);
    if bits < 1 || 30 < bits || ROUNDED < size {
        return Err(Stop::Outside);
    }
    Ok(line.same_integer(primitives::round2(x, bits))?)
}

// Kind 2.
pub fn brev(line: &mut Line) -> Result<(), Stop> {
    let bits = line.integer::<u32>()?;
    let x = line.integer::<usize>()?;
    if 5 < bits {
        return Err(Stop::Outside);
    }
    Ok(line.same_integer(primitives::brev(bits, x))?)
}

// Kind 3.
pub fn cos64(line: &mut Line) -> Result<(), Stop> {
    let angle = line.integer()?;
    Ok(line.same_integer(primitives::cos64(angle))?)
}

// Kind 4.
pub fn sin64(line: &mut Line) -> Result<(), Stop> {
    let angle = line.integer()?;
    Ok(line.same_integer(primitives::sin64(angle))?)
}

// Place k lies below `count`, and the number there within `most`.
fn near(list: &[i64], count: usize, k: usize, most: u64) -> bool
    ensures { result ≡ true → (k < count) × Within most (get_or list.now k (pos 0)) }
{
    if count <= k {
        return false;
    }
    if list.len() <= k {
        return false;
    }
    let x = list[k];
    magnitude(x) <= most
}

// So it is with both places.
fn both_near(list: &[i64], count: usize, a: usize, b: usize, most: u64) -> bool
    ensures { result ≡ true →
        (a < count) × (b < count) × Within most (get_or list.now a (pos 0)) × Within most (get_or list.now b (pos 0)) }
{
    if near(list, count, a, most) {
        return near(list, count, b, most);
    }
    false
}

// Kind 5: B on T.
pub fn butterfly(line: &mut Line) -> Result<(), Stop> {
    let a = line.integer()?;
    let b = line.integer()?;
    let angle = line.integer()?;
    let flip = line.flag()?;
    let lent = *line;
    let mut t = [0i64; 32];
    line.whole_list(&mut t)?;
    if both_near(&t, 32, a, b, LEAF) {
        primitives::butterfly(&mut t, a, b, angle, flip);
        return Ok(line.same_lent(lent, &t)?);
    }
    Err(Stop::Outside)
}

// Kind 6: H on T.
pub fn hadamard(line: &mut Line) -> Result<(), Stop> {
    let a = line.integer()?;
    let b = line.integer()?;
    let flip = line.flag()?;
    let lent = *line;
    let mut t = [0i64; 32];
    line.whole_list(&mut t)?;
    if both_near(&t, 32, a, b, LEAF) {
        primitives::hadamard(&mut t, a, b, flip);
        return Ok(line.same_lent(lent, &t)?);
    }
    Err(Stop::Outside)
}

// Kind 7: SB from T, of which the first half counts, into S.
pub fn sb(line: &mut Line) -> Result<(), Stop> {
    let a = line.integer()?;
    let b = line.integer()?;
    let angle = line.integer()?;
    let flip = line.flag()?;
    let mut t = [0i64; 32];
    line.whole_list(&mut t)?;
    let lent = *line;
    let mut s = [0i64; 16];
    line.whole_list(&mut s)?;
    if both_near(&t, 16, a, b, LEAF) {
        primitives::sb(&t, &mut s, a, b, angle, flip);
        return Ok(line.same_lent(lent, &s)?);
    }
    Err(Stop::Outside)
}

// Kind 8: SH from S into T.
pub fn sh(line: &mut Line) -> Result<(), Stop> {
    let a = line.integer()?;
    let b = line.integer()?;
    let lent = *line;
    let mut t = [0i64; 32];
    line.whole_list(&mut t)?;
    let mut s = [0i64; 16];
    line.whole_list(&mut s)?;
    if both_near(&s, 16, a, b, WIDE) {
        primitives::sh(&mut t, &s, a, b);
        return Ok(line.same_lent(lent, &t)?);
    }
    Err(Stop::Outside)
}
