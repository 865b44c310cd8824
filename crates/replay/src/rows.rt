// Kinds 10 to 12: one row. What the transforms require of its numbers is tested here.
ghost use Rattle.std.specs.Prelude.{true, ◌≡◌, ℕ, ◌<◌, pos, get_or};
ghost use Rattle.whole.specs.Within.{Within};

use crate::verdict::Stop;
use answers::any_beyond;
use lines::Line;

// 2^31: a DCT or ADST row.
const ROW: u64 = 2147483648;

// 2^46: a WHT row.
const LEAF: u64 = 70368744177664;

// What stands behind a row of four, and has to stay.
const MARK: i64 = 77;

// The first `count` numbers are within `most`.
fn all_near(list: &[i64], count: usize, most: u64) -> bool
    ensures { result ≡ true → (k : ℕ) → k < count → Within most (get_or list.now k (pos 0)) }
{
    if list.len() < count {
        return false;
    }
    !any_beyond(list, count, most)
}

// Kind 10: one row through the recursive DCT.
pub fn inverse_dct(line: &mut Line) -> Result<(), Stop> {
    let bits = line.integer::<u32>()?;
    let lent = *line;
    let mut t = [0i64; 32];
    line.whole_list(&mut t)?;
    if bits < 2 || 5 < bits {
        return Err(Stop::Outside);
    }
    if all_near(&t, 32, ROW) {
        dct::idct_permute(&mut t, bits);
        let r = dct::inverse_dct(t, bits);
        return Ok(line.same_lent(lent, &r)?);
    }
    Err(Stop::Outside)
}

// Kind 11: one row through the ADST.
pub fn inverse_adst(line: &mut Line) -> Result<(), Stop> {
    let bits = line.integer::<u32>()?;
    let lent = *line;
    let mut t = [0i64; 32];
    line.whole_list(&mut t)?;
    if bits < 2 || 4 < bits {
        return Err(Stop::Outside);
    }
    if all_near(&t, 32, ROW) {
        adst::inverse_adst(&mut t, bits);
        return Ok(line.same_lent(lent, &t)?);
    }
    Err(Stop::Outside)
}

// Kind 12: four numbers through the WHT.
pub fn inverse_wht(line: &mut Line) -> Result<(), Stop> {
    let bits = line.integer::<u32>()?;
    let lent = *line;
    let mut t = [MARK; 32];
    line.whole_list(&mut t[..4])?;
    if 2 < bits {
        return Err(Stop::Outside);
    }
    if all_near(&t, 4, LEAF) {
        wht::inverse_wht(&mut t, bits);
        if t[4..].iter().any(|x| *x != MARK) {
            return Err(Stop::Broken);
        }
        return Ok(line.same_lent(lent, &t[..4])?);
    }
    Err(Stop::Outside)
}
