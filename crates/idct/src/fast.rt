ghost use Rattle.std.specs.Prelude.{◌≡◌, true, false, ◌^◌, ◌≤◌, length};
ghost use Rattle.answers.specs.Sizes.{area};
ghost use Rattle.blocks.specs.Inner.{FirstWithin, Possible};
ghost use Rattle.blocks.specs.Inverse.{inverse2d};
ghost use Rattle.row_pass.specs.Inner.{MadeOrFilled};
ghost use Rattle.idct.specs.Rows.{row_list, answered_by, counted_by};
ghost use Rattle.idct.specs.Inner.{Tried};

use answers::Refusal;
use row_pass::RowCount;

// Each of the following makes the residual and counts the rows that it transforms, or leaves the block: a number is beyond its limit.

fn try_wht4(block: &mut [i64]) -> Result<RowCount, Refusal>
    requires { 16 ≤ length block.old }
    ensures { Tried (record { block = block.entry.now; n = 2; tx_type = 0; lossless = true }) (answered_by result) (counted_by result) block.exit.now }
{
    if !dc::within(block, 16) {
        return Err(Refusal::Coefficient);
    }
    Ok(small_passes::wht_by_summary(block))
}

fn try_lossy4(block: &mut [i64], tx_type: u8) -> Result<RowCount, Refusal>
    requires { 16 ≤ length block.old }
    ensures { Tried (record { block = block.entry.now; n = 2; tx_type = tx_type; lossless = false }) (answered_by result) (counted_by result) block.exit.now }
{
    if !dc::within(block, 16) {
        return Err(Refusal::Coefficient);
    }
    Ok(small_passes::inverse4(block, tx_type))
}

// 4 by 4.
pub fn try_4(block: &mut [i64], tx_type: u8, lossless: bool) -> Result<RowCount, Refusal>
    requires { 16 ≤ length block.old }
    ensures { Tried (record { block = block.entry.now; n = 2; tx_type = tx_type; lossless = lossless }) (answered_by result) (counted_by result) block.exit.now }
{
    if lossless {
        return try_wht4(block);
    }
    try_lossy4(block, tx_type)
}

// 8 by 8 and more.
pub fn try_larger(block: &mut [i64], n: u32, tx_type: u8) -> Result<RowCount, Refusal>
    requires { (3 ≤ n) × Possible n tx_type false × (area n ≤ length block.old) }
    ensures { Tried (record { block = block.entry.now; n = n; tx_type = tx_type; lossless = false }) (answered_by result) (counted_by result) block.exit.now }
{
    let n0 = answers::side(n);
    if dc::only_dc(block, n0 * n0, tx_type) {
        if dc::is_beyond(block[0]) {
            return Err(Refusal::Coefficient);
        }
        dc::dc_fill(block, n, n0 * n0);
        return Ok(row_pass::no_rows());
    }
    if !dc::within(block, n0 * n0) {
        return Err(Refusal::Coefficient);
    }
    Ok(passes::both_passes(block, n, tx_type))
}

// The residual of a block of 8 by 8 or more within its limit.
fn larger(block: &mut [i64], n: u32, tx_type: u8) -> RowCount
    requires { (3 ≤ n) × Possible n tx_type false × (area n ≤ length block.old) × FirstWithin (2 ^ 31) (area n) block.old }
    ensures { MadeOrFilled n tx_type block.old block.new result.number }
{
    let count = answers::area(n);
    if dc::only_dc(block, count, tx_type) {
        dc::dc_fill(block, n, count);
        return row_pass::no_rows();
    }
    passes::both_passes(block, n, tx_type)
}

// The residual of any block within its limit.
fn residual(block: &mut [i64], n: u32, tx_type: u8, lossless: bool) -> RowCount
    requires { Possible n tx_type lossless × (area n ≤ length block.old) × FirstWithin (2 ^ 31) (area n) block.old }
    ensures { (block.exit.now ≡ inverse2d n tx_type lossless block.entry.now) × (result.number ≡ length (row_list (record { block = block.entry.now; n = n; tx_type = tx_type; lossless = lossless }))) }
{
    if lossless {
        return small_passes::wht_by_summary(block);
    }
    if n == 2 {
        return small_passes::inverse4(block, tx_type);
    }
    larger(block, n, tx_type)
}

// Any size.
pub fn try_any(block: &mut [i64], n: u32, tx_type: u8, lossless: bool) -> Result<RowCount, Refusal>
    requires { Possible n tx_type lossless × (area n ≤ length block.old) }
    ensures { Tried (record { block = block.entry.now; n = n; tx_type = tx_type; lossless = lossless }) (answered_by result) (counted_by result) block.exit.now }
{
    let count = answers::area(n);
    if !dc::within(block, count) {
        return Err(Refusal::Coefficient);
    }
    Ok(residual(block, n, tx_type, lossless))
}
