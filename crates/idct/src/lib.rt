#![tactic(auto)]

ghost use Rattle.std.specs.Prelude.{◌≡◌};
ghost use Rattle.answers.specs.Answers.{number};
ghost use Rattle.idct.specs.Driver.{Driven};
ghost use Rattle.idct.specs.Rows.{Rowed, answered_by, counted_by};
ghost use Rattle.idct.specs.Inner.{shape_of};

use answers::{Answer, Refusal};
pub use blocks::{column_dct, rounding_bits, row_dct};
use row_pass::RowCount;

// The fast engine: it makes the residual, or leaves the block.
mod fast;

// The answer as far as it needs no number of the block, of which there are `count`.
pub fn shape(count: usize, n: u32, tx_type: u8, lossless: bool) -> Answer
    ensures { number result ≡ shape_of count n tx_type lossless }
{
    if answers::bad_side(n) {
        return Err(Refusal::Size);
    }
    if answers::bad_lossless(lossless, n - 2) {
        return Err(Refusal::LosslessSize);
    }
    if answers::bad_tx_type(lossless, n - 2, tx_type) {
        return Err(Refusal::TxType);
    }
    let n0 = answers::side(n);
    if count < n0 * n0 {
        return Err(Refusal::Length);
    }
    Ok(())
}

// The residual of the block, in its place, by the recursive transforms.
pub fn inverse_transform_2d_reference(
    block: &mut [i64],
    n: u32,
    tx_type: u8,
    lossless: bool,
) -> Answer
    ensures { Driven (record { block = block.entry.now; n = n; tx_type = tx_type; lossless = lossless }) result block.exit.now }
{
    shape(block.len(), n, tx_type, lossless)?;
    let n0 = answers::side(n);
    if answers::any_beyond(block, n0 * n0, answers::COEF_LIMIT) {
        return Err(Refusal::Coefficient);
    }
    reference::rows(block, n, tx_type, lossless);
    reference::columns(block, n, tx_type, lossless);
    Ok(())
}

// The fast engine, 4 by 4: with 2 for n the tests fold.
fn small(block: &mut [i64], tx_type: u8, lossless: bool) -> Result<RowCount, Refusal>
    ensures { Rowed (record { block = block.entry.now; n = 2; tx_type = tx_type; lossless = lossless }) (answered_by result) (counted_by result) block.exit.now }
{
    shape(block.len(), 2, tx_type, lossless)?;
    fast::try_4(block, tx_type, lossless)
}

// The fast engine, every size.
fn drive(block: &mut [i64], n: u32, tx_type: u8, lossless: bool) -> Result<RowCount, Refusal>
    ensures { Rowed (record { block = block.entry.now; n = n; tx_type = tx_type; lossless = lossless }) (answered_by result) (counted_by result) block.exit.now }
{
    if n == 2 {
        return small(block, tx_type, lossless);
    }
    shape(block.len(), n, tx_type, lossless)?;
    fast::try_larger(block, n, tx_type)
}

// The residual of the block, in its place, by the fast engine.
pub fn inverse_transform_2d(block: &mut [i64], n: u32, tx_type: u8, lossless: bool) -> Answer
    ensures { Driven (record { block = block.entry.now; n = n; tx_type = tx_type; lossless = lossless }) result block.exit.now }
{
    drive(block, n, tx_type, lossless)?;
    Ok(())
}

// The same, and how many rows were transformed: none under a refusal. It does not call `drive`: with one caller that is inlined, for speed.
pub fn inverse_transform_2d_rows(
    block: &mut [i64],
    n: u32,
    tx_type: u8,
    lossless: bool,
) -> Result<RowCount, Refusal>
    ensures { Rowed (record { block = block.entry.now; n = n; tx_type = tx_type; lossless = lossless }) (answered_by result) (counted_by result) block.exit.now }
{
    shape(block.len(), n, tx_type, lossless)?;
    fast::try_any(block, n, tx_type, lossless)
}
