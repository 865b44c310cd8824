// Both passes of 4 by 4 by the fast engine, with a count of rows and without.
#![tactic(auto)]

ghost use Rattle.std.specs.Prelude.{◌≡◌, true, false, ◌^◌, ◌≤◌, length};
ghost use Rattle.blocks.specs.Block.{rows};
ghost use Rattle.blocks.specs.Inner.{FirstWithin};
ghost use Rattle.blocks.specs.Inverse.{apply, row_pass, inverse2d};
ghost use Rattle.row_pass.specs.Inner.{Made, MadeOrFilled};

use row_pass::RowCount;

// Rows, then columns, of a lossless block; the rows by the block's summary, and how many they were.
pub fn wht_by_summary(block: &mut [i64]) -> RowCount
    requires { (16 ≤ length block.old) × FirstWithin (2 ^ 31) 16 block.old }
    ensures { Made 2 0 true block.old block.new result.number }
{
    passes::by_summary::<2, true>(block, 0)
}

// All four rows with no test, the quickest where no number of rows is told: rows of a stream's blocks are live or not as it comes, and a test
// would often be guessed wrong.
fn all_rows<const LOSSLESS: bool>(block: &mut [i64], tx_type: u8)
    requires { (16 ≤ length block.old) × FirstWithin (2 ^ 31) 16 block.old }
    ensures { block.new ≡ rows (apply (row_pass tx_type LOSSLESS) 2) 4 block.old }
{
    let transform = blocks::row_transform(tx_type, LOSSLESS);
    let mut t = [0i64; 32];
    for i in 0..4usize {
        blocks::load(&mut t, block, i * 4, 1, 4);
        row_pass::line::<2, LOSSLESS>(&mut t, transform);
        blocks::store(block, &t, i * 4, 1, 4);
    }
}

// The residual, for reconstruction.
fn untested<const LOSSLESS: bool>(block: &mut [i64], tx_type: u8)
    requires { (16 ≤ length block.old) × FirstWithin (2 ^ 31) 16 block.old }
    ensures { block.new ≡ inverse2d 2 tx_type LOSSLESS block.old }
{
    all_rows::<LOSSLESS>(block, tx_type);
    passes::columns::<2, LOSSLESS, false>(block, tx_type);
}

// The residual of a lossless block, for reconstruction.
pub fn wht_passes(block: &mut [i64])
    requires { (16 ≤ length block.old) × FirstWithin (2 ^ 31) 16 block.old }
    ensures { block.new ≡ inverse2d 2 0 true block.old }
{
    untested::<true>(block, 0);
}

// The residual of a block that is not lossless, for reconstruction.
pub fn lossy_passes(block: &mut [i64], tx_type: u8)
    requires { (16 ≤ length block.old) × FirstWithin (2 ^ 31) 16 block.old }
    ensures { block.new ≡ inverse2d 2 tx_type false block.old }
{
    untested::<false>(block, tx_type);
}

// The residual of a block that is not lossless; where only place 0 is live and the type is 0, by one number and no row.
pub fn inverse4(block: &mut [i64], tx_type: u8) -> RowCount
    requires { (16 ≤ length block.old) × FirstWithin (2 ^ 31) 16 block.old }
    ensures { MadeOrFilled 2 tx_type block.old block.new result.number }
{
    if dc::only_dc(block, 16, tx_type) {
        dc::dc_fill(block, 2, 16);
        return row_pass::no_rows();
    }
    passes::by_summary::<2, false>(block, tx_type)
}
