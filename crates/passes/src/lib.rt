// Rows and columns by the fast engine. The size is a const parameter, so that its numbers are literals and the loops unroll; so is
// whether a block is lossless.
#![tactic(auto)]

ghost use Rattle.std.specs.Prelude.{◌≡◌, false, ◌^◌, ◌≤◌, length};
ghost use Rattle.answers.specs.Sizes.{area, side};
ghost use Rattle.blocks.specs.Block.{columns};
ghost use Rattle.blocks.specs.Inner.{FirstWithin, Possible};
ghost use Rattle.blocks.specs.Inverse.{apply, column_pass, rounding};
ghost use Rattle.row_pass.specs.Inner.{Made};

use row_pass::RowCount;

// All columns. COUNTED says whether the caller counts rows: each kind of caller has an instance of its own, which is inlined there; with one for
// both, a block of 4 by 4 is reconstructed in 1.7 of the time.
pub fn columns<const N: u32, const LOSSLESS: bool, const COUNTED: bool>(
    block: &mut [i64],
    tx_type: u8,
)
    requires { Possible N tx_type LOSSLESS × (area N ≤ length block.old) × FirstWithin (2 ^ 37) (area N) block.old }
    ensures { block.new ≡ columns (apply (column_pass tx_type LOSSLESS) N) (rounding N LOSSLESS) (side N) block.old }
{
    let n0 = answers::side(N);
    let transform = blocks::column_transform(tx_type, LOSSLESS);
    let mut t = [0i64; 32];
    for j in 0..n0 {
        blocks::load(&mut t, block, j, n0, n0);
        row_pass::line::<N, LOSSLESS>(&mut t, transform);
        blocks::store_column(block, &t, j, N, LOSSLESS);
    }
}

// Both passes of a block, whatever it holds: the rows by its summary, and how many they were.
pub fn by_summary<const N: u32, const LOSSLESS: bool>(block: &mut [i64], tx_type: u8) -> RowCount
    requires { Possible N tx_type LOSSLESS × (area N ≤ length block.old) × FirstWithin (2 ^ 31) (area N) block.old }
    ensures { Made N tx_type LOSSLESS block.old block.new result.number }
{
    let live = summary::scan(block, answers::side(N));
    let count = row_pass::rows::<N, LOSSLESS>(
        block,
        live,
        blocks::row_transform(tx_type, LOSSLESS),
    );
    columns::<N, LOSSLESS, true>(block, tx_type);
    count
}

// The same of a block of 8 by 8 or more that is not lossless, its size known when the program runs.
pub fn both_passes(block: &mut [i64], n: u32, tx_type: u8) -> RowCount
    requires { (3 ≤ n) × Possible n tx_type false × (area n ≤ length block.old) × FirstWithin (2 ^ 31) (area n) block.old }
    ensures { Made n tx_type false block.old block.new result.number }
{
    match n {
        3 => by_summary::<3, false>(block, tx_type),
        4 => by_summary::<4, false>(block, tx_type),
        _ => by_summary::<5, false>(block, tx_type),
    }
}
