// A line of a block through its transform, and the rows that a summary names, counted where they are transformed.
// The size is a const parameter, so that its numbers are literals and the loops unroll. Whether a pass is lossless is one too, and leaves in each
// function the transforms that it can meet: with all three in one, 4 by 4 took twice as long.
#![tactic(auto)]

ghost use Rattle.std.specs.Prelude.{◌≡◌, ◌+◌, ◌^◌, ◌≤◌, ◌<◌, length};
ghost use Rattle.answers.specs.Sizes.{side, area};
ghost use Rattle.blocks.specs.Block.{row, change_row};
ghost use Rattle.blocks.specs.Inner.{FirstWithin, Valid, Sized, Safe};
ghost use Rattle.blocks.specs.Inverse.{apply};
ghost use Rattle.blocks.specs.Kind.{pass_of, is_wht};
ghost use Rattle.row_pass.specs.Inner.{Clear, Passed};

use blocks::Transform;

// How many rows were transformed. Its field is private: outside this crate a count comes from a row pass, or is that of no rows.
#[derive(Clone, Copy)]
pub struct RowCount {
    number: u32,
}

impl RowCount {
    pub fn number(self) -> u32
        ensures { result ≡ self.number }
    {
        self.number
    }
}

// The count of a block whose rows are not transformed one by one.
pub fn no_rows() -> RowCount
    ensures { result.number ≡ 0 }
{
    RowCount { number: 0 }
}

// A line of 2^N numbers through its transform.
pub fn line<const N: u32, const LOSSLESS: bool>(t: &mut [i64; 32], transform: Transform)
    requires { (is_wht (pass_of transform) ≡ LOSSLESS) × Sized (pass_of transform) N × Safe (pass_of transform) N t.old }
    ensures { t.new ≡ apply (pass_of transform) N t.old }
{
    match transform {
        Transform::Dct => {
            if !LOSSLESS {
                flat_dct::idct_fast::<N>(t);
            }
        }
        Transform::Adst => {
            if !LOSSLESS {
                flat_adst::iadst_fast::<N>(t);
            }
        }
        Transform::Wht(shift) => {
            if LOSSLESS {
                wht::inverse_wht(t, shift);
            }
        }
    }
}

// Row i through its transform, and one more counted: nothing else adds to a count.
fn row<const N: u32, const LOSSLESS: bool>(
    block: &mut [i64],
    t: &mut [i64; 32],
    i: usize,
    transform: Transform,
    count: u32,
) -> u32
    requires { (2 ≤ N) × (N ≤ 5) × Valid 2 (pass_of transform) N × (i < side N) × (area N ≤ length block.old) × Safe (pass_of transform) N (row (side N) i block.old) × Clear (side N) t.old × (count < side N) × (is_wht (pass_of transform) ≡ LOSSLESS) }
    ensures { (block.new ≡ change_row (apply (pass_of transform) N) (side N) i block.old) × Clear (side N) t.new × (result ≡ count + 1) }
{
    let n0 = answers::side(N);
    blocks::load(t, block, i * n0, 1, n0);
    line::<N, LOSSLESS>(t, transform);
    blocks::store(block, t, i * n0, 1, n0);
    count + 1
}

// The rows whose bit is set, and no other, whatever the summary is of, through their transform; and how many they were.
pub fn rows<const N: u32, const LOSSLESS: bool>(
    block: &mut [i64],
    summary: u32,
    transform: Transform,
) -> RowCount
    requires { (2 ≤ N) × (N ≤ 5) × Valid 2 (pass_of transform) N × (area N ≤ length block.old) × FirstWithin (2 ^ 31) (area N) block.old × (is_wht (pass_of transform) ≡ LOSSLESS) }
    ensures { Passed (pass_of transform) N summary block.old block.new result.number }
{
    let n0 = answers::side(N);
    let mut t = [0i64; 32];
    let mut count = 0u32;
    for i in 0..n0 {
        if summary::is_set(summary, i) {
            count = row::<N, LOSSLESS>(block, &mut t, i, transform, count);
        }
    }
    RowCount { number: count }
}
