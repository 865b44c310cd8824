// Rows and columns by the recursive transforms, as the specification goes. Whether a pass is lossless is a const parameter, which leaves in each
// function the transforms that it can meet: with all three in one, 4 by 4 took up to 1.9 of the time.
#![tactic(auto)]

ghost use Rattle.std.specs.Prelude.{◌≡◌, ◌*◌, ◌^◌, ◌≤◌, length};
ghost use Rattle.answers.specs.Sizes.{area, side};
ghost use Rattle.blocks.specs.Block.{rows, columns};
ghost use Rattle.blocks.specs.Inner.{FirstWithin, Possible, Sized, Safe};
ghost use Rattle.blocks.specs.Inverse.{Dct, apply, row_pass, column_pass, rounding};
ghost use Rattle.blocks.specs.Kind.{pass_of, is_wht};

use blocks::Transform;

// DCT of 2^n numbers; a function by itself, because the arrays of an arm of a match are cleared whichever arm is taken.
fn dct_line(t: &mut [i64; 32], n: u32)
    requires { Sized Dct n × Safe Dct n t.old }
    ensures { t.new ≡ apply Dct n t.old }
{
    dct::idct_permute(t, n);
    let r = dct::inverse_dct(*t, n);
    *t = r;
}

// The transform of one line of 2^n numbers.
fn apply_1d<const LOSSLESS: bool>(t: &mut [i64; 32], n: u32, transform: Transform)
    requires { (is_wht (pass_of transform) ≡ LOSSLESS) × Sized (pass_of transform) n × Safe (pass_of transform) n t.old }
    ensures { t.new ≡ apply (pass_of transform) n t.old }
{
    match transform {
        Transform::Dct => {
            if !LOSSLESS {
                dct_line(t, n);
            }
        }
        Transform::Adst => {
            if !LOSSLESS {
                adst::inverse_adst(t, n);
            }
        }
        Transform::Wht(shift) => {
            if LOSSLESS {
                wht::inverse_wht(t, shift);
            }
        }
    }
}

// All rows, the kind of the pass known.
fn known_rows<const LOSSLESS: bool>(block: &mut [i64], n: u32, tx_type: u8)
    requires { Possible n tx_type LOSSLESS × (area n ≤ length block.old) × FirstWithin (2 ^ 31) (area n) block.old }
    ensures { block.new ≡ rows (apply (row_pass tx_type LOSSLESS) n) (side n) block.old }
{
    let n0 = answers::side(n);
    let transform = blocks::row_transform(tx_type, LOSSLESS);
    let mut t = [0i64; 32];
    for i in 0..n0 {
        blocks::load(&mut t, block, i * n0, 1, n0);
        apply_1d::<LOSSLESS>(&mut t, n, transform);
        blocks::store(block, &t, i * n0, 1, n0);
    }
}

// All rows.
pub fn rows(block: &mut [i64], n: u32, tx_type: u8, lossless: bool)
    requires { Possible n tx_type lossless × (area n ≤ length block.old) × FirstWithin (2 ^ 31) (area n) block.old }
    ensures { block.new ≡ rows (apply (row_pass tx_type lossless) n) (side n) block.old }
{
    if lossless {
        known_rows::<true>(block, n, tx_type);
    } else {
        known_rows::<false>(block, n, tx_type);
    }
}

// All columns, the kind of the pass known.
fn known_columns<const LOSSLESS: bool>(block: &mut [i64], n: u32, tx_type: u8)
    requires { Possible n tx_type LOSSLESS × (area n ≤ length block.old) × FirstWithin (2 ^ 37) (area n) block.old }
    ensures { block.new ≡ columns (apply (column_pass tx_type LOSSLESS) n) (rounding n LOSSLESS) (side n) block.old }
{
    let n0 = answers::side(n);
    let transform = blocks::column_transform(tx_type, LOSSLESS);
    let mut t = [0i64; 32];
    for j in 0..n0 {
        blocks::load(&mut t, block, j, n0, n0);
        apply_1d::<LOSSLESS>(&mut t, n, transform);
        blocks::store_column(block, &t, j, n, LOSSLESS);
    }
}

// All columns.
pub fn columns(block: &mut [i64], n: u32, tx_type: u8, lossless: bool)
    requires { Possible n tx_type lossless × (area n ≤ length block.old) × FirstWithin (2 ^ 37) (area n) block.old }
    ensures { block.new ≡ columns (apply (column_pass tx_type lossless) n) (rounding n lossless) (side n) block.old }
{
    if lossless {
        known_columns::<true>(block, n, tx_type);
    } else {
        known_columns::<false>(block, n, tx_type);
    }
}
