// The residual of tokens by 16-bit lines, where no number on the way needs more.
#![tactic(auto)]

ghost use Rattle.std.specs.Prelude.{◌≡◌, ℕ, ◌+◌, ◌-◌, ◌*◌, ◌^◌, ◌<◌, ◌≤◌, true, false, length, replicate, pos, slice_index_or, slice_set, unsigned_abs};
ghost use Rattle.whole.specs.Lists.{fill};
ghost use Rattle.whole.specs.Inner.{times};
ghost use Rattle.answers.specs.Bad.{bad_quantizer};
ghost use Rattle.answers.specs.Sizes.{side, area};
ghost use Rattle.quant.specs.declared.DcQuant.{DcQuant};
ghost use Rattle.quant.specs.Places.{quantizer_at, dequant_all};
ghost use Rattle.quant.specs.Token.{dq_denom, dequant};
ghost use Rattle.blocks.specs.Inner.{Possible, dc_value};
ghost use Rattle.blocks.specs.Inverse.{inverse2d};
ghost use Rattle.narrow.specs.Tile.{raster};
ghost use Rattle.weights.specs.Inner.{total};
ghost use Rattle.narrow_lines.specs.Inner.{Dead};
ghost use Rattle.residual16.specs.Inner.{Weighed, Scanned, Short, tiled, Lent, Served};

use answers::{area, magnitude, side};
use quant::{AcQuant, DcQuant};

// The magnitudes of some numbers, or-ed together and added up; the sum wraps only where one of them is great.
#[derive(Clone, Copy)]
struct Weight {
    all: u64,
    sum: u64,
}

// Those of the n numbers from start on.
fn weigh_strip(numbers: &[i64], start: usize, n: usize) -> Weight
    requires { start + n ≤ length numbers.now }
    ensures { Weighed start n numbers.now result.all result.sum }
{
    let mut all = 0u64;
    let mut sum = 0u64;
    for k in 0..n {
        let m = magnitude(numbers[start + k]);
        all = all | m;
        sum = sum.wrapping_add(m);
    }
    Weight { all, sum }
}

// Those of a block of 8 by 8 or more, and how many strips of eight rows reach to the last that is live; at least one.
#[derive(Clone, Copy)]
struct Scan {
    weight: Weight,
    strips: usize,
}

// One scan: no other test of the numbers is needed.
fn weigh(tokens: &[i64], n: u32) -> Scan
    requires { (3 ≤ n) × (n ≤ 5) × (length tokens.now ≡ area n) }
    ensures { Scanned n tokens.now result.weight.all result.weight.sum result.strips }
{
    let n0 = side(n);
    let mut all = 0u64;
    let mut sum = 0u64;
    let mut strips = 1usize;
    for s in 0..n0 / 8 {
        let w = weigh_strip(tokens, 8 * n0 * s, 8 * n0);
        all = all | w.all;
        sum = sum.wrapping_add(w.sum);
        if w.all != 0 {
            strips = s + 1;
        }
    }
    Scan {
        weight: Weight { all, sum },
        strips,
    }
}

// The greatest sum of products: the coefficients, which at 32 by 32 are their halves, then add up to 31,883 at most.
fn most(size: u32) -> u64
    ensures { result ≡ 31883 * dq_denom size }
{
    match size {
        3 => 63766,
        _ => 31883,
    }
}

// Whether 16 bits are enough for tokens of these magnitudes, the first of them by itself.
fn enough(weight: Weight, first: u64, size: u32, dc_quant: DcQuant, ac_quant: AcQuant) -> bool
    requires { (bad_quantizer dc_quant.0 ≡ false) × (bad_quantizer ac_quant.0 ≡ false) × (weight.all ≤ 16383 → (first ≤ weight.sum) × (weight.sum ≤ 2 ^ 24)) }
    ensures { result ≡ true → (weight.all ≤ 16383) × (first * unsigned_abs dc_quant.0 + (weight.sum - first) * unsigned_abs ac_quant.0 ≤ 31883 * dq_denom size) }
{
    if 16383 < weight.all {
        return false;
    }
    let rest = weight.sum - first;
    quant::weight(dc_quant, first) + quant::weight(ac_quant, rest) <= most(size)
}

// The coefficients of eight tokens from `at` on, but for those before `from`.
fn eight(tokens: &[i64], at: usize, from: usize, ac_quant: AcQuant, size: u32) -> [i16; 8]
    requires { (at + 8 ≤ length tokens.now) × (from ≤ 8) × (bad_quantizer ac_quant.0 ≡ false) × ((j : ℕ) → from ≤ j → j < 8 → Short size ac_quant.0 (slice_index_or tokens.now (at + j) (pos 0))) }
    ensures { (length result ≡ 8) × ((j : ℕ) → from ≤ j → j < 8 → slice_index_or result j (pos 0) ≡ dequant size ac_quant.0 (slice_index_or tokens.now (at + j) (pos 0))) }
{
    let mut o = [0i16; 8];
    for j in from..8usize {
        o[j] = quant::dequant16(ac_quant, tokens[at + j], size);
    }
    o
}

// Those of the first eight: DC at place 0, AC at all others.
fn first_eight(tokens: &[i64], dc_quant: DcQuant, ac_quant: AcQuant, size: u32) -> [i16; 8]
    requires { (8 ≤ length tokens.now) × (bad_quantizer dc_quant.0 ≡ false) × (bad_quantizer ac_quant.0 ≡ false) × Short size dc_quant.0 (slice_index_or tokens.now 0 (pos 0)) × ((j : ℕ) → 1 ≤ j → j < 8 → Short size ac_quant.0 (slice_index_or tokens.now j (pos 0))) }
    ensures { (j : ℕ) → j < 8 → slice_index_or result j (pos 0) ≡ dequant size (quantizer_at dc_quant ac_quant j) (slice_index_or tokens.now j (pos 0)) }
{
    let mut o = eight(tokens, 0, 1, ac_quant, size);
    o[0] = quant::dequant16(dc_quant, tokens[0], size);
    o
}

// Eight numbers to the block; all are made before the first is written, so that they go side by side.
fn put(z: &mut [i16; 1024], at: usize, o: &[i16; 8])
    requires { at + 8 ≤ 1024 }
    ensures { z.new ≡ times 8 (λ j s. slice_set s (at + j) (slice_index_or o.now j (pos 0))) z.old }
{
    for j in 0..8usize {
        z[at + j] = o[j];
    }
}

// The coefficients of eight columns from 8 × q on, of the rows `from` to `rows`.
fn dequantize_strip(
    z: &mut [i16; 1024],
    tokens: &[i64],
    q: usize,
    from: usize,
    rows: usize,
    size: u32,
    ac_quant: AcQuant,
)
    requires le_size { (1 ≤ size) × (size ≤ 3) × (length tokens.now ≡ area (size + 2)) × (8 * q + 8 ≤ side (size + 2)) × (from ≤ rows) × (rows ≤ side (size + 2)) × (1 ≤ q + from) }
    requires ac_quant_value { (bad_quantizer ac_quant.0 ≡ false) × ((k : ℕ) → 1 ≤ k → k < length tokens.now → Short size ac_quant.0 (slice_index_or tokens.now k (pos 0))) }
    ensures { (dc : DcQuant) → z.old ≡ fill (8 * side (size + 2) * q + 8 * from) (tiled size dc ac_quant tokens.now) (replicate 1024 (pos 0)) → z.new ≡ fill (8 * side (size + 2) * q + 8 * rows) (tiled size dc ac_quant tokens.now) (replicate 1024 (pos 0)) }
{
    let n0 = side(size + 2);
    for i in from..rows {
        let o = eight(tokens, n0 * i + 8 * q, 0, ac_quant, size);
        put(z, 8 * n0 * q + 8 * i, &o);
    }
}

// The coefficients of the first `rows` rows, of which there is one at least, into a block of zeros; all other tokens are 0.
fn dequantize(
    z: &mut [i16; 1024],
    tokens: &[i64],
    rows: usize,
    size: u32,
    dc_quant: DcQuant,
    ac_quant: AcQuant,
)
    requires z_value { (z.old ≡ replicate 1024 (pos 0)) × (1 ≤ size) × (size ≤ 3) × (length tokens.now ≡ area (size + 2)) × (1 ≤ rows) × (rows ≤ side (size + 2)) × Dead (rows * side (size + 2)) tokens.now }
    requires dc_quant_value { (bad_quantizer dc_quant.0 ≡ false) × (bad_quantizer ac_quant.0 ≡ false) × ((k : ℕ) → k < length tokens.now → Short size (quantizer_at dc_quant ac_quant k) (slice_index_or tokens.now k (pos 0))) }
    ensures { (length z.new ≡ 1024) × (raster (side (size + 2)) z.new ≡ dequant_all size dc_quant ac_quant tokens.now) }
{
    let o = first_eight(tokens, dc_quant, ac_quant, size);
    put(z, 0, &o);
    dequantize_strip(z, tokens, 0, 1, rows, size, ac_quant);
    for q in 1..side(size + 2) / 8 {
        dequantize_strip(z, tokens, q, 0, rows, size, ac_quant);
    }
}

// One number at the first `count` places; a loop, as the library's `fill` clones place by place.
fn flat(z: &mut [i16; 1024], count: usize, v: i16)
    requires { count ≤ 1024 }
    ensures { z.new ≡ fill count (λ k. v) z.old }
{
    for k in 0..count {
        z[k] = v;
    }
}

// The residual of the coefficient at place 0 alone, of type 0.
fn residual_dc(z: &mut [i16; 1024], n: u32)
    requires { (3 ≤ n) × (n ≤ 5) }
    ensures { z.new ≡ fill (area n) (λ k. dc_value n (slice_index_or z.old 0 (pos 0))) z.old }
{
    let x = z[0];
    let v = dc::dc_value(x as i64, n);
    flat(z, area(n), v as i16);
}

// The residual of coefficients that add up to little, the rows past `strips` strips of eight being zeros.
fn passes(z: &mut [i16; 1024], n: u32, tx_type: u8, strips: usize)
    requires { (3 ≤ n) × Possible n tx_type false × (length z.old ≡ 1024) × (total (area n) (raster (side n) z.old) ≤ 31883) × (8 * strips ≤ side n) × Dead (8 * strips * side n) (raster (side n) z.old) }
    ensures { raster (side n) z.new ≡ inverse2d n tx_type false (raster (side n) z.old) }
{
    narrow_lines::rows(z, n, blocks::row_dct(tx_type), strips);
    narrow_lines::columns(z, n, blocks::column_dct(tx_type));
    narrow_lines::round(z, n);
}

// The residual of a block's tokens into a block of zeros; false where 16 bits may be too few, and then nothing is told of the block.
pub fn residual(
    z: &mut [i16; 1024],
    tokens: &[i64],
    size: u32,
    dc_quant: DcQuant,
    ac_quant: AcQuant,
    tx_type: u8,
) -> bool
    requires { (z.old ≡ replicate 1024 (pos 0)) × Lent size dc_quant ac_quant tx_type tokens.now }
    ensures { result ≡ true → Served size dc_quant ac_quant tx_type tokens.now z.new }
{
    let scan = weigh(tokens, size + 2);
    let first = magnitude(tokens[0]);
    if !enough(scan.weight, first, size, dc_quant, ac_quant) {
        return false;
    }
    if scan.weight.sum == first && tx_type == 0 {
        z[0] = quant::dequant16(dc_quant, tokens[0], size);
        residual_dc(z, size + 2);
        return true;
    }
    dequantize(z, tokens, 8 * scan.strips, size, dc_quant, ac_quant);
    passes(z, size + 2, tx_type, scan.strips);
    true
}
