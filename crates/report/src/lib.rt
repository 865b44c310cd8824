// Reconstruction with a report beside it: for each of the four sizes and each class of magnitudes how many tokens there were, and the
// sum of their magnitudes.
#![tactic(auto)]

ghost use Rattle.std.specs.Prelude.{◌≡◌, ◌||◌, ◌^◌, ◌<◌};
ghost use Rattle.answers.specs.Answers.{number};
ghost use Rattle.reconstruct.specs.Reconstruct.{answer_of};
ghost use Rattle.report.specs.Report.{total, bad_total, bad_sums, Reported};
ghost use Rattle.report.specs.Inner.{or_fifteen};

use answers::{Answer, Refusal};
use plane::Plane;
use quant::{AcQuant, DcQuant};

// The tokens of a block counted in their classes.
mod count;

// The greatest total of all counts.
pub const TOTAL_LIMIT: u64 = 4294967295;

// The greatest magnitude of a token, which is that of depth 12.
pub const TOKEN_LIMIT: u64 = 262210;

// The total of all counts.
fn total_of(counts: &[u32; 44]) -> u64
    ensures { (result ≡ total counts.now) × (result < 2 ^ 38) }
{
    let mut total = 0u64;
    for k in 0..44usize {
        total += u64::from(counts[k]);
    }
    total
}

// Whether `more` tokens take the total of all counts past its limit.
fn bad_total(counts: &[u32; 44], more: usize) -> bool
    ensures { result ≡ bad_total more counts.now }
{
    let n = more as u64;
    if TOTAL_LIMIT < n {
        return true;
    }
    TOTAL_LIMIT < total_of(counts) + n
}

// Whether a sum is above its count × 262,210.
fn bad_sums(counts: &[u32; 44], sums: &[u64; 44]) -> bool
    ensures { result ≡ bad_sums counts.now sums.now }
{
    let mut bad = false;
    for k in 0..44usize {
        if u64::from(counts[k]) * TOKEN_LIMIT < sums[k] {
            bad = true;
        }
    }
    bad
}

// Whether the report is such that no block of `more` tokens can be counted.
fn bad_report(counts: &[u32; 44], sums: &[u64; 44], more: usize) -> bool
    ensures { result ≡ bad_total more counts.now || bad_sums counts.now sums.now }
{
    if bad_total(counts, more) {
        return true;
    }
    bad_sums(counts, sums)
}

// The answer of a block whose report is refused. Beside the plane the block has the answer that it has anywhere, and writes nothing.
fn refused(
    samples: &mut [u16],
    plane: Plane,
    tx_sz: u32,
    tokens: &[i64],
    dc_quant: DcQuant,
    ac_quant: AcQuant,
    tx_type: u8,
    lossless: bool,
    bit_depth: u32,
) -> Answer
    ensures { (number result ≡ or_fifteen (answer_of (record { samples = samples.entry.now; plane = plane; x = 0; y = 0; size = tx_sz; tokens = tokens.now; dc = dc_quant; ac = ac_quant; tx_type = tx_type; lossless = lossless; depth = bit_depth }))) × (samples.exit.now ≡ samples.entry.now) }
{
    reconstruct::reconstruct_block(
        samples,
        plane,
        plane.width,
        0,
        tx_sz,
        tokens,
        dc_quant,
        ac_quant,
        tx_type,
        lossless,
        bit_depth,
    )?;
    Err(Refusal::Report)
}

// `reconstruct_block`, and every token of a block that is done counted in its size and class. Refused, nothing is changed.
pub fn reconstruct_block_report(
    samples: &mut [u16],
    plane: Plane,
    x: usize,
    y: usize,
    tx_sz: u32,
    tokens: &[i64],
    dc_quant: DcQuant,
    ac_quant: AcQuant,
    tx_type: u8,
    lossless: bool,
    bit_depth: u32,
    counts: &mut [u32; 44],
    sums: &mut [u64; 44],
) -> Answer
    ensures { Reported (record { block = record { samples = samples.entry.now; plane = plane; x = x; y = y; size = tx_sz; tokens = tokens.now; dc = dc_quant; ac = ac_quant; tx_type = tx_type; lossless = lossless; depth = bit_depth }; counts = counts.old; sums = sums.old }) result samples.exit.now counts.new sums.new }
{
    if bad_report(counts, sums, tokens.len()) {
        return refused(
            samples, plane, tx_sz, tokens, dc_quant, ac_quant, tx_type, lossless, bit_depth,
        );
    }
    let answer = reconstruct::reconstruct_block(
        samples, plane, x, y, tx_sz, tokens, dc_quant, ac_quant, tx_type, lossless, bit_depth,
    );
    answer?;
    count::count_tokens(counts, sums, tx_sz, tokens);
    Ok(())
}
