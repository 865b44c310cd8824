#![tactic(auto)]

ghost use Rattle.std.specs.Prelude.{◌≡◌, false, ◌||◌, ◌+◌, ◌*◌, ◌≤◌, ◌<◌, ltb, nat_abs, length};
ghost use Rattle.answers.specs.Answers.{number};
ghost use Rattle.answers.specs.Bad.{bad_quantizer};
ghost use Rattle.answers.specs.Limits.{COEF_LIMIT, codeable};
ghost use Rattle.blocks.specs.Block.{live};
ghost use Rattle.quant.specs.Places.{quantizer_at};
ghost use Rattle.quant.specs.Token.{dequant};
ghost use Rattle.summary.specs.Summary.{is_set, set_rows, summary_of, first_of, last_of, summarized};
ghost use Rattle.summary.specs.Replace.{answer_of, with_bit, renewed, Replaced};

use answers::{Answer, Refusal};
use quant::{AcQuant, DcQuant};

// Whether some of n numbers from `start` on, a long row, is not 0: the first two are asked by themselves, because a live row mostly begins with
// one of them. The first alone would be a branch that goes either way in a sparse block.
fn long_live(block: &[i64], start: usize, n: usize) -> bool
    requires { (8 ≤ n) × (start + n ≤ length block.now) }
    ensures { result ≡ live start n block.now }
{
    if blocks::any_live(block, start, 2) {
        return true;
    }
    blocks::any_live_first(block, start + 2, n - 2)
}

// Whether row i has a number that is not 0; a short row by a flag, for speed.
fn row_live(block: &[i64], i: usize, n0: usize) -> bool
    requires { (1 ≤ n0) × (n0 ≤ 32) × (i < n0) × (n0 * n0 ≤ length block.now) }
    ensures { result ≡ live (i * n0) n0 block.now }
{
    if n0 < 8 {
        return blocks::any_live(block, i * n0, n0);
    }
    long_live(block, i * n0, n0)
}

// The summary of a block, row by row.
pub fn scan(block: &[i64], n0: usize) -> u32
    requires { (1 ≤ n0) × (n0 ≤ 32) × (n0 * n0 ≤ length block.now) }
    ensures { result ≡ summary_of n0 block.now }
{
    let mut summary = 0u32;
    for i in 0..n0 {
        if row_live(block, i, n0) {
            summary += 1u32 << i;
        }
    }
    summary
}

// The summary of the block of n0 by n0 numbers at the front of the list: bit i is set where row i has a number that is not 0.
pub fn row_summary(block: &[i64], n: u32) -> Result<u32, Refusal>
    ensures { result ≡ summarized n block.now }
{
    if answers::bad_side(n) {
        return Err(Refusal::Size);
    }
    if block.len() < answers::area(n) {
        return Err(Refusal::Length);
    }
    Ok(scan(block, answers::side(n)))
}

// How many rows.
pub fn row_count(summary: u32) -> u32
    ensures { result ≡ length (set_rows summary) }
{
    summary.count_ones()
}

// The first row of a summary; an empty one has none.
pub fn first_row(summary: u32) -> Option<u32>
    ensures { result ≡ first_of (set_rows summary) }
{
    if summary == 0 {
        return None;
    }
    Some(summary.trailing_zeros())
}

// The last row.
pub fn last_row(summary: u32) -> Option<u32>
    ensures { result ≡ last_of (set_rows summary) }
{
    if summary == 0 {
        return None;
    }
    Some(31 - summary.leading_zeros())
}

// Whether bit i is set.
pub fn is_set(summary: u32, i: usize) -> bool
    requires { i < 32 }
    ensures { result ≡ is_set summary i }
{
    (summary >> i) % 2 == 1
}

// Bit i as told, all others as they are.
fn with_bit(summary: u32, i: usize, bit: bool) -> u32
    requires { i < 32 }
    ensures { result ≡ with_bit summary i bit }
{
    if bit {
        return summary | (1u32 << i);
    }
    summary & !(1u32 << i)
}

// The bit of the place's row worked out again, on the block as it is now.
fn renewed(block: &[i64], n0: usize, place: usize, summary: u32) -> u32
    requires { (1 ≤ n0) × (n0 ≤ 32) × (place < n0 * n0) × (n0 * n0 ≤ length block.now) }
    ensures { result ≡ renewed n0 place block.now summary }
{
    let row = place / n0;
    with_bit(summary, row, blocks::any_live(block, row * n0, n0))
}

// The coefficient of a token under the quantizer of its place.
fn coefficient(place: usize, token: i64, size: u32, dc_quant: DcQuant, ac_quant: AcQuant) -> i64
    requires { (bad_quantizer dc_quant.0 || bad_quantizer ac_quant.0 ≡ false) × (nat_abs token ≤ codeable 12) }
    ensures { result ≡ dequant size (quantizer_at dc_quant ac_quant place) token }
{
    quant::dequant_at(place, dc_quant, ac_quant, token, size)
}

// A token's magnitude above the depth's limit.
fn bad_token(token: i64, bit_depth: u32) -> bool
    ensures { result ≡ ltb (codeable bit_depth) (nat_abs token) }
{
    let most = quant::max_codeable_coef(bit_depth) as u64;
    most < answers::magnitude(token)
}

// Its coefficient beyond the limit.
fn bad_coefficient(
    place: usize,
    token: i64,
    size: u32,
    dc_quant: DcQuant,
    ac_quant: AcQuant,
) -> bool
    requires { (bad_quantizer dc_quant.0 || bad_quantizer ac_quant.0 ≡ false) × (nat_abs token ≤ codeable 12) }
    ensures { result ≡ ltb COEF_LIMIT (nat_abs (dequant size (quantizer_at dc_quant ac_quant place) token)) }
{
    let coef = coefficient(place, token, size, dc_quant, ac_quant);
    answers::COEF_LIMIT < answers::magnitude(coef)
}

// The answer of a replacement; the summary has no part in it.
fn check(
    block: &[i64],
    tx_sz: u32,
    place: usize,
    token: i64,
    dc_quant: DcQuant,
    ac_quant: AcQuant,
    bit_depth: u32,
) -> Answer
    ensures { number result ≡ answer_of (record { block = block.entry.now; summary = 0; size = tx_sz; place = place; token = token; dc = dc_quant; ac = ac_quant; depth = bit_depth }) }
{
    if answers::bad_depth(bit_depth) {
        return Err(Refusal::Depth);
    }
    if answers::bad_size(tx_sz) {
        return Err(Refusal::Size);
    }
    if quant::bad_quantizers(dc_quant, ac_quant) {
        return Err(Refusal::Quantizer);
    }
    let count = answers::area(tx_sz + 2);
    if block.len() != count {
        return Err(Refusal::Length);
    }
    if count <= place {
        return Err(Refusal::Place);
    }
    if bad_token(token, bit_depth) {
        return Err(Refusal::Token);
    }
    if bad_coefficient(place, token, tx_sz, dc_quant, ac_quant) {
        return Err(Refusal::Coefficient);
    }
    Ok(())
}

// The coefficient of the new token to its place, and the bit of its row worked out again.
pub fn replace_token(
    block: &mut [i64],
    summary: &mut u32,
    tx_sz: u32,
    place: usize,
    token: i64,
    dc_quant: DcQuant,
    ac_quant: AcQuant,
    bit_depth: u32,
) -> Answer
    ensures { Replaced (record { block = block.entry.now; summary = summary.old; size = tx_sz; place = place; token = token; dc = dc_quant; ac = ac_quant; depth = bit_depth }) result block.exit.now summary.new }
{
    check(block, tx_sz, place, token, dc_quant, ac_quant, bit_depth)?;
    let coef = coefficient(place, token, tx_sz, dc_quant, ac_quant);
    block[place] = coef;
    *summary = renewed(block, answers::side(tx_sz + 2), place, *summary);
    Ok(())
}
