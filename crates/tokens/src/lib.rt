// The checks of a reconstruction, and its tokens made coefficients.
#![tactic(auto)]

ghost use Rattle.std.specs.Prelude.{true, false, cond, ◌≡◌, ℕ, ◌+◌, ◌-◌, ◌*◌, ◌≤◌, ◌<◌, eqb, pos, nat_abs, length, get_or};
ghost use Rattle.whole.specs.Lists.{fill};
ghost use Rattle.answers.specs.Answers.{number};
ghost use Rattle.answers.specs.Bad.{bad_depth, bad_quantizer};
ghost use Rattle.answers.specs.Limits.{COEF_LIMIT, codeable};
ghost use Rattle.quant.specs.Places.{quantizer_at};
ghost use Rattle.quant.specs.Token.{dq_denom, dequant};
ghost use Rattle.tokens.specs.Inner.{Bounds, SmallTokens, any_above, shape_of, token_answer};
ghost use Rattle.tokens.specs.Tokens.{bad_quantizers, bad_plane};

use answers::{
    Answer, COEF_LIMIT, Refusal, SIDE_LIMIT, any_beyond, area, bad_depth, bad_lossless, bad_size,
    bad_tx_type, magnitude,
};
use plane::Plane;
use quant::{AcQuant, DcQuant, Quantizer, bad_quantizers, dequant_at, max_codeable_coef};

// How the tokens of a block are coded, as a call has it.
#[derive(Clone, Copy)]
pub struct Coding {
    pub size: u32,
    pub dc_quant: DcQuant,
    pub ac_quant: AcQuant,
    pub tx_type: u8,
    pub lossless: bool,
    pub depth: u32,
}

// A stride below the width, a stride or a side above its limit, or samples not exactly stride × height. A width above the limit is one of the first two.
fn bad_plane(samples: usize, plane: Plane) -> bool
    ensures { result ≡ bad_plane samples plane }
{
    let width = plane.width;
    let height = plane.height;
    let stride = plane.stride;
    if stride < width {
        return true;
    }
    if SIDE_LIMIT < stride {
        return true;
    }
    if SIDE_LIMIT < height {
        return true;
    }
    samples != stride * height
}

// The answer as far as it needs no token and no sample.
pub fn check(samples: usize, plane: Plane, tokens: usize, coding: Coding) -> Answer
    ensures { number result ≡ shape_of samples plane coding.size tokens coding.dc_quant coding.ac_quant coding.tx_type coding.lossless coding.depth }
{
    if bad_depth(coding.depth) {
        return Err(Refusal::Depth);
    }
    if bad_size(coding.size) {
        return Err(Refusal::Size);
    }
    if bad_lossless(coding.lossless, coding.size) {
        return Err(Refusal::LosslessSize);
    }
    if bad_tx_type(coding.lossless, coding.size, coding.tx_type) {
        return Err(Refusal::TxType);
    }
    if bad_quantizers(coding.dc_quant, coding.ac_quant) {
        return Err(Refusal::Quantizer);
    }
    if tokens != area(coding.size + 2) {
        return Err(Refusal::Length);
    }
    if bad_plane(samples, plane) {
        return Err(Refusal::Plane);
    }
    Ok(())
}

// The greatest magnitude of a token at place 0, and of one at any other place: two types, so that neither stands for the other.
#[derive(Clone, Copy)]
struct DcBound(u64);

#[derive(Clone, Copy)]
struct AcBound(u64);

// The greatest product of token and quantizer whose coefficient is within its limit.
fn largest_product(size: u32) -> u64
    ensures { result ≡ COEF_LIMIT * dq_denom size + (dq_denom size - 1) }
{
    if size == 3 {
        return 2 * COEF_LIMIT + 1;
    }
    COEF_LIMIT
}

// At most `most`, and its coefficient within its limit.
fn largest_token<Q: Quantizer>(quantizer: Q, size: u32, most: u64) -> u64
    requires { bad_quantizer (Q.number quantizer) ≡ false }
    ensures { Bounds size (Q.number quantizer) most result }
{
    let q = quantizer.number();
    most.min(largest_product(size) / (q as u64))
}

// The bound of place k.
fn bound_at(k: usize, dc: DcBound, ac: AcBound) -> u64
    ensures { result ≡ cond (eqb k 0) dc.0 ac.0 }
{
    if k == 0 {
        return dc.0;
    }
    ac.0
}

// Whether some of the first `count` tokens is above its bound; a count and no early return, for speed.
fn some_above(tokens: &[i64], count: usize, dc: DcBound, ac: AcBound) -> bool
    requires { count ≤ length tokens.now }
    ensures { result ≡ any_above dc ac count tokens.now }
{
    let mut above = 0usize;
    for k in 0..count {
        if bound_at(k, dc, ac) < magnitude(tokens[k]) {
            above += 1;
        }
    }
    above != 0
}

// No token is beyond 16,384: it is codeable at every depth, and no quantizer takes it to the coefficients' limit. Quick, and enough for
// almost every block; of sixteen by a literal count, for speed.
fn all_small(tokens: &[i64]) -> bool
    ensures { result ≡ true → SmallTokens tokens.now }
{
    let count = tokens.len();
    if count == 16 {
        return blocks::or_plus_most(tokens, 0, 16, 16384) < 32768;
    }
    blocks::or_plus_most(tokens, 0, count, 16384) < 32768
}

// The answer of the tokens: an 8 anywhere before any 9.
pub fn check_tokens(tokens: &[i64], coding: Coding) -> Answer
    requires { (bad_depth coding.depth ≡ false) × (bad_quantizers coding.dc_quant coding.ac_quant ≡ false) }
    ensures { number result ≡ token_answer coding.size coding.dc_quant coding.ac_quant coding.depth tokens.now }
{
    if all_small(tokens) {
        return Ok(());
    }
    let most = max_codeable_coef(coding.depth) as u64;
    if some_above(
        tokens,
        tokens.len(),
        DcBound(largest_token(coding.dc_quant, coding.size, most)),
        AcBound(largest_token(coding.ac_quant, coding.size, most)),
    ) {
        if any_beyond(tokens, tokens.len(), most) {
            return Err(Refusal::Token);
        }
        return Err(Refusal::Coefficient);
    }
    Ok(())
}

// The coefficients of the first `count` tokens into the front of the block.
pub fn dequantize(block: &mut [i64; 1024], tokens: &[i64], count: usize, coding: Coding)
    requires { (count ≤ 1024) × (count ≤ length tokens.now) × ((k : ℕ) → k < count → nat_abs (get_or tokens.now k (pos 0)) ≤ codeable 12) × (bad_quantizers coding.dc_quant coding.ac_quant ≡ false) }
    ensures { block.new ≡ fill count (λ k. dequant coding.size (quantizer_at coding.dc_quant coding.ac_quant k) (get_or tokens.now k (pos 0))) block.old }
{
    for k in 0..count {
        let token = tokens[k];
        block[k] = dequant_at(k, coding.dc_quant, coding.ac_quant, token, coding.size);
    }
}
