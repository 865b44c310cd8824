#![tactic(auto)]

ghost use Rattle.std.specs.Prelude.{false, ◌≡◌, ℕ, ◌+◌, ◌*◌, ◌^◌, ◌≤◌, ◌<◌, pos, nat_abs, length, get_or};
ghost use Rattle.answers.specs.Answers.{number};
ghost use Rattle.answers.specs.Bad.{bad_quantizer};
ghost use Rattle.answers.specs.Limits.{codeable};
ghost use Rattle.blocks.specs.Block.{line, rows, columns};
ghost use Rattle.blocks.specs.Inner.{change_line, FirstWithin};
ghost use Rattle.steps.specs.Inner.{FourWithin};
ghost use Rattle.wht.specs.Wht.{wht};
ghost use Rattle.quant.specs.Places.{quantizer_at};
ghost use Rattle.quant.specs.Token.{quantize};
ghost use Rattle.fwd_transform.specs.ForwardWht.{Forwarded, wht_answer};
ghost use Rattle.fwd_transform.specs.Quantize.{Quantized, Ruled, answer_of, bad_rule, tokens_of};

use answers::{
    Answer, COEF_LIMIT, LIST_LIMIT, Refusal, WHT_LIMIT, any_beyond, bad_depth, bad_size, retired,
};
use blocks::{load, store};
use quant::{AcQuant, DcQuant, bad_quantizers, max_codeable_coef, quantize};
use wht::inverse_wht;

// The answer to the whole block, before anything is written.
fn check_wht(block: &[i64]) -> Answer
    ensures { number result ≡ wht_answer block.now }
{
    let n = block.len();
    if n != 16 {
        return Err(Refusal::Length);
    }
    if any_beyond(block, n, WHT_LIMIT) {
        return Err(Refusal::Coefficient);
    }
    Ok(())
}

// The WHT of the four numbers at start, start + step, ..
fn wht_line(block: &mut [i64], start: usize, step: usize)
    requires { ((k : ℕ) → k < 4 → start + k * step < length block.old) × FourWithin (2 ^ 46) (line start step 4 block.old) }
    ensures { block.new ≡ change_line (wht 0) (λ z. z) start step 4 block.old }
{
    let mut t = [0i64; 32];
    load(&mut t, block, start, step, 4);
    inverse_wht(&mut t, 0);
    store(block, &t, start, step, 4);
}

// All columns: the column pass of the inverse undoes itself.
fn wht_columns(block: &mut [i64])
    requires { (length block.old ≡ 16) × FirstWithin (2 ^ 23) 16 block.old }
    ensures { block.new ≡ columns (wht 0) (λ z. z) 4 block.old }
{
    for j in 0..4 {
        wht_line(block, j, 4);
    }
}

// All rows: the row pass of the inverse first shifts four times the tokens by 2, so these are the tokens.
fn wht_rows(block: &mut [i64])
    requires { (length block.old ≡ 16) × FirstWithin (2 ^ 24) 16 block.old }
    ensures { block.new ≡ rows (wht 0) 4 block.old }
{
    for i in 0..4 {
        wht_line(block, i * 4, 1);
    }
}

// The tokens of a 4 by 4 block of differences, for lossless coding.
pub fn forward_wht_2d(block: &mut [i64]) -> Answer
    ensures { Forwarded block.old result block.new }
{
    check_wht(block)?;
    wht_columns(block);
    wht_rows(block);
    Ok(())
}

// The rule is not 1 or 2.
fn bad_rule(rule: u32) -> bool
    ensures { result ≡ bad_rule rule }
{
    if rule < 1 {
        return true;
    }
    2 < rule
}

// The answer to the whole input, before anything is written.
fn check(coefs: &[i64], dc: DcQuant, ac: AcQuant, size: u32, depth: u32) -> Answer
    ensures { number result ≡ answer_of (record { coefs = coefs.entry.now; dc = dc; ac = ac; size = size; depth = depth }) }
{
    if bad_depth(depth) {
        return Err(Refusal::Depth);
    }
    if retired(depth) {
        return Err(Refusal::Retired);
    }
    if bad_size(size) {
        return Err(Refusal::Size);
    }
    if bad_quantizers(dc, ac) {
        return Err(Refusal::Quantizer);
    }
    let n = coefs.len();
    if LIST_LIMIT < n {
        return Err(Refusal::Length);
    }
    if any_beyond(coefs, n, COEF_LIMIT) {
        return Err(Refusal::Coefficient);
    }
    Ok(())
}

// The token of the coefficient at place k: DC at place 0, AC at all others.
fn token_at(k: usize, coef: i64, dc: DcQuant, ac: AcQuant, size: u32, most: u64, rule: u32) -> i64
    requires { (bad_quantizer dc.0 ≡ false) × (bad_quantizer ac.0 ≡ false) × (nat_abs coef ≤ 2 ^ 31) × (most ≤ codeable 12) }
    ensures { result ≡ quantize rule size most (quantizer_at dc ac k) coef }
{
    if k == 0 {
        return quantize(dc, coef, size, most, rule);
    }
    quantize(ac, coef, size, most, rule)
}

// Each coefficient becomes its token.
fn tokens_in_place(coefs: &mut [i64], dc: DcQuant, ac: AcQuant, size: u32, depth: u32, rule: u32)
    requires { (bad_quantizer dc.0 ≡ false) × (bad_quantizer ac.0 ≡ false) × ((k : ℕ) → k < length coefs.old → nat_abs (get_or coefs.old k (pos 0)) ≤ 2 ^ 31) }
    ensures { coefs.exit.now ≡ tokens_of rule (record { coefs = coefs.entry.now; dc = dc; ac = ac; size = size; depth = depth }) }
{
    let most = max_codeable_coef(depth) as u64;
    for k in 0..coefs.len() {
        let coef = coefs[k];
        coefs[k] = token_at(k, coef, dc, ac, size, most, rule);
    }
}

// Coefficients to tokens by one of the two rules, at any size, at depths 8 and 10.
pub fn quantize_block_rule(
    coefs: &mut [i64],
    dc: DcQuant,
    ac: AcQuant,
    size: u32,
    depth: u32,
    rule: u32,
) -> Answer
    ensures { Ruled rule (record { coefs = coefs.entry.now; dc = dc; ac = ac; size = size; depth = depth }) result coefs.exit.now }
{
    if bad_rule(rule) {
        return Err(Refusal::Rule);
    }
    check(coefs, dc, ac, size, depth)?;
    tokens_in_place(coefs, dc, ac, size, depth, rule);
    Ok(())
}

// Coefficients to tokens by rule 1, at any size, at depths 8 and 10.
pub fn quantize_block_tx(
    coefs: &mut [i64],
    dc: DcQuant,
    ac: AcQuant,
    size: u32,
    depth: u32,
) -> Answer
    ensures { Quantized (record { coefs = coefs.entry.now; dc = dc; ac = ac; size = size; depth = depth }) result coefs.exit.now }
{
    quantize_block_rule(coefs, dc, ac, size, depth, 1)
}

// Coefficients to tokens by rule 1, at size 0 and depth 8.
pub fn quantize_block(coefs: &mut [i64], dc: DcQuant, ac: AcQuant) -> Answer
    ensures { Quantized (record { coefs = coefs.entry.now; dc = dc; ac = ac; size = 0; depth = 8 }) result coefs.exit.now }
{
    quantize_block_tx(coefs, dc, ac, 0, 8)
}
