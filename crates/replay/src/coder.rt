// Kinds 23 to 26, 36 and 39: forward WHT and quantizers.
ghost use Rattle.std.specs.Prelude.{true, false, ◌≡◌, ◌^◌, ◌≤◌, nat_abs};
ghost use Rattle.answers.specs.Bad.{bad_quantizer};
ghost use Rattle.answers.specs.Limits.{codeable};

use crate::verdict::{Stop, answered};
use answers::magnitude;
use lines::Line;
use quant::{AcQuant, DcQuant};

// 2^31: what one number's quantizer takes.
const COEF: u64 = 2147483648;

// The greatest limit of a token, that of depth 12.
const MOST: u64 = 262210;

// Kind 23: the block.
pub fn forward_wht_2d(line: &mut Line, numbers: &mut [i64]) -> Result<(), Stop> {
    let lent = *line;
    let count = line.list(numbers)?;
    let block = &mut numbers[..count];
    let answer = fwd_transform::forward_wht_2d(block);
    answered(line, answer, lent, block)
}

// Kind 24: the two quantizers, size, depth and the coefficients.
pub fn quantize_block_tx(line: &mut Line, numbers: &mut [i64]) -> Result<(), Stop> {
    let dc = DcQuant(line.integer()?);
    let ac = AcQuant(line.integer()?);
    let size = line.integer()?;
    let depth = line.integer()?;
    let lent = *line;
    let count = line.list(numbers)?;
    let coefs = &mut numbers[..count];
    let answer = fwd_transform::quantize_block_tx(coefs, dc, ac, size, depth);
    answered(line, answer, lent, coefs)
}

// Kind 25: the two quantizers and the coefficients.
pub fn quantize_block(line: &mut Line, numbers: &mut [i64]) -> Result<(), Stop> {
    let dc = DcQuant(line.integer()?);
    let ac = AcQuant(line.integer()?);
    let lent = *line;
    let count = line.list(numbers)?;
    let coefs = &mut numbers[..count];
    let answer = fwd_transform::quantize_block(coefs, dc, ac);
    answered(line, answer, lent, coefs)
}

// Kind 39: the two quantizers, size, depth, rule and the coefficients.
pub fn quantize_block_rule(line: &mut Line, numbers: &mut [i64]) -> Result<(), Stop> {
    let dc = DcQuant(line.integer()?);
    let ac = AcQuant(line.integer()?);
    let size = line.integer()?;
    let depth = line.integer()?;
    let rule = line.integer()?;
    let lent = *line;
    let count = line.list(numbers)?;
    let coefs = &mut numbers[..count];
    let answer = fwd_transform::quantize_block_rule(coefs, dc, ac, size, depth, rule);
    answered(line, answer, lent, coefs)
}

// Kind 26: the depth.
pub fn max_codeable_coef(line: &mut Line) -> Result<(), Stop> {
    let depth = line.integer()?;
    Ok(line.same_integer(quant::max_codeable_coef(depth))?)
}

// What the quantizer of one number requires.
fn quantizable(coef: i64, quantizer: AcQuant, most: u64) -> bool
    ensures { result ≡ true → (bad_quantizer quantizer.0 ≡ false) × (nat_abs coef ≤ 2 ^ 31) × (most ≤ codeable 12) }
{
    if quant::bad_quantizer(quantizer) {
        return false;
    }
    if COEF < magnitude(coef) {
        return false;
    }
    most <= MOST
}

// Kind 36: a coefficient, its quantizer, the size and the limit of a token.
pub fn quantize(line: &mut Line) -> Result<(), Stop> {
    let coef = line.integer()?;
    let quantizer = AcQuant(line.integer()?);
    let size = line.integer()?;
    let most = line.integer()?;
    if quantizable(coef, quantizer, most) {
        let token = quant::quantize(quantizer, coef, size, most, 1);
        return Ok(line.same_integer(token)?);
    }
    Err(Stop::Outside)
}
