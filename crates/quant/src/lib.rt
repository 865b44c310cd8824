#![tactic(auto)]

ghost use Rattle.std.specs.Prelude.{false, ◌≡◌, ◌||◌, ℤ, min, ◌*◌, ◌^◌, ◌≤◌, pos, nat_abs};
ghost use Rattle.std.specs.Int.Signed.{quot_z};
ghost use Rattle.answers.specs.Bad.{bad_quantizer};
ghost use Rattle.quant.specs.Places.{quantizer_at};
ghost use Rattle.answers.specs.Limits.{codeable};
ghost use Rattle.quant.specs.Token.{dq_denom, dequant, short, with_sign, quantize};

use answers::{QUANT_LIMIT, magnitude};

// The quantizer of place 0.
#[derive(Clone, Copy)]
pub struct DcQuant(pub i32);

// The quantizer of all other places.
#[derive(Clone, Copy)]
pub struct AcQuant(pub i32);

// A quantizer of either kind, by its number: what is asked of one takes each as what it is, and neither stands for the other.
pub trait Quantizer: Copy {
    ghost number: { Self → ℤ };

    fn number(self) -> i32
        ensures { result ≡ number self };
}

impl Quantizer for DcQuant {
    ghost number = { λ q. q.0 };

    fn number(self) -> i32 {
        self.0
    }
}

impl Quantizer for AcQuant {
    ghost number = { λ q. q.0 };

    fn number(self) -> i32 {
        self.0
    }
}

// The greatest magnitude of a token; 0 for a depth that is not 8, 10 or 12.
pub fn max_codeable_coef(depth: u32) -> i64
    ensures { result ≡ pos (codeable depth) }
{
    match depth {
        8 => 16450,
        10 => 65602,
        12 => 262210,
        _ => 0,
    }
}

// The product, halved toward zero at 32 by 32.
fn divided(product: i64, size: u32) -> i64
    ensures { result ≡ quot_z product (pos (dq_denom size)) }
{
    if size == 3 {
        return product / 2;
    }
    product
}

// The same of a token and a quantizer of 16 bits, where the coefficient is of 16 bits too; the product that is halved needs 32.
fn coefficient16(token: i16, quantizer: i16, size: u32) -> i16
    requires { nat_abs token * nat_abs quantizer ≤ 32767 * dq_denom size }
    ensures { result ≡ dequant size quantizer token }
{
    if size == 3 {
        let product = (token as i32) * (quantizer as i32);
        return (product / 2) as i16;
    }
    token * quantizer
}

// The magnitude, doubled at 32 by 32.
fn widened(coef: i64, size: u32) -> u64
    requires { nat_abs coef ≤ 2 ^ 31 }
    ensures { result ≡ nat_abs coef * dq_denom size }
{
    let a = magnitude(coef);
    if size == 3 {
        return a * 2;
    }
    a
}

// What a rule takes off before the division: an exact half falls short by 1 under rule 1, and does not under rule 2.
fn short(rule: u32) -> u64
    ensures { (result ≡ short rule) × (result ≤ 1) }
{
    if rule == 2 {
        return 0;
    }
    1
}

// A token's magnitude with the coefficient's sign.
fn with_sign(coef: i64, m: u64) -> i64
    requires { m ≤ codeable 12 }
    ensures { result ≡ with_sign coef m }
{
    let token = m as i64;
    if coef < 0 {
        return -token;
    }
    token
}

// Outside 1 to 32,767.
pub fn bad_quantizer<Q: Quantizer>(quantizer: Q) -> bool
    ensures { result ≡ bad_quantizer (Q.number quantizer) }
{
    let q = quantizer.number();
    if q < 1 {
        return true;
    }
    QUANT_LIMIT < q
}

// One of the two is.
pub fn bad_quantizers(dc_quant: DcQuant, ac_quant: AcQuant) -> bool
    ensures { result ≡ bad_quantizer dc_quant.0 || bad_quantizer ac_quant.0 }
{
    bad_quantizer(dc_quant) || bad_quantizer(ac_quant)
}

// The coefficient of a token.
pub fn dequant<Q: Quantizer>(quantizer: Q, token: i64, size: u32) -> i64
    requires { (bad_quantizer (Q.number quantizer) ≡ false) × (nat_abs token ≤ codeable 12) }
    ensures { result ≡ dequant size (Q.number quantizer) token }
{
    let q = quantizer.number();
    divided(token * (q as i64), size)
}

// The coefficient of the token at a place: DC at place 0, AC at all others.
pub fn dequant_at(place: usize, dc_quant: DcQuant, ac_quant: AcQuant, token: i64, size: u32) -> i64
    requires { (bad_quantizer dc_quant.0 || bad_quantizer ac_quant.0 ≡ false) × (nat_abs token ≤ codeable 12) }
    ensures { result ≡ dequant size (quantizer_at dc_quant ac_quant place) token }
{
    if place == 0 {
        return dequant(dc_quant, token, size);
    }
    dequant(ac_quant, token, size)
}

// The same of a token whose coefficient is of 16 bits.
pub fn dequant16<Q: Quantizer>(quantizer: Q, token: i64, size: u32) -> i16
    requires { (bad_quantizer (Q.number quantizer) ≡ false) × (nat_abs token ≤ 32767) × (nat_abs token * nat_abs (Q.number quantizer) ≤ 32767 * dq_denom size) }
    ensures { result ≡ dequant size (Q.number quantizer) token }
{
    let q = quantizer.number();
    coefficient16(token as i16, q as i16, size)
}

// The products of magnitudes that add up to `sum`, added up.
pub fn weight<Q: Quantizer>(quantizer: Q, sum: u64) -> u64
    requires { (bad_quantizer (Q.number quantizer) ≡ false) × (sum ≤ 2 ^ 24) }
    ensures { (result ≡ sum * nat_abs (Q.number quantizer)) × (result ≤ 2 ^ 39) }
{
    let q = quantizer.number();
    sum * (q as u64)
}

// The token of a coefficient under a rule, at most `most` in magnitude.
pub fn quantize<Q: Quantizer>(quantizer: Q, coef: i64, size: u32, most: u64, rule: u32) -> i64
    requires { (bad_quantizer (Q.number quantizer) ≡ false) × (nat_abs coef ≤ 2 ^ 31) × (most ≤ codeable 12) }
    ensures { result ≡ quantize rule size most (Q.number quantizer) coef }
{
    let signed = quantizer.number();
    let q = signed as u64;
    let a = widened(coef, size);
    let nearest = (2 * a + (q - short(rule))) / (2 * q);
    with_sign(coef, most.min(nearest))
}
