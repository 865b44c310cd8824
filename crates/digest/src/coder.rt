// Calls of the forward WHT and the quantizer.
use crate::drivers::ROOM;
use answers::Answer;
use quant::{AcQuant, DcQuant};

// Sixteen numbers mostly.
fn wht_lent(r: u64) -> usize {
    if r % 16 == 0 {
        return (r / 16 % 33) as usize;
    }
    16
}

// A short list mostly; else up to one that is too long.
fn quantizer_lent(r: u64) -> usize {
    match r % 16 {
        0 => (r / 16 % 1041) as usize,
        1 => 1024,
        2 => 1025,
        _ => (r / 16 % 65) as usize,
    }
}

// The digest after the answer of a call on so many numbers, and the numbers as the call leaves them.
fn call<F: FnOnce(&mut [i64]) -> Answer>(key: u64, digest: u64, lent: usize, code: F) -> u64
    requires { F.IsAlwaysCallable code }
{
    let mut room = [0i64; ROOM];
    let count = draws::within(lent, &room);
    let numbers = &mut room[..count];
    draws::fill(numbers, draws::draw(key, 5), draws::draw(key, 6) % 8);
    let answer = code(numbers);
    draws::feed_list(
        draws::feed(digest, u64::from(answers::code(answer))),
        numbers,
    )
}

pub fn forward_wht(key: u64, digest: u64) -> u64 {
    call(
        key,
        digest,
        wht_lent(draws::draw(key, 2)),
        fwd_transform::forward_wht_2d,
    )
}

// What a call of the quantizer is given beside the coefficients.
#[derive(Clone, Copy)]
struct Quantizer {
    dc: DcQuant,
    ac: AcQuant,
    size: u32,
    depth: u32,
}

impl Quantizer {
    fn drawn(key: u64) -> Quantizer {
        Quantizer {
            dc: DcQuant(draws::quantizer(draws::draw(key, 3))),
            ac: AcQuant(draws::quantizer(draws::draw(key, 4))),
            size: draws::size(draws::draw(key, 1)),
            depth: draws::depth(draws::draw(key, 7)),
        }
    }
}

pub fn quantize_tx(key: u64, digest: u64) -> u64 {
    let q = Quantizer::drawn(key);
    call(key, digest, quantizer_lent(draws::draw(key, 2)), |coefs| {
        fwd_transform::quantize_block_tx(coefs, q.dc, q.ac, q.size, q.depth)
    })
}

pub fn quantize(key: u64, digest: u64) -> u64 {
    let q = Quantizer::drawn(key);
    call(key, digest, quantizer_lent(draws::draw(key, 2)), |coefs| {
        fwd_transform::quantize_block(coefs, q.dc, q.ac)
    })
}

// With a rule, which is drawn as a size is: 1 and 2 are good, others are refused.
pub fn quantize_rule(key: u64, digest: u64) -> u64 {
    let q = Quantizer::drawn(key);
    let rule = draws::size(draws::draw(key, 8));
    call(key, digest, quantizer_lent(draws::draw(key, 2)), |coefs| {
        fwd_transform::quantize_block_rule(coefs, q.dc, q.ac, q.size, q.depth, rule)
    })
}

pub fn max_codeable(key: u64, digest: u64) -> u64 {
    let most = quant::max_codeable_coef(draws::depth(draws::draw(key, 7)));
    draws::feed(digest, most.cast_unsigned())
}
