// Tests of a block's numbers, and the residual where place 0 alone is live.
#![tactic(auto)]

ghost use Rattle.std.specs.Prelude.{◌≡◌, true, false, not, ◌^◌, ◌≤◌, ltb, pos, nat_abs, length, get_or};
ghost use Rattle.whole.specs.Lists.{fill};
ghost use Rattle.whole.specs.Within.{Within};
ghost use Rattle.answers.specs.Bad.{any_beyond};
ghost use Rattle.answers.specs.Limits.{COEF_LIMIT};
ghost use Rattle.blocks.specs.Block.{only_dc};
ghost use Rattle.blocks.specs.Inner.{dc_value};

// Beyond the limit of a coefficient.
pub fn is_beyond(x: i64) -> bool
    ensures { result ≡ ltb COEF_LIMIT (nat_abs x) }
{
    answers::COEF_LIMIT < answers::magnitude(x)
}

// True only where none of the first `count` numbers is beyond the limit; false for the limit itself too. Quick, and enough for almost every block.
fn surely_within(block: &[i64], count: usize) -> bool
    requires { count ≤ length block.now }
    ensures { result ≡ true → any_beyond COEF_LIMIT count block.now ≡ false }
{
    blocks::or_plus_most(block, 0, count, answers::COEF_LIMIT) < 2 * answers::COEF_LIMIT
}

// None of the first `count` numbers is beyond the limit.
pub fn within(block: &[i64], count: usize) -> bool
    requires { count ≤ length block.now }
    ensures { result ≡ not (any_beyond COEF_LIMIT count block.now) }
{
    surely_within(block, count) || !answers::any_beyond(block, count, answers::COEF_LIMIT)
}

// Whether the type is 0 and only place 0 of the `count` numbers is live.
pub fn only_dc(block: &[i64], count: usize, tx_type: u8) -> bool
    requires { (2 ≤ count) × (count ≤ length block.now) }
    ensures { result ≡ only_dc count tx_type block.now }
{
    tx_type == 0 && !blocks::any_live_first(block, 1, count - 1)
}

// The one number that place 0 gives everywhere; 11585 is cos64(16).
pub fn dc_value(x: i64, n: u32) -> i64
    requires { (2 ≤ n) × (n ≤ 5) × Within (2 ^ 31) x }
    ensures { result ≡ dc_value n x }
{
    let row = primitives::round2(x * 11585, 14);
    let col = primitives::round2(row * 11585, 14);
    primitives::round2(col, blocks::rounding_bits(n))
}

// One number at the first `count` places.
pub fn fill_first(block: &mut [i64], count: usize, v: i64)
    requires { count ≤ length block.old }
    ensures { block.new ≡ fill count (λ k. v) block.old }
{
    for i in 0..count {
        block[i] = v;
    }
}

// The residual where only place 0 is live, of type 0.
pub fn dc_fill(block: &mut [i64], n: u32, count: usize)
    requires { (2 ≤ n) × (n ≤ 5) × (1 ≤ count) × (count ≤ length block.old) × Within (2 ^ 31) (get_or block.old 0 (pos 0)) }
    ensures { block.new ≡ fill count (λ k. dc_value n (get_or block.old 0 (pos 0))) block.old }
{
    let v = dc_value(block[0], n);
    fill_first(block, count, v);
}
