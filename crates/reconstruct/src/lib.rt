#![tactic(auto)]

ghost use Rattle.std.specs.Prelude.{true, false, ◌≡◌, ◌+◌, ◌*◌, ◌^◌, ◌≤◌, pos, length, get_or};
ghost use Rattle.whole.specs.Lists.{tabulate};
ghost use Rattle.whole.specs.Inner.{AllWithin};
ghost use Rattle.answers.specs.Answers.{number};
ghost use Rattle.answers.specs.Sizes.{side};
ghost use Rattle.answers.specs.Bad.{bad_depth};
ghost use Rattle.plane.specs.Place.{SamplesOf};
ghost use Rattle.plane.specs.Plane.{plane_after};
ghost use Rattle.blocks.specs.Inner.{FirstWithin};
ghost use Rattle.blocks.specs.Inverse.{inverse2d};
ghost use Rattle.residual16.specs.Inner.{Lent};
ghost use Rattle.reconstruct.specs.Inner.{Accepted, Sound, Checked, Tried};
ghost use Rattle.reconstruct.specs.Reconstruct.{largest, added, Reconstructed};

use answers::{Answer, side};
use plane::Plane;
use quant::{AcQuant, DcQuant};
use tokens::Coding;

// The largest sample.
fn largest(depth: u32) -> u16
    requires { bad_depth depth ≡ false }
    ensures { result ≡ largest depth }
{
    match depth {
        8 => 255,
        10 => 1023,
        _ => 4095,
    }
}

// The sixteen numbers of a 4 by 4 block by themselves.
fn front(block: &[i64; 1024]) -> [i64; 16]
    ensures { result ≡ tabulate (λ k. get_or block.now k (pos 0)) 16 }
{
    let mut few = [0i64; 16];
    for k in 0..16usize {
        few[k] = block[k];
    }
    few
}

// A 4 by 4 residual into the plane. A whole block is read at literal places only, a cut one by itself: so the 1,024 cost nothing.
fn add_back4(samples: &mut [u16], plane: Plane, x: usize, y: usize, block: &[i64; 1024], top: u16)
    requires { SamplesOf plane samples.old × (length block.now ≡ 1024) × AllWithin (2 ^ 62) block.now }
    ensures { samples.new ≡ plane_after plane top x y 4 (λ i j. get_or block.now (i * 4 + j) (pos 0)) samples.old }
{
    let rows = plane::cut(plane.height, y, 4);
    let cols = plane::cut(plane.width, x, 4);
    if rows == 4 {
        if cols == 4 {
            plane::add_rows(samples, plane, x, y, block, 4, 4, 4, 4, top);
            return;
        }
    }
    let few = front(block);
    plane::add_back(samples, plane, x, y, &few, 4, 4, top);
}

// The residual of a 4 by 4 block in the place of its coefficients.
fn passes_4(block: &mut [i64; 1024], tx_type: u8, lossless: bool)
    requires { (length block.old ≡ 1024) × FirstWithin (2 ^ 31) 16 block.old }
    ensures { block.new ≡ inverse2d 2 tx_type lossless block.old }
{
    if lossless {
        small_passes::wht_passes(block);
        return;
    }
    small_passes::lossy_passes(block, tx_type);
}

// Tokens that are taken, 4 by 4. The block is written at literal places only, and so its 1,024 numbers cost nothing.
fn add_4(
    samples: &mut [u16],
    plane: Plane,
    x: usize,
    y: usize,
    tokens: &[i64],
    coding: Coding,
    top: u16,
)
    requires { SamplesOf plane samples.old × Accepted 0 coding.dc_quant coding.ac_quant coding.tx_type coding.lossless tokens.now }
    ensures { samples.new ≡ added plane top x y 0 coding.dc_quant coding.ac_quant coding.tx_type coding.lossless tokens.now samples.old }
{
    let mut block = [0i64; 1024];
    tokens::dequantize(&mut block, tokens, 16, Coding { size: 0, ..coding });
    passes_4(&mut block, coding.tx_type, coding.lossless);
    add_back4(samples, plane, x, y, &block, top);
}

// Tokens that are taken, 8 by 8 and more.
fn add_wide(
    samples: &mut [u16],
    plane: Plane,
    x: usize,
    y: usize,
    tokens: &[i64],
    coding: Coding,
    top: u16,
)
    requires { SamplesOf plane samples.old × Accepted coding.size coding.dc_quant coding.ac_quant coding.tx_type false tokens.now × (1 ≤ coding.size) }
    ensures { samples.new ≡ added plane top x y coding.size coding.dc_quant coding.ac_quant coding.tx_type false tokens.now samples.old }
{
    let mut block = [0i64; 1024];
    tokens::dequantize(&mut block, tokens, tokens.len(), coding);
    passes::both_passes(&mut block, coding.size + 2, coding.tx_type);
    let n0 = side(coding.size + 2);
    plane::add_back(samples, plane, x, y, &block, n0, n0, top);
}

// The tokens checked and, where they are taken, their residual added to the samples; 4 by 4, and 8 by 8 and more where 16 bits are too few.
fn add_checked(
    samples: &mut [u16],
    plane: Plane,
    x: usize,
    y: usize,
    tokens: &[i64],
    coding: Coding,
) -> Answer
    requires { SamplesOf plane samples.old × Sound coding.size coding.dc_quant coding.ac_quant coding.tx_type coding.lossless coding.depth tokens.now }
    ensures { Checked plane x y coding.size coding.dc_quant coding.ac_quant coding.tx_type coding.lossless coding.depth tokens.now samples.old (number result) samples.new }
{
    tokens::check_tokens(tokens, coding)?;
    let top = largest(coding.depth);
    if coding.size == 0 {
        add_4(samples, plane, x, y, tokens, coding, top);
        return Ok(());
    }
    add_wide(samples, plane, x, y, tokens, coding, top);
    Ok(())
}

// Tokens of 8 by 8 and more by numbers of 16 bits, which need no look at the limits: none is near to one. False where they are too few bits, and
// then nothing is changed.
fn add_short(
    samples: &mut [u16],
    plane: Plane,
    x: usize,
    y: usize,
    n0: usize,
    tokens: &[i64],
    coding: Coding,
    top: u16,
) -> bool
    requires { SamplesOf plane samples.old × Lent coding.size coding.dc_quant coding.ac_quant coding.tx_type tokens.now × (n0 ≡ side (coding.size + 2)) }
    ensures { Tried plane top x y coding.size coding.dc_quant coding.ac_quant coding.tx_type tokens.now samples.old result samples.new }
{
    let mut z = [0i16; 1024];
    if !residual16::residual(
        &mut z,
        tokens,
        coding.size,
        coding.dc_quant,
        coding.ac_quant,
        coding.tx_type,
    ) {
        return false;
    }
    plane16::add_back(samples, plane, x, y, &z, n0, top);
    true
}

// The same. Called twice it stays out of line, and its block of 16-bit numbers is on no other frame.
fn quick(
    samples: &mut [u16],
    plane: Plane,
    x: usize,
    y: usize,
    tokens: &[i64],
    coding: Coding,
    top: u16,
) -> bool
    requires { SamplesOf plane samples.old × Lent coding.size coding.dc_quant coding.ac_quant coding.tx_type tokens.now }
    ensures { Tried plane top x y coding.size coding.dc_quant coding.ac_quant coding.tx_type tokens.now samples.old result samples.new }
{
    if coding.size == 1 {
        return add_short(
            samples,
            plane,
            x,
            y,
            8,
            tokens,
            Coding { size: 1, ..coding },
            top,
        );
    }
    let n0 = side(coding.size + 2);
    add_short(samples, plane, x, y, n0, tokens, coding, top)
}

// The block's residual added to the samples at (x, y), as far as the plane has them. Refused, nothing is changed.
pub fn reconstruct_block(
    samples: &mut [u16],
    plane: Plane,
    x: usize,
    y: usize,
    tx_sz: u32,
    tokens: &[i64],
    dc_quant: DcQuant,
    ac_quant: AcQuant,
    tx_type: u8,
    lossless: bool,
    bit_depth: u32,
) -> Answer
    ensures { Reconstructed (record { samples = samples.entry.now; plane = plane; x = x; y = y; size = tx_sz; tokens = tokens.now; dc = dc_quant; ac = ac_quant; tx_type = tx_type; lossless = lossless; depth = bit_depth }) result samples.exit.now }
{
    let coding = Coding {
        size: tx_sz,
        dc_quant,
        ac_quant,
        tx_type,
        lossless,
        depth: bit_depth,
    };
    tokens::check(samples.len(), plane, tokens.len(), coding)?;
    if tx_sz == 0 {
        return add_checked(samples, plane, x, y, tokens, Coding { size: 0, ..coding });
    }
    let top = largest(bit_depth);
    if quick(samples, plane, x, y, tokens, coding, top) {
        return Ok(());
    }
    add_checked(
        samples,
        plane,
        x,
        y,
        tokens,
        Coding {
            lossless: false,
            ..coding
        },
    )
}
