// Numbers of docs/REFERENCE.md that are run and not proved: a line for each call, with what it gives.
#![tactic(auto)]

ghost use Rattle.std.specs.Prelude.{◌<◌, length};

use plane::Plane;
use quant::{AcQuant, DcQuant};
use std::fmt::Display;
use std::io::Write;

// A call and what it gives. A piece that cannot be written is seen to be missing by who reads them, and holds back none behind it.
fn show<O: Write, T: Display + Drop>(output: &mut O, call: &str, value: T) {
    let _ = output.write_all(call.as_bytes());
    let _ = write!(output, "{value}");
    let _ = output.write_all(b"\n");
}

// The same of a number with a sign, which is written by itself.
fn show_signed<O: Write>(output: &mut O, call: &str, value: i64) {
    let _ = output.write_all(call.as_bytes());
    show(
        output,
        if value < 0 { "-" } else { "" },
        value.unsigned_abs(),
    );
}

// The number of reconstruction's answer: one token at place 1 of a block, over samples of 100.
fn answer_to(
    samples: &mut [u16],
    side: usize,
    size: u32,
    tokens: &mut [i64],
    token: i64,
    ac: i32,
    depth: u32,
) -> u32
    requires { 1 < length tokens.old }
{
    tokens[1] = token;
    let plane = Plane {
        width: side,
        height: side,
        stride: side,
    };
    let answer = reconstruct::reconstruct_block(
        samples,
        plane,
        0,
        0,
        size,
        tokens,
        DcQuant(4),
        AcQuant(ac),
        0,
        false,
        depth,
    );
    answers::code(answer)
}

fn answer_4(token: i64, ac: i32, depth: u32) -> u32 {
    answer_to(&mut [100; 16], 4, 0, &mut [0; 16], token, ac, depth)
}

// With no sample to write.
fn answer_32(token: i64, ac: i32, depth: u32) -> u32 {
    answer_to(&mut [0; 0], 0, 3, &mut [0; 1024], token, ac, depth)
}

fn show_row<O: Write>(output: &mut O, row: &[u16]) {
    for sample in row {
        let _ = output.write_all(b" ");
        let _ = write!(output, "{sample}");
    }
    let _ = output.write_all(b"\n");
}

// A plane of 6 by 5 samples after a lossless block at x, y whose residual is above 0 everywhere. What a line has past its sixth sample is
// padding.
fn show_plane<O: Write>(
    output: &mut O,
    call: &str,
    samples: &mut [u16],
    stride: usize,
    x: usize,
    y: usize,
)
    requires { 0 < stride }
{
    let mut tokens = [0i64; 16];
    tokens[0] = 5;
    let plane = Plane {
        width: 6,
        height: 5,
        stride,
    };
    let answer = reconstruct::reconstruct_block(
        samples,
        plane,
        x,
        y,
        0,
        &tokens,
        DcQuant(4),
        AcQuant(4),
        0,
        true,
        8,
    );
    show(output, call, answers::code(answer));
    for row in samples.chunks(stride) {
        show_row(output, row);
    }
}

fn show_coefficients<O: Write>(output: &mut O) {
    show_signed(
        output,
        "32 by 32, DC quantizer 7, token 5: ",
        quant::dequant(DcQuant(7), 5, 3),
    );
    show_signed(
        output,
        "32 by 32, AC quantizer 7, token -5: ",
        quant::dequant(AcQuant(7), -5, 3),
    );
    show_signed(
        output,
        "4 by 4, AC quantizer 8159, token 16450: ",
        quant::dequant(AcQuant(8159), 16450, 0),
    );
    show_signed(
        output,
        "32 by 32, AC quantizer 16318, token 16450: ",
        quant::dequant(AcQuant(16318), 16450, 3),
    );
}

fn show_codeable<O: Write>(output: &mut O) {
    for (call, depth) in [
        ("codeable at depth 8: ", 8u32),
        ("codeable at depth 10: ", 10),
        ("codeable at depth 12: ", 12),
        ("codeable at depth 9: ", 9),
    ] {
        show(output, call, quant::max_codeable_coef(depth));
    }
}

// The answer of the 2D driver to one coefficient at place 0 of a 4 by 4 block.
fn answer_driver(coef: i64) -> u32 {
    let mut block = [0i64; 16];
    block[0] = coef;
    answers::code(idct::inverse_transform_2d(&mut block, 2, 0, false))
}

// The answer of the quantizer to the same at depth 10, under quantizers of 32,767.
fn answer_quantizer(coef: i64) -> u32 {
    let mut coefs = [0i64; 16];
    coefs[0] = coef;
    answers::code(fwd_transform::quantize_block_tx(
        &mut coefs,
        DcQuant(32767),
        AcQuant(32767),
        0,
        10,
    ))
}

// The coefficients' limit, and one past it.
fn show_limits<O: Write>(output: &mut O) {
    for (call, coef) in [
        ("2D driver, 2147483648: answer ", 2147483648),
        ("2D driver, -2147483648: answer ", -2147483648),
        ("2D driver, 2147483649: answer ", 2147483649),
        ("2D driver, -2147483649: answer ", -2147483649),
    ] {
        show(output, call, answer_driver(coef));
    }
    for (call, coef) in [
        ("quantizer, 2147483648: answer ", 2147483648),
        ("quantizer, -2147483648: answer ", -2147483648),
        ("quantizer, 2147483649: answer ", 2147483649),
        ("quantizer, -2147483649: answer ", -2147483649),
    ] {
        show(output, call, answer_quantizer(coef));
    }
}

fn show_answers<O: Write>(output: &mut O) {
    show(
        output,
        "4 by 4, AC quantizer 8159, token 16450: answer ",
        answer_4(16450, 8159, 8),
    );
    show(
        output,
        "4 by 4, AC quantizer 8160, token 16450: answer ",
        answer_4(16450, 8160, 8),
    );
    show(
        output,
        "4 by 4, AC quantizer 8159, token 16451: answer ",
        answer_4(16451, 8159, 8),
    );
    show(
        output,
        "32 by 32, AC quantizer 16318, token 16450: answer ",
        answer_32(16450, 16318, 8),
    );
    show(
        output,
        "32 by 32, AC quantizer 16319, token 16450: answer ",
        answer_32(16450, 16319, 8),
    );
    show(
        output,
        "depth 12, 4 by 4, AC quantizer 32767, token 65536: answer ",
        answer_4(65536, 32767, 12),
    );
    show(
        output,
        "depth 12, 4 by 4, AC quantizer 32767, token 65539: answer ",
        answer_4(65539, 32767, 12),
    );
    show(
        output,
        "depth 12, 32 by 32, AC quantizer 16384, token 262144: answer ",
        answer_32(262144, 16384, 12),
    );
    show(
        output,
        "depth 12, 32 by 32, AC quantizer 16384, token 262145: answer ",
        answer_32(262145, 16384, 12),
    );
}

fn main(rt: HostRuntime) {
    let mut output = rt.stdout();
    show(&mut output, "brev(3, 6): ", primitives::brev(3, 6));
    show_coefficients(&mut output);
    show_codeable(&mut output);
    show_answers(&mut output);
    show_limits(&mut output);
    show_plane(
        &mut output,
        "plane 6 by 5, answer ",
        &mut [100; 30],
        6,
        4,
        3,
    );
    show_plane(
        &mut output,
        "plane 6 by 5, stride 8, answer ",
        &mut [100; 40],
        8,
        4,
        3,
    );
    show_plane(
        &mut output,
        "plane 6 by 5, answer ",
        &mut [100; 30],
        6,
        6,
        3,
    );
}
