// The public calls for C: numbers and slices in, the answer's number out. Each hands on to the proved call of its name.
#![tactic(auto)]

ghost use Rattle.std.specs.Prelude.{◌≡◌, ◌∷◌, ◌≤◌, pos, length, drop};
ghost use Rattle.answers.specs.Limits.{codeable};
ghost use Rattle.idct.specs.Driver.{answer_of, block_after};
ghost use Rattle.summary.specs.Summary.{set_rows, first_of, last_of};
ghost use Rattle.summary.specs.Replace.{answer_of as replace_answer};
ghost use Rattle.idct32.specs.Engine.{answer_of32, block_after32};
ghost use Rattle.reconstruct.specs.Reconstruct.{answer_of as reconstruct_answer, samples_after};
ghost use Rattle.report.specs.Report.{answer_of as report_answer};
ghost use Rattle.fwd_dct.specs.Forward.{answer_of as dct_answer, block_after as dct_after};
ghost use Rattle.fwd_transform.specs.ForwardWht.{wht_answer, wht_after};
ghost use Rattle.fwd_transform.specs.Quantize.{answer_of as quantize_answer, coefs_after, rule_answer, ruled_after};
ghost use Rattle.vbk.specs.Promises.{Printed};
ghost use Rattle.exports.specs.Told.{Told};
ghost use Rattle.exports.specs.Write.{request_answer, buffer_after};
ghost use Rattle.exports.specs.Report.{lent_after};
ghost use Rattle.exports.specs.Rows.{asked_answer, asked_after, replaced_after, counting_answer, counting_after};
ghost use Rattle.rows_told.specs.Rows.{row_number};
ghost use Rattle.exports.specs.Run.{FIGURES, RunTold};

use answers::Refusal;
use plane::Plane;
use quant::{AcQuant, DcQuant};

// Numbers that a run tells of itself: depth, width, height, records read, touched count.
pub const FIGURES: usize = 5;

// The 2D driver: the residual of a block, in its place.
#[unsafe(no_mangle)]
pub extern "C" fn bracetwill_inverse_transform_2d(
    block: &mut [i64],
    n: u32,
    tx_type: u8,
    lossless: bool,
) -> u32
    ensures { Told answer_of block_after (record { block = block.entry.now; n = n; tx_type = tx_type; lossless = lossless }) result block.exit.now }
{
    let a = idct::inverse_transform_2d(block, n, tx_type, lossless);
    answers::code(a)
}

// The reference driver, which promises the same.
#[unsafe(no_mangle)]
pub extern "C" fn bracetwill_inverse_transform_2d_reference(
    block: &mut [i64],
    n: u32,
    tx_type: u8,
    lossless: bool,
) -> u32
    ensures { Told answer_of block_after (record { block = block.entry.now; n = n; tx_type = tx_type; lossless = lossless }) result block.exit.now }
{
    let a = idct::inverse_transform_2d_reference(block, n, tx_type, lossless);
    answers::code(a)
}

// The 2D driver with the number of its row transforms, into the room for it, which stays under a refusal.
#[unsafe(no_mangle)]
pub extern "C" fn bracetwill_inverse_transform_2d_rows(
    block: &mut [i64],
    n: u32,
    tx_type: u8,
    lossless: bool,
    rows: &mut u32,
) -> u32
    ensures { Told counting_answer counting_after (record { input = record { block = block.entry.now; n = n; tx_type = tx_type; lossless = lossless }; room = rows.old }) result (record { block = block.exit.now; rows = rows.new }) }
{
    match idct::inverse_transform_2d_rows(block, n, tx_type, lossless) {
        Ok(count) => {
            *rows = count.number();
            0
        }
        Err(refusal) => u32::from(refusal),
    }
}

// The summary of a block's rows, into the room for it, which stays under a refusal.
#[unsafe(no_mangle)]
pub extern "C" fn bracetwill_row_summary(block: &[i64], n: u32, summary: &mut u32) -> u32
    ensures { Told asked_answer asked_after (record { block = block.entry.now; n = n; room = summary.old }) result summary.new }
{
    match summary::row_summary(block, n) {
        Ok(rows) => {
            *summary = rows;
            0
        }
        Err(refusal) => u32::from(refusal),
    }
}

// How many rows a summary has.
#[unsafe(no_mangle)]
pub extern "C" fn bracetwill_row_count(summary: u32) -> u32
    ensures { result ≡ length (set_rows summary) }
{
    summary::row_count(summary)
}

// The first row of a summary.
#[unsafe(no_mangle)]
pub extern "C" fn bracetwill_first_row(summary: u32) -> i32
    ensures { result ≡ row_number (first_of (set_rows summary)) }
{
    rows_told::row_number(summary::first_row(summary))
}

// The last row of a summary.
#[unsafe(no_mangle)]
pub extern "C" fn bracetwill_last_row(summary: u32) -> i32
    ensures { result ≡ row_number (last_of (set_rows summary)) }
{
    rows_told::row_number(summary::last_row(summary))
}

// One token of a block replaced, with the summary beside it.
#[unsafe(no_mangle)]
pub extern "C" fn bracetwill_replace_token(
    block: &mut [i64],
    summary: &mut u32,
    tx_sz: u32,
    place: usize,
    token: i64,
    dc_quant: i32,
    ac_quant: i32,
    bit_depth: u32,
) -> u32
    ensures { Told replace_answer replaced_after (record { block = block.entry.now; summary = summary.old; size = tx_sz; place = place; token = token; dc = record { 0 = dc_quant }; ac = record { 0 = ac_quant }; depth = bit_depth }) result (record { block = block.exit.now; rows = summary.new }) }
{
    let a = summary::replace_token(
        block,
        summary,
        tx_sz,
        place,
        token,
        DcQuant(dc_quant),
        AcQuant(ac_quant),
        bit_depth,
    );
    answers::code(a)
}

// The 32-bit engine: the 2D driver for blocks that stay within 16 bits on the way.
#[unsafe(no_mangle)]
pub extern "C" fn bracetwill_inverse_transform_2d_32(
    block: &mut [i64],
    n: u32,
    tx_type: u8,
    lossless: bool,
) -> u32
    ensures { Told answer_of32 block_after32 (record { block = block.entry.now; n = n; tx_type = tx_type; lossless = lossless }) result block.exit.now }
{
    let a = idct32::inverse_transform_2d_32(block, n, tx_type, lossless);
    answers::code(a)
}

// A block's tokens into a plane's samples.
#[unsafe(no_mangle)]
pub extern "C" fn bracetwill_reconstruct_block(
    samples: &mut [u16],
    width: usize,
    height: usize,
    stride: usize,
    x: usize,
    y: usize,
    tx_sz: u32,
    tokens: &[i64],
    dc_quant: i32,
    ac_quant: i32,
    tx_type: u8,
    lossless: bool,
    bit_depth: u32,
) -> u32
    ensures { Told reconstruct_answer samples_after (record { samples = samples.entry.now; plane = record { width = width; height = height; stride = stride }; x = x; y = y; size = tx_sz; tokens = tokens.now; dc = record { 0 = dc_quant }; ac = record { 0 = ac_quant }; tx_type = tx_type; lossless = lossless; depth = bit_depth }) result samples.exit.now }
{
    let a = reconstruct::reconstruct_block(
        samples,
        Plane {
            width,
            height,
            stride,
        },
        x,
        y,
        tx_sz,
        tokens,
        DcQuant(dc_quant),
        AcQuant(ac_quant),
        tx_type,
        lossless,
        bit_depth,
    );
    answers::code(a)
}

// The same with a report beside it: every token of a block that is done is counted in its size and class.
#[unsafe(no_mangle)]
pub extern "C" fn bracetwill_reconstruct_block_report(
    samples: &mut [u16],
    width: usize,
    height: usize,
    stride: usize,
    x: usize,
    y: usize,
    tx_sz: u32,
    tokens: &[i64],
    dc_quant: i32,
    ac_quant: i32,
    tx_type: u8,
    lossless: bool,
    bit_depth: u32,
    counts: &mut [u32; 44],
    sums: &mut [u64; 44],
) -> u32
    ensures { Told report_answer lent_after (record { block = record { samples = samples.entry.now; plane = record { width = width; height = height; stride = stride }; x = x; y = y; size = tx_sz; tokens = tokens.now; dc = record { 0 = dc_quant }; ac = record { 0 = ac_quant }; tx_type = tx_type; lossless = lossless; depth = bit_depth }; counts = counts.old; sums = sums.old }) result (record { samples = samples.exit.now; counts = counts.new; sums = sums.new }) }
{
    let a = report::reconstruct_block_report(
        samples,
        Plane {
            width,
            height,
            stride,
        },
        x,
        y,
        tx_sz,
        tokens,
        DcQuant(dc_quant),
        AcQuant(ac_quant),
        tx_type,
        lossless,
        bit_depth,
        counts,
        sums,
    );
    answers::code(a)
}

// The forward WHT of a block.
#[unsafe(no_mangle)]
pub extern "C" fn bracetwill_forward_wht_2d(block: &mut [i64]) -> u32
    ensures { Told wht_answer wht_after block.old result block.new }
{
    let a = fwd_transform::forward_wht_2d(block);
    answers::code(a)
}

// The forward DCT of a block, in whole numbers.
#[unsafe(no_mangle)]
pub extern "C" fn bracetwill_forward_dct_2d(block: &mut [i64], n: u32) -> u32
    ensures { Told dct_answer dct_after (record { block = block.entry.now; n = n }) result block.exit.now }
{
    let a = fwd_dct::forward_dct_2d(block, n);
    answers::code(a)
}

// Coefficients to tokens, at any size and depth.
#[unsafe(no_mangle)]
pub extern "C" fn bracetwill_quantize_block_tx(
    coefs: &mut [i64],
    dc_quant: i32,
    ac_quant: i32,
    tx_sz: u32,
    bit_depth: u32,
) -> u32
    ensures { Told quantize_answer coefs_after (record { coefs = coefs.entry.now; dc = record { 0 = dc_quant }; ac = record { 0 = ac_quant }; size = tx_sz; depth = bit_depth }) result coefs.exit.now }
{
    let a = fwd_transform::quantize_block_tx(
        coefs,
        DcQuant(dc_quant),
        AcQuant(ac_quant),
        tx_sz,
        bit_depth,
    );
    answers::code(a)
}

// Coefficients to tokens, at size 0 and depth 8.
#[unsafe(no_mangle)]
pub extern "C" fn bracetwill_quantize_block(coefs: &mut [i64], dc_quant: i32, ac_quant: i32) -> u32
    ensures { Told quantize_answer coefs_after (record { coefs = coefs.entry.now; dc = record { 0 = dc_quant }; ac = record { 0 = ac_quant }; size = 0; depth = 8 }) result coefs.exit.now }
{
    let a = fwd_transform::quantize_block(coefs, DcQuant(dc_quant), AcQuant(ac_quant));
    answers::code(a)
}

// Coefficients to tokens by rule 1 or 2, at any size and depth.
#[unsafe(no_mangle)]
pub extern "C" fn bracetwill_quantize_block_rule(
    coefs: &mut [i64],
    dc_quant: i32,
    ac_quant: i32,
    tx_sz: u32,
    bit_depth: u32,
    rule: u32,
) -> u32
    ensures { Told (rule_answer rule) (ruled_after rule) (record { coefs = coefs.entry.now; dc = record { 0 = dc_quant }; ac = record { 0 = ac_quant }; size = tx_sz; depth = bit_depth }) result coefs.exit.now }
{
    let a = fwd_transform::quantize_block_rule(
        coefs,
        DcQuant(dc_quant),
        AcQuant(ac_quant),
        tx_sz,
        bit_depth,
        rule,
    );
    answers::code(a)
}

// The greatest magnitude of a token; 0 for a depth that is not 8, 10 or 12.
#[unsafe(no_mangle)]
pub extern "C" fn bracetwill_max_codeable_coef(bit_depth: u32) -> i64
    ensures { result ≡ pos (codeable bit_depth) }
{
    quant::max_codeable_coef(bit_depth)
}

// The run's figures, at the front of the room for them.
fn put_figures(room: &mut [u64], depth: u8, width: u16, height: u16, count: usize, touched: usize)
    requires { FIGURES ≤ length room.old }
    ensures { room.new ≡ depth ∷ width ∷ height ∷ count ∷ touched ∷ drop FIGURES room.old }
{
    room[0] = depth as u64;
    room[1] = width as u64;
    room[2] = height as u64;
    room[3] = count as u64;
    room[4] = touched as u64;
}

// A run over a VBK file: the plane and the records' answers as `vbk::replay` leaves them, the run's figures at the front of `figures`.
#[unsafe(no_mangle)]
pub extern "C" fn bracetwill_replay(
    file: &[u8],
    samples: &mut [u16],
    answers: &mut [u8],
    figures: &mut [u64],
) -> u32
    ensures { RunTold file.now samples.old answers.old figures.old result samples.new answers.new figures.new }
{
    if figures.len() < FIGURES {
        return u32::from(Refusal::Length);
    }
    match vbk::replay(file, samples, answers) {
        Ok(run) => {
            let fields = run.fields;
            put_figures(
                figures,
                fields.depth,
                fields.width,
                fields.height,
                run.count,
                run.touched,
            );
            0
        }
        Err(refusal) => u32::from(refusal),
    }
}

// A run over a VBK file and its text, which is left at the front of `out`; how long it is. 0 where a lent room is too short.
#[unsafe(no_mangle)]
pub extern "C" fn bracetwill_blockrun(
    file: &[u8],
    samples: &mut [u16],
    answers: &mut [u8],
    out: &mut [u8],
) -> usize
    ensures { Printed file.now samples.old answers.old out.old result samples.new answers.new out.new }
{
    vbk::blockrun(file, samples, answers, out)
}

// A VBK file at the front of `out`, and its length in `length`. Refused, both are as they were.
#[unsafe(no_mangle)]
pub extern "C" fn bracetwill_vbk_write(
    depth: u8,
    width: u16,
    height: u16,
    samples: &[u16],
    xs: &[u16],
    ys: &[u16],
    sizes: &[u8],
    tx_types: &[u8],
    lossless: &[u8],
    dcs: &[u16],
    acs: &[u16],
    counts: &[u32],
    tokens: &[i32],
    out: &mut [u8],
    length: &mut [usize; 1],
) -> u32
    ensures { Told request_answer buffer_after (record { lent = record { depth = depth; width = width; height = height; samples = samples.now; xs = xs.now; ys = ys.now; sizes = sizes.now; tx_types = tx_types.now; lossless = lossless.now; dcs = dcs.now; acs = acs.now; counts = counts.now; tokens = tokens.now }; out = out.entry.now; size = length.old }) result (record { out = out.exit.now; size = length.new }) }
{
    match vbk_write::vbk_write(
        depth, width, height, samples, xs, ys, sizes, tx_types, lossless, dcs, acs, counts, tokens,
        out,
    ) {
        Ok(written) => {
            length[0] = written;
            0
        }
        Err(refusal) => u32::from(refusal),
    }
}
