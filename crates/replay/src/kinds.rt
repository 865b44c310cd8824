// The kinds of oracle/README.md; a line of another kind is skipped. `numbers` is room for the longest list.
use crate::verdict::{Stop, Verdict};
use crate::{coder, drivers, parts, rows};
use lines::Line;

// Makes the call of a kind, and compares its outcome with what is left of the line. The kind is a number of the lines' form, which this match
// alone reads: an enum would be the same table once more.
fn call(kind: usize, line: &mut Line, numbers: &mut [i64]) -> Result<(), Stop> {
    match kind {
        1 => parts::round2(line),
        2 => parts::brev(line),
        3 => parts::cos64(line),
        4 => parts::sin64(line),
        5 => parts::butterfly(line),
        6 => parts::hadamard(line),
        7 => parts::sb(line),
        8 => parts::sh(line),
        10 => rows::inverse_dct(line),
        11 => rows::inverse_adst(line),
        12 => rows::inverse_wht(line),
        20 => drivers::inverse_transform_2d(line, numbers),
        21 => drivers::inverse_transform_2d_reference(line, numbers),
        22 => Ok(replay_blocks::reconstruct_block(line)?),
        23 => coder::forward_wht_2d(line, numbers),
        24 => coder::quantize_block_tx(line, numbers),
        25 => coder::quantize_block(line, numbers),
        26 => coder::max_codeable_coef(line),
        30 => Ok(replay_blocks::vbk_file(line)?),
        31 => Ok(replay_blocks::reconstruct_block_report(line)?),
        32 => Ok(replay_rows::row_summary(line, numbers)?),
        33 => Ok(replay_rows::replace_token(line, numbers)?),
        34 => Ok(replay_rows::inverse_transform_2d_rows(line, numbers)?),
        35 => Ok(replay_files::vbk_write(line)?),
        36 => coder::quantize(line),
        37 => Ok(replay_engine32::inverse_transform_2d_32(line, numbers)?),
        38 => Ok(replay_dct::forward_dct_2d(line, numbers)?),
        39 => coder::quantize_block_rule(line, numbers),
        _ => Err(Stop::Outside),
    }
}

// What a line of a kind comes to, from behind its kind.
pub fn verdict(kind: usize, line: &mut Line, numbers: &mut [i64]) -> Verdict {
    let outcome = call(kind, line, numbers);
    Verdict::of(outcome, line)
}
