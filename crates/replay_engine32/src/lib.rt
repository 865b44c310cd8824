// Kind 37 of oracle/README.md: a block through the 32-bit engine.
#![tactic(auto)]

use lines::{Broken, Line};

// n, type, lossless and the block, read into `numbers`; Broken where the line has something else than was expected.
pub fn inverse_transform_2d_32(line: &mut Line, numbers: &mut [i64]) -> Result<(), Broken> {
    let n = line.integer()?;
    let tx_type = line.integer()?;
    let lossless = line.flag()?;
    let lent = *line;
    let count = line.list(numbers)?;
    let block = &mut numbers[..count];
    let answer = idct32::inverse_transform_2d_32(block, n, tx_type, lossless);
    line.same_integer(answers::code(answer))?;
    line.same_lent(lent, block)
}
