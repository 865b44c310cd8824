// Kind 38 of oracle/README.md: a block through the forward DCT.
#![tactic(auto)]

use lines::{Broken, Line};

// n and the block, read into `numbers`; Broken where the line has something else than was expected.
pub fn forward_dct_2d(line: &mut Line, numbers: &mut [i64]) -> Result<(), Broken> {
    let n = line.integer()?;
    let lent = *line;
    let count = line.list(numbers)?;
    let block = &mut numbers[..count];
    let answer = fwd_dct::forward_dct_2d(block, n);
    line.same_integer(answers::code(answer))?;
    line.same_lent(lent, block)
}
