// Kinds 20 and 21: the two drivers. Each takes n, type, lossless and the block.
use crate::verdict::{Stop, answered};
use lines::Line;

// Kind 20.
pub fn inverse_transform_2d(line: &mut Line, numbers: &mut [i64]) -> Result<(), Stop> {
    let n = line.integer()?;
    let tx_type = line.integer()?;
    let lossless = line.flag()?;
    let lent = *line;
    let count = line.list(numbers)?;
    let block = &mut numbers[..count];
    let answer = idct::inverse_transform_2d(block, n, tx_type, lossless);
    answered(line, answer, lent, block)
}

// Kind 21: the same of the reference driver.
pub fn inverse_transform_2d_reference(line: &mut Line, numbers: &mut [i64]) -> Result<(), Stop> {
    let n = line.integer()?;
    let tx_type = line.integer()?;
    let lossless = line.flag()?;
    let lent = *line;
    let count = line.list(numbers)?;
    let block = &mut numbers[..count];
    let answer = idct::inverse_transform_2d_reference(block, n, tx_type, lossless);
    answered(line, answer, lent, block)
}
