// Kinds 32, 33 and 34 of oracle/README.md: the row summary of a block, one token replaced, and the driver with the number of its row
// transforms. Each call reads what is left of its line, and is Broken where the line has something else than was expected.
#![tactic(auto)]

use answers::Answer;
use lines::{Broken, Line};
use quant::{AcQuant, DcQuant};

// A summary stands in a line as a list of one number.
fn read_summary(line: &mut Line) -> Result<u32, Broken> {
    line.same_integer(1u32)?;
    line.integer()
}

// A row as a number, -1 where there is none.
fn number(row: Option<u32>) -> i64 {
    row.map_or(-1, i64::from)
}

// The outcome is this answer, this summary, and what the summary says of itself.
fn same_rows(line: &mut Line, lent: Line, answer: Answer, summary: u32) -> Result<(), Broken> {
    line.same_integer(answers::code(answer))?;
    line.same_integer(summary::row_count(summary))?;
    line.same_integer(number(summary::first_row(summary)))?;
    line.same_integer(number(summary::last_row(summary)))?;
    line.same_lent(lent, &[summary])
}

// Kind 32: n, the block, and the number in the room for the summary, which stays under a refusal.
pub fn row_summary(line: &mut Line, numbers: &mut [i64]) -> Result<(), Broken> {
    let n = line.integer()?;
    let count = line.list(numbers)?;
    let lent = *line;
    let given = read_summary(line)?;
    match summary::row_summary(&numbers[..count], n) {
        Ok(rows) => same_rows(line, lent, Ok(()), rows),
        Err(refusal) => same_rows(line, lent, Err(refusal), given),
    }
}

// Kind 33: size, place, token, the two quantizers, depth, the block and its summary.
pub fn replace_token(line: &mut Line, numbers: &mut [i64]) -> Result<(), Broken> {
    let size = line.integer()?;
    let place = line.integer()?;
    let token = line.integer()?;
    let dc = line.integer()?;
    let ac = line.integer()?;
    let depth = line.integer()?;
    let lent_block = *line;
    let count = line.list(numbers)?;
    let lent_rows = *line;
    let mut rows = read_summary(line)?;
    let block = &mut numbers[..count];
    let answer = summary::replace_token(
        block,
        &mut rows,
        size,
        place,
        token,
        DcQuant(dc),
        AcQuant(ac),
        depth,
    );
    line.same_integer(answers::code(answer))?;
    line.same_lent(lent_block, block)?;
    line.same_lent(lent_rows, &[rows])
}

// Kind 34: n, type, lossless and the block.
pub fn inverse_transform_2d_rows(line: &mut Line, numbers: &mut [i64]) -> Result<(), Broken> {
    let n = line.integer()?;
    let tx_type = line.integer()?;
    let lossless = line.flag()?;
    let lent = *line;
    let count = line.list(numbers)?;
    let block = &mut numbers[..count];
    let (answer, rows) = match idct::inverse_transform_2d_rows(block, n, tx_type, lossless) {
        Ok(rows) => (0, rows.number()),
        Err(refusal) => (u32::from(refusal), 0),
    };
    line.same_integer(answer)?;
    line.same_integer(rows)?;
    line.same_lent(lent, block)
}
