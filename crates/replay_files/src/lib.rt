// Kind 35 of oracle/README.md: a VBK file written. The call reads what is left of its line, and is Broken where the line has something
// else than was expected.
#![tactic(auto)]

use lines::{Broken, Line};

// A number of two bytes; 0 for any other.
fn two(x: u32) -> u16 {
    u16::try_from(x).unwrap_or(0)
}

// A token; 0 for a number that is none.
fn token(x: i64) -> i32 {
    i32::try_from(x).unwrap_or(0)
}

// The longest list of samples, the most records, the most tokens and the longest buffer have room.
pub fn vbk_write(line: &mut Line) -> Result<(), Broken> {
    let depth = line.integer()?;
    let width = two(line.integer()?);
    let height = two(line.integer()?);
    let mut samples = [0u16; 4200];
    let sample_count = line.list(&mut samples)?;
    let mut xs = [0u16; 100];
    let x_count = line.list(&mut xs)?;
    let mut ys = [0u16; 100];
    let y_count = line.list(&mut ys)?;
    let mut sizes = [0u8; 100];
    let size_count = line.list(&mut sizes)?;
    let mut tx_types = [0u8; 100];
    let tx_type_count = line.list(&mut tx_types)?;
    let mut lossless = [0u8; 100];
    let lossless_count = line.list(&mut lossless)?;
    let mut dcs = [0u16; 100];
    let dc_count = line.list(&mut dcs)?;
    let mut acs = [0u16; 100];
    let ac_count = line.list(&mut acs)?;
    let mut counts = [0u32; 100];
    let count_count = line.list(&mut counts)?;
    let mut tokens = [0i32; 20000];
    let token_count = line.list_by(&mut tokens, |x| Ok(token(x)))?;
    let lent = *line;
    let mut out = [0u8; 9000];
    let length = line.list(&mut out)?;
    let written = vbk_write::vbk_write(
        depth,
        width,
        height,
        &samples[..sample_count],
        &xs[..x_count],
        &ys[..y_count],
        &sizes[..size_count],
        &tx_types[..tx_type_count],
        &lossless[..lossless_count],
        &dcs[..dc_count],
        &acs[..ac_count],
        &counts[..count_count],
        &tokens[..token_count],
        &mut out[..length],
    );
    let (number, size) = match written {
        Ok(size) => (0, size),
        Err(refusal) => (u32::from(refusal), 0),
    };
    line.same_integer(number)?;
    line.same_integer(size)?;
    line.same_lent(lent, &out[..length])
}
