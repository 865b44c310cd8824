// Calls of row_summary with what a summary says of itself, of replace_token and of inverse_transform_2d_rows.
use crate::drivers::{ROOM, exponent, lent};
use crate::samples::{scale, tokens_lent};
use quant::{AcQuant, DcQuant};

// A row's number, and all bits set where there is none.
fn number(row: Option<u32>) -> u64 {
    row.map_or(u64::MAX, u64::from)
}

// The digest after an answer, a summary, and what the summary says of itself.
fn feed_rows(digest: u64, answer: u32, summary: u32) -> u64 {
    let a = draws::feed(draws::feed(digest, u64::from(answer)), u64::from(summary));
    let b = draws::feed(a, u64::from(summary::row_count(summary)));
    let c = draws::feed(b, number(summary::first_row(summary)));
    draws::feed(c, number(summary::last_row(summary)))
}

// 32 bits of a draw.
fn low(r: u64) -> u32 {
    (r % 4294967296) as u32
}

// The call on a filled block; under a refusal, a drawn summary.
pub fn row_summary(key: u64, digest: u64) -> u64 {
    let mut room = [0i64; ROOM];
    let size = draws::size(draws::draw(key, 1));
    let count = draws::within(lent(draws::draw(key, 2), size), &room);
    let block = &mut room[..count];
    draws::fill(block, draws::draw(key, 5), draws::draw(key, 6) % 8);
    match summary::row_summary(block, exponent(size)) {
        Ok(rows) => feed_rows(digest, 0, rows),
        Err(refusal) => feed_rows(digest, u32::from(refusal), low(draws::draw(key, 17))),
    }
}

// A place: mostly one of the block.
fn place(r: u64, size: u32) -> usize {
    match r % 32 {
        0 => (r / 32) as usize,
        1 => (r / 32 % 1025) as usize,
        _ => (r / 32) as usize % draws::area(size),
    }
}

// A token: zero every other time, and once in eight at a limit or past it.
fn token(r: u64, scale: u64) -> i64 {
    if r % 8 == 0 {
        return draws::edge(r / 8);
    }
    draws::number(r / 8, scale, 128)
}

// A block's own summary, and 0 where it has none.
fn own(block: &[i64], size: u32) -> u32 {
    summary::row_summary(block, exponent(size)).unwrap_or(0)
}

// The summary that is lent: once in four any number.
fn summary_lent(r: u64, block: &[i64], size: u32) -> u32 {
    if r % 4 == 0 {
        return low(r / 4);
    }
    own(block, size)
}

// The call on a filled block and a summary.
pub fn replace_token(key: u64, digest: u64) -> u64 {
    let mut room = [0i64; ROOM];
    let size = draws::size(draws::draw(key, 1));
    let count = draws::within(tokens_lent(draws::draw(key, 2), size), &room);
    let block = &mut room[..count];
    draws::fill(block, draws::draw(key, 5), draws::draw(key, 6) % 8);
    let mut rows = summary_lent(draws::draw(key, 9), block, size);
    let answer = summary::replace_token(
        block,
        &mut rows,
        size,
        place(draws::draw(key, 8), size),
        token(draws::draw(key, 10), scale(draws::draw(key, 11))),
        DcQuant(draws::quantizer(draws::draw(key, 13))),
        AcQuant(draws::quantizer(draws::draw(key, 14))),
        draws::depth(draws::draw(key, 7)),
    );
    let answered = draws::feed(digest, u64::from(answers::code(answer)));
    draws::feed(draws::feed_list(answered, block), u64::from(rows))
}

// The call on a filled block.
pub fn inverse_transform_2d_rows(key: u64, digest: u64) -> u64 {
    let mut room = [0i64; ROOM];
    let size = draws::size(draws::draw(key, 1));
    let count = draws::within(lent(draws::draw(key, 2), size), &room);
    let block = &mut room[..count];
    draws::fill(block, draws::draw(key, 5), draws::draw(key, 6) % 8);
    let tx_type = draws::tx_type(draws::draw(key, 3), size);
    let lossless = draws::lossless(draws::draw(key, 4), size);
    let driven = idct::inverse_transform_2d_rows(block, exponent(size), tx_type, lossless);
    let (answer, rows) = match driven {
        Ok(rows) => (0, rows.number()),
        Err(refusal) => (u32::from(refusal), 0),
    };
    let answered = draws::feed(digest, u64::from(answer));
    draws::feed_list(draws::feed(answered, u64::from(rows)), block)
}
