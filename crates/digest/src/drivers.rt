// Calls of the two drivers, of the 32-bit engine and of the forward DCT.
use answers::Answer;

// Room for a block, and some numbers past the largest.
pub const ROOM: usize = 1040;

// How many numbers are lent: mostly those of the block.
pub fn lent(r: u64, size: u32) -> usize {
    if r % 16 == 0 {
        return (r / 16 % 1041) as usize;
    }
    draws::area(size)
}

// n for a size number.
pub fn exponent(size: u32) -> u32 {
    if size < 4 {
        return size + 2;
    }
    size - 4
}

// The digest after a call's answer and the block as the call leaves it.
fn call<F: FnOnce(&mut [i64], u32, u8, bool) -> Answer>(key: u64, digest: u64, drive: F) -> u64
    requires { F.IsAlwaysCallable drive }
{
    let mut room = [0i64; ROOM];
    let size = draws::size(draws::draw(key, 1));
    let count = draws::within(lent(draws::draw(key, 2), size), &room);
    let block = &mut room[..count];
    draws::fill(block, draws::draw(key, 5), draws::draw(key, 6) % 8);
    let tx_type = draws::tx_type(draws::draw(key, 3), size);
    let lossless = draws::lossless(draws::draw(key, 4), size);
    let answer = drive(block, exponent(size), tx_type, lossless);
    draws::feed_list(draws::feed(digest, u64::from(answers::code(answer))), block)
}

pub fn fast(key: u64, digest: u64) -> u64 {
    call(key, digest, idct::inverse_transform_2d)
}

pub fn reference(key: u64, digest: u64) -> u64 {
    call(key, digest, idct::inverse_transform_2d_reference)
}

pub fn engine32(key: u64, digest: u64) -> u64 {
    call(key, digest, idct32::inverse_transform_2d_32)
}

// The forward DCT has no type.
pub fn forward_dct(key: u64, digest: u64) -> u64 {
    call(
        key,
        digest,
        |block, n, _, _| fwd_dct::forward_dct_2d(block, n),
    )
}
