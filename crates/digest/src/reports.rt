// A report, for the calls of reconstruct_block_report: 44 counts and 44 sums.

// Counts below 2^26, which all have room together, and sums that are a part of what they may be.
fn draw(counts: &mut [u32; 44], sums: &mut [u64; 44], key: u64) {
    for (i, (count, sum)) in counts.iter_mut().zip(sums.iter_mut()).enumerate() {
        let r = draws::draw(key, i as u64);
        let drawn = r % 67108864;
        *count = drawn as u32;
        *sum = drawn * 262210 / (r / 67108864 % 16 + 1);
    }
}

// The greatest sum of a count, and as much more.
fn sum_of(count: u32, more: u64) -> u64 {
    u64::from(count) * 262210 + more % 2
}

// A drawn report; once in four a count that leaves no room, or a sum at its limit or one past it.
pub fn fill(counts: &mut [u32; 44], sums: &mut [u64; 44], key: u64) {
    draw(counts, sums, key);
    let r = draws::draw(key, 44);
    let k = (r / 8 % 44) as usize;
    match r % 8 {
        0 => counts[k] = u32::MAX,
        1 => sums[k] = sum_of(counts[k], r / 512),
        _ => {}
    }
}

// The digest after a report: how many counts there are and each, and the same of the sums.
pub fn feed(digest: u64, counts: &[u32; 44], sums: &[u64; 44]) -> u64 {
    let counted = draws::feed_list(digest, counts);
    draws::feed_list(counted, &sums.map(|sum| sum.cast_signed()))
}
