// Numbers drawn from a seed, with no state: number `place` of a key is the same on every host, whatever was drawn before. A call's own
// key comes from its seed, kind and index, so that kinds and calls can be added without moving the others. And the digest: one number
// of 64 bits from all numbers that it was fed.
#![tactic(auto)]

ghost use Rattle.std.specs.Prelude.{◌≡◌, ◌<◌, ◌≤◌, ℕ, length, take, slice_index_or};

// Each half of a number times an odd constant, the halves of the second product crossed over.
fn stir(x: u64) -> u64 {
    let low = (x % 4294967296) * 2654435761;
    let high = (x / 4294967296) * 2246822519;
    low ^ high.rotate_left(32)
}

// Number `place` of a key.
pub fn draw(key: u64, place: u64) -> u64 {
    stir(stir(stir(key.wrapping_add(place)) ^ 11400714819323198485))
}

// The digest after one number more.
pub fn feed(digest: u64, x: u64) -> u64 {
    stir(digest.wrapping_add(11400714819323198485) ^ x)
}

// The digest after a list of numbers: its length, and each as the 64 bits that a number with a sign is stored in.
pub fn feed_list<T: Copy + Into<i64>>(digest: u64, list: &[T]) -> u64 {
    let mut digest = feed(digest, list.len() as u64);
    for x in list {
        let number: i64 = (*x).into();
        digest = feed(digest, number.cast_unsigned());
    }
    digest
}

// A magnitude of a scale: 0 to 7 for small to beyond every limit.
pub fn magnitude(r: u64, scale: u64) -> u64
    ensures { result < 4294967296 }
{
    match scale {
        0 => r % 2,
        1 => r % 16,
        2 => r % 256,
        3 => r % 4096,
        4 => r % 65536,
        5 => r % 2097152,
        6 => r % 2147483649,
        _ => r % 4294967296,
    }
}

// The number below 0 of a magnitude.
fn below_zero(m: u64) -> i64
    requires { m < 4294967296 }
{
    -(m as i64)
}

// A number of a scale, with a sign; 0 but for `dense` of 256 draws.
pub fn number(r: u64, scale: u64, dense: u64) -> i64 {
    if dense <= r % 256 {
        return 0;
    }
    let m = magnitude(r / 512, scale);
    if r / 256 % 2 == 0 {
        return below_zero(m);
    }
    m as i64
}

// How many places of 256 are not 0: none, few, half or all of them.
pub fn density(r: u64) -> u64 {
    match r % 4 {
        0 => 8,
        1 => 64,
        2 => 128,
        _ => 256,
    }
}

// Numbers at the limits and one past them.
pub fn edge(r: u64) -> i64 {
    match r % 16 {
        0 => 2147483648,
        1 => -2147483648,
        2 => 2147483649,
        3 => -2147483649,
        4 => 8388608,
        5 => -8388608,
        6 => 8388609,
        7 => -8388609,
        8 => 16450,
        9 => -16451,
        10 => 65602,
        11 => -65603,
        12 => 262210,
        13 => -262211,
        14 => 9223372036854775807,
        _ => -9223372036854775807,
    }
}

// Puts what is made of each place there.
pub fn fill_by<T: Copy, F: Fn(u64) -> T>(list: &mut [T], make: F)
    requires { F.IsAlwaysCallable make }
    ensures len { length list.new ≡ length list.old }
    ensures made { (k : ℕ) (d : T) → k < length list.new → F.post make k (slice_index_or list.new k d) }
{
    for place in 0..list.len() {
        list[place] = make(place as u64);
    }
}

// Numbers of one scale and density; once in eight, an edge among the first sixteen.
pub fn fill(list: &mut [i64], key: u64, scale: u64)
    ensures { length list.new ≡ length list.old }
{
    let dense = density(draw(key, 1));
    fill_by(
        list,
        |place| number(draw(key, place.wrapping_add(16)), scale, dense),
    );
    let r = draw(key, 2);
    if r % 8 == 0 {
        if let Some(x) = list.get_mut((r / 8 % 16) as usize) {
            *x = edge(r / 128);
        }
    }
}

// A sample: 8, 10, 12 or 16 bits.
pub fn sample(r: u64, scale: u64) -> u16 {
    match scale {
        0 => (r % 256) as u16,
        1 => (r % 1024) as u16,
        2 => (r % 4096) as u16,
        _ => (r % 65536) as u16,
    }
}

// Samples of one number of bits.
pub fn fill_samples(list: &mut [u16], key: u64, scale: u64)
    ensures { length list.new ≡ length list.old }
{
    fill_by(list, |place| sample(draw(key, place), scale));
}

// The product of two numbers below 64.
pub fn product(a: u64, b: u64) -> u64 {
    (a % 64) * (b % 64)
}

// A depth: mostly 8, 10 or 12.
pub fn depth(r: u64) -> u32 {
    match r % 32 {
        0 => (r / 32 % 16) as u32,
        1 => 4294967295,
        _ => ((r / 32 % 3) * 2 + 8) as u32,
    }
}

// A size number: mostly 0 to 3, small ones more often.
pub fn size(r: u64) -> u32 {
    match r % 32 {
        0 => (r / 32 % 8) as u32,
        1 => 4294967295,
        2 | 3 => 3,
        4..=7 => 2,
        _ => (r / 32 % 2) as u32,
    }
}

// A type: mostly one that the size has.
pub fn tx_type(r: u64, size: u32) -> u8 {
    if r % 32 == 0 {
        return (r / 32 % 256) as u8;
    }
    if size == 3 {
        return 0;
    }
    (r / 32 % 4) as u8
}

// Lossless: seldom, but for small blocks.
pub fn lossless(r: u64, size: u32) -> bool {
    if size == 0 {
        return r % 4 == 0;
    }
    r % 64 == 0
}

// A quantizer: mostly 1 to 255, or 1 to 32,767.
pub fn quantizer(r: u64) -> i32 {
    match r % 32 {
        0 => 0,
        1 => 32768,
        2 => -4,
        3 => 32767,
        4 | 5 => (r / 32 % 32767 + 1) as i32,
        6 => 4,
        7 => 1,
        _ => (r / 32 % 255 + 1) as i32,
    }
}

// Numbers in a block of this size number; 16 where there is none.
pub fn area(size: u32) -> usize
    ensures { (0 < result) × (result ≤ 1024) }
{
    match size {
        1 => 64,
        2 => 256,
        3 => 1024,
        _ => 16,
    }
}

// As much of a list as there is, and at most `count`.
pub fn within<T>(count: usize, list: &[T]) -> usize
    ensures { (result ≤ length list.now) × (result ≡ length (take result list.now)) }
{
    count.min(list.len())
}
