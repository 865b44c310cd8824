// VBK files written: mostly whole ones, some of lists that do not fit each other, some into too little room.
ghost use Rattle.std.specs.Prelude.{◌≤◌};

use crate::files::{flag, side};
use answers::Refusal;

// The lists of numbers, one a record: at most three, and room for one too many.
#[derive(Clone, Copy)]
struct Lists {
    xs: [u16; 4],
    ys: [u16; 4],
    sizes: [u8; 4],
    tx_types: [u8; 4],
    lossless: [u8; 4],
    dcs: [u16; 4],
    acs: [u16; 4],
    counts: [u32; 4],
}

// A number of two bytes of a record.
fn two(record: u64, place: u64) -> u16 {
    (draws::draw(record, place) % 65536) as u16
}

fn size(record: u64) -> u32 {
    draws::size(draws::draw(record, 1))
}

// A lossless byte, of two kinds as often, seldom of another.
fn lossless(record: u64) -> u8 {
    let even = draws::draw(record, 6) % 2 == 0;
    (flag(draws::draw(record, 5), even) % 256) as u8
}

// How many tokens a record brings: those of its size, once in 64 another number.
fn brought(record: u64) -> u32 {
    let r = draws::draw(record, 9);
    if r % 64 == 0 {
        return (r / 64 % 1025) as u32;
    }
    draws::area(size(record)) as u32
}

impl Lists {
    fn drawn(key: u64) -> Lists {
        let records = [0, 1, 2, 3u64].map(|i| draws::draw(key, i));
        Lists {
            xs: records.map(|r| two(r, 2)),
            ys: records.map(|r| two(r, 3)),
            sizes: records.map(|r| (size(r) % 256) as u8),
            tx_types: records.map(|r| (draws::draw(r, 4) % 256) as u8),
            lossless: records.map(lossless),
            dcs: records.map(|r| two(r, 7)),
            acs: records.map(|r| two(r, 8)),
            counts: records.map(brought),
        }
    }
}

// How many entries of each list are lent.
#[derive(Clone, Copy)]
struct Lent {
    odd: u64,
    records: u64,
}

impl Lent {
    // Of list `list`: one a record, once in sixteen one more in one of the eight lists.
    fn of(self, list: u64) -> usize
        ensures { result ≤ 4 }
    {
        let count = (self.records % 4) as usize;
        if self.odd % 16 == 0 && self.odd / 16 % 8 == list {
            return count + 1;
        }
        count
    }
}

// All tokens that the records bring which are lent, once in 64 one more.
fn tokens_lent(r: u64, counts: &[u32]) -> usize {
    let mut total = 0u64;
    for count in counts {
        total = total.wrapping_add(u64::from(*count));
    }
    if r % 64 == 0 {
        return total.wrapping_add(1) as usize;
    }
    total as usize
}

// A token: any number from 0 on, or one of three below it.
fn token(r: u64) -> i32 {
    match r % 8 {
        0 => i32::MIN,
        1 => -1,
        2 => -74565,
        _ => (r / 8 % 2147483648) as i32,
    }
}

// The room that is lent: mostly enough.
fn room_lent(r: u64) -> usize {
    if r % 4 == 0 {
        return (r / 4 % 1024) as usize;
    }
    16384
}

// The answer, the length, the file and the sixteen bytes behind it.
fn feed_written(digest: u64, written: Result<usize, Refusal>, out: &[u8]) -> u64 {
    let (answer, length) = match written {
        Ok(length) => (0, length),
        Err(refusal) => (u32::from(refusal), 0),
    };
    let answered = draws::feed(digest, u64::from(answer));
    let measured = draws::feed(answered, length as u64);
    let shown = draws::within(length.wrapping_add(16), out);
    draws::feed_list(measured, &out[..shown])
}

// The call on the lists, into a lent room.
fn written(
    key: u64,
    lists: &Lists,
    samples: &[u16],
    tokens: &[i32],
    out: &mut [u8],
) -> Result<usize, Refusal> {
    let lent = Lent {
        odd: draws::draw(key, 8),
        records: draws::draw(key, 7),
    };
    vbk_write::vbk_write(
        (draws::depth(draws::draw(key, 3)) % 256) as u8,
        (side(draws::draw(key, 1)) % 65536) as u16,
        (side(draws::draw(key, 2)) % 65536) as u16,
        samples,
        &lists.xs[..lent.of(0)],
        &lists.ys[..lent.of(1)],
        &lists.sizes[..lent.of(2)],
        &lists.tx_types[..lent.of(3)],
        &lists.lossless[..lent.of(4)],
        &lists.dcs[..lent.of(5)],
        &lists.acs[..lent.of(6)],
        &lists.counts[..lent.of(7)],
        tokens,
        out,
    )
}

pub fn write(key: u64, digest: u64) -> u64 {
    let lists = Lists::drawn(draws::draw(key, 6));
    let lent = Lent {
        odd: draws::draw(key, 8),
        records: draws::draw(key, 7),
    };
    let mut tokens = [0i32; 4096];
    let token_key = draws::draw(key, 9);
    draws::fill_by(&mut tokens, |i| token(draws::draw(token_key, i)));
    let asked = tokens_lent(draws::draw(key, 10), &lists.counts[..lent.of(7)]);
    let token_count = draws::within(asked, &tokens);
    let mut samples = [0u16; 256];
    draws::fill_samples(&mut samples, draws::draw(key, 4), draws::draw(key, 5) % 4);
    let area = draws::product(side(draws::draw(key, 1)), side(draws::draw(key, 2)));
    let sample_count = draws::within(area as usize, &samples);
    // what is not written stays as it is here
    let mut room = [165u8; 16384];
    let room_count = draws::within(room_lent(draws::draw(key, 11)), &room);
    let out = &mut room[..room_count];
    let made = written(
        key,
        &lists,
        &samples[..sample_count],
        &tokens[..token_count],
        out,
    );
    feed_written(digest, made, out)
}
