// Calls of reconstruct_block and reconstruct_block_report, on planes of 0 to 40 by 0 to 40 samples, with up to 8 of padding in a line.
use crate::drivers::ROOM;
use crate::reports;
use answers::Answer;
use plane::Plane;
use quant::{AcQuant, DcQuant};

// A side: 0 to 40, or one above every plane.
fn side(r: u64) -> usize {
    if r % 64 == 0 {
        return 65536;
    }
    (r / 64 % 41) as usize
}

// How far a line is from the next: the width, with padding in every second plane; now and then any number.
fn stride(r: u64, width: usize) -> usize {
    if r % 32 == 0 {
        return (r / 32 % 70000) as usize;
    }
    if 40 < width || r % 2 == 0 {
        return width;
    }
    width + (r / 32 % 9) as usize
}

// How many samples are lent: mostly those of the plane.
fn lent(r: u64, plane: Plane) -> usize {
    if r % 32 == 0 {
        return (r / 32 % 1921) as usize;
    }
    if 48 < plane.stride || 40 < plane.height {
        return 0;
    }
    draws::product(plane.stride as u64, plane.height as u64) as usize
}

// A place: mostly in or near the plane.
fn place(r: u64) -> usize {
    match r % 32 {
        0 => (r / 32) as usize,
        1 => usize::MAX,
        _ => (r / 32 % 48) as usize,
    }
}

// Tokens that are lent: mostly those of the block.
pub fn tokens_lent(r: u64, size: u32) -> usize {
    if r % 32 == 0 {
        return (r / 32 % 1041) as usize;
    }
    draws::area(size)
}

// A scale of tokens: mostly small ones.
pub fn scale(r: u64) -> u64 {
    match r % 8 {
        0 => 4,
        1 => 5,
        _ => r / 8 % 4,
    }
}

fn drawn_plane(key: u64) -> Plane {
    let width = side(draws::draw(key, 15));
    Plane {
        width,
        height: side(draws::draw(key, 16)),
        stride: stride(draws::draw(key, 18), width),
    }
}

// What a call is given beside its lists.
#[derive(Clone, Copy)]
struct Block {
    plane: Plane,
    x: usize,
    y: usize,
    size: u32,
    dc: DcQuant,
    ac: AcQuant,
    tx_type: u8,
    lossless: bool,
    depth: u32,
}

impl Block {
    fn drawn(key: u64) -> Block {
        let size = draws::size(draws::draw(key, 1));
        Block {
            plane: drawn_plane(key),
            x: place(draws::draw(key, 11)),
            y: place(draws::draw(key, 12)),
            size,
            dc: DcQuant(draws::quantizer(draws::draw(key, 13))),
            ac: AcQuant(draws::quantizer(draws::draw(key, 14))),
            tx_type: draws::tx_type(draws::draw(key, 3), size),
            lossless: draws::lossless(draws::draw(key, 4), size),
            depth: draws::depth(draws::draw(key, 7)),
        }
    }

    fn reconstruct(self, samples: &mut [u16], tokens: &[i64]) -> Answer {
        reconstruct::reconstruct_block(
            samples,
            self.plane,
            self.x,
            self.y,
            self.size,
            tokens,
            self.dc,
            self.ac,
            self.tx_type,
            self.lossless,
            self.depth,
        )
    }

    fn reconstruct_report(
        self,
        samples: &mut [u16],
        tokens: &[i64],
        counts: &mut [u32; 44],
        sums: &mut [u64; 44],
    ) -> Answer {
        report::reconstruct_block_report(
            samples,
            self.plane,
            self.x,
            self.y,
            self.size,
            tokens,
            self.dc,
            self.ac,
            self.tx_type,
            self.lossless,
            self.depth,
            counts,
            sums,
        )
    }
}

// A call on drawn samples and tokens: the digest after its answer and the samples as it leaves them.
fn call<F: FnOnce(Block, &mut [u16], &[i64]) -> Answer>(key: u64, digest: u64, run: F) -> u64
    requires { F.IsAlwaysCallable run }
{
    let block = Block::drawn(key);
    let mut tokens = [0i64; ROOM];
    let token_count = draws::within(tokens_lent(draws::draw(key, 2), block.size), &tokens);
    let tokens = &mut tokens[..token_count];
    draws::fill(tokens, draws::draw(key, 5), scale(draws::draw(key, 6)));
    let mut samples = [0u16; 1920];
    let count = draws::within(lent(draws::draw(key, 8), block.plane), &samples);
    let samples = &mut samples[..count];
    draws::fill_samples(samples, draws::draw(key, 9), draws::draw(key, 10) % 4);
    let answer = run(block, samples, tokens);
    draws::feed_list(
        draws::feed(digest, u64::from(answers::code(answer))),
        samples,
    )
}

pub fn reconstruct(key: u64, digest: u64) -> u64 {
    call(key, digest, |block, samples, tokens| {
        block.reconstruct(samples, tokens)
    })
}

// With a report, which is fed to the digest behind the samples.
pub fn reconstruct_report(key: u64, digest: u64) -> u64 {
    let mut counts = [0u32; 44];
    let mut sums = [0u64; 44];
    reports::fill(&mut counts, &mut sums, draws::draw(key, 17));
    let called = call(key, digest, |block, samples, tokens| {
        block.reconstruct_report(samples, tokens, &mut counts, &mut sums)
    });
    reports::feed(called, &counts, &sums)
}
