// Residuals of 16 bits added back into a plane, eight samples at a time: sums that stop at the ends of 16 bits, which are one instruction.
#![tactic(auto)]

ghost use Rattle.std.specs.Prelude.{◌≡◌, ℕ, min, ◌+◌, ◌-◌, ◌*◌, ◌/◌, ◌%◌, ◌≤◌, ◌<◌, pos, ◌+ℤ◌, length, get_or, replicate};
ghost use Rattle.whole.specs.Lists.{fill};
ghost use Rattle.whole.specs.Parts.{P, N};
ghost use Rattle.plane.specs.Place.{SamplesOf};
ghost use Rattle.plane.specs.Plane.{clip, plane_after};
ghost use Rattle.plane.specs.Inner.{row_after};
ghost use Rattle.narrow.specs.Tile.{place};

use plane::{Plane, Residuals};

// The positive part.
fn positive(r: i16) -> u16
    ensures { result ≡ P r }
{
    r.max(0) as u16
}

// The negative part, of the least number too.
fn negative(r: i16) -> u16
    ensures { result ≡ N r }
{
    r.min(0).unsigned_abs()
}

// A sample and its residual, clipped to 0 .. top: no number leaves 16 bits. By the two parts: `saturating_add_signed` takes half as long again.
fn clip(sample: u16, r: i16, top: u16) -> u16
    ensures { result ≡ clip top (pos sample +ℤ r) }
{
    sample
        .saturating_add(positive(r))
        .saturating_sub(negative(r))
        .min(top)
}

// Eight samples from `at` on with their residuals.
fn sums(samples: &[u16], at: usize, z: &[i16; 1024], from: usize, top: u16) -> [u16; 8]
    requires { (at + 8 ≤ length samples.now) × (from + 8 ≤ 1024) }
    ensures { result ≡ fill 8 (λ j. clip top (pos (get_or samples.now (at + j) 0) +ℤ get_or z.now (from + j) (pos 0))) (replicate 8 0) }
{
    let mut o = [0u16; 8];
    for j in 0..8usize {
        o[j] = clip(samples[at + j], z[from + j], top);
    }
    o
}

// All eight are made before the first is written, so that they go side by side.
fn add_eight(samples: &mut [u16], at: usize, z: &[i16; 1024], from: usize, top: u16)
    requires { (at + 8 ≤ length samples.old) × (from + 8 ≤ 1024) }
    ensures { (k : ℕ) → get_or samples.new k 0 ≡ row_after top (λ j. get_or z.now (from + j) (pos 0)) at 8 samples.old k }
{
    let o = sums(samples, at, z, from, top);
    for j in 0..8usize {
        samples[at + j] = o[j];
    }
}

// A rest that is cut off, one by one.
fn add_rest(samples: &mut [u16], at: usize, z: &[i16; 1024], from: usize, cols: usize, top: u16)
    requires { (at + cols ≤ length samples.old) × (from + cols ≤ 2048) × ((j : ℕ) → j < cols → from + j < 1024) }
    ensures { (k : ℕ) → get_or samples.new k 0 ≡ row_after top (λ j. get_or z.now (from + j) (pos 0)) at cols samples.old k }
{
    for j in 0..cols {
        let r = z[from + j];
        samples[at + j] = plane::clip(samples[at + j], r as i64, top);
    }
}

// Residuals that stand by strips of eight columns.
#[derive(Clone, Copy)]
struct Strips<'a> {
    z: &'a [i16; 1024],
    n0: usize,
}

impl<'a> Residuals for Strips<'a> {
    ghost residual = { λ s i j. get_or s.z.now (place s.n0 i j) (pos 0) };

    ghost has = { λ s i m. (s.n0 ≤ 32) × (i < s.n0) × (m ≤ s.n0) };

    // Eight columns of each strip.
    fn add_row(self, samples: &mut [u16], at: usize, i: usize, cols: usize, top: u16) {
        let n0 = self.n0;
        let eights = cols / 8;
        for q in 0..eights {
            add_eight(samples, at + 8 * q, self.z, 8 * n0 * q + 8 * i, top);
        }
        let done = 8 * eights;
        add_rest(
            samples,
            at + done,
            self.z,
            8 * n0 * eights + 8 * i,
            cols - done,
            top,
        );
    }
}

// The residuals of n0 rows and columns into the samples at (x, y), inside the plane or not.
pub fn add_back(
    samples: &mut [u16],
    plane: Plane,
    x: usize,
    y: usize,
    z: &[i16; 1024],
    n0: usize,
    top: u16,
)
    requires { SamplesOf plane samples.old × (n0 ≤ 32) }
    ensures { samples.new ≡ plane_after plane top x y n0 (λ i j. get_or z.now (place n0 i j) (pos 0)) samples.old }
{
    plane::add_block(samples, plane, x, y, Strips { z, n0 }, n0, top);
}
