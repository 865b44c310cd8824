#![tactic(auto)]

ghost use Rattle.std.specs.Prelude.{◌≡◌, ℕ, ℤ, ◌+◌, ◌*◌, ◌^◌, ◌≤◌, ◌<◌, pos, ◌+ℤ◌, length, get_or};
ghost use Rattle.whole.specs.Parts.{P};
ghost use Rattle.whole.specs.Within.{Within};
ghost use Rattle.whole.specs.Inner.{AllWithin};
ghost use Rattle.answers.specs.Limits.{SIDE_LIMIT};
ghost use Rattle.plane.specs.Place.{place_of, SamplesOf, cut};
ghost use Rattle.plane.specs.Plane.{clip, plane_after};
ghost use Rattle.plane.specs.Inner.{row_after};

// A plane's width and height, and how far a line is from the next. Its samples are lent beside it.
#[derive(Clone, Copy)]
pub struct Plane {
    pub width: usize,
    pub height: usize,
    pub stride: usize,
}

// The place of the sample of a row and column.
pub fn place(plane: Plane, row: usize, column: usize) -> usize
    requires { (plane.stride ≤ SIDE_LIMIT) × (row ≤ SIDE_LIMIT) × (column ≤ SIDE_LIMIT) }
    ensures { result ≡ place_of plane row column }
{
    row * plane.stride + column
}

// Of n rows or columns from `start` on, how many lie in a plane that has `count` of them.
pub fn cut(count: usize, start: usize, n: usize) -> usize
    ensures { result ≡ cut count start n }
{
    n.min(count.saturating_sub(start))
}

// A sample and its residual, clipped to 0 .. top.
pub fn clip(sample: u16, residual: i64, top: u16) -> u16
    requires { Within (2 ^ 62) residual }
    ensures { result ≡ clip top (pos sample +ℤ residual) }
{
    let v = (i64::from(sample) + residual).max(0);
    v.min(i64::from(top)) as u16
}

// The residuals of a block, in whatever order they stand.
pub trait Residuals: Copy {
    // That of row i, column j.
    ghost residual: { Self → ℕ → ℕ → ℤ };

    // Row i is there, with its first m columns.
    ghost has: { Self → ℕ → ℕ → Type 0 };

    // Row i into `cols` samples from `at` on.
    fn add_row(self, samples: &mut [u16], at: usize, i: usize, cols: usize, top: u16)
        requires { (at + cols ≤ length samples.old) × has self i cols }
        ensures { (k : ℕ) → get_or samples.new k 0 ≡ row_after top (residual self i) at cols samples.old k };
}

// Residuals that stand row by row, each row `step` past the one before.
#[derive(Clone, Copy)]
pub struct Lines<'a> {
    pub residual: &'a [i64],
    pub step: usize,
}

impl<'a> Residuals for Lines<'a> {
    ghost residual = { λ s i j. get_or s.residual.now (i * s.step + j) (pos 0) };

    ghost has = { λ s i m. (i ≤ 32) × (s.step ≤ 32) × (i * s.step + m ≤ length s.residual.now) × AllWithin (2 ^ 62) s.residual.now };

    fn add_row(self, samples: &mut [u16], at: usize, i: usize, cols: usize, top: u16) {
        let from = i * self.step;
        for j in 0..cols {
            samples[at + j] = clip(samples[at + j], self.residual[from + j], top);
        }
    }
}

// Residuals into the samples of n0 rows and columns at (x, y), of which the plane has `rows` and `cols`.
pub fn add_each_row<R: Residuals>(
    samples: &mut [u16],
    plane: Plane,
    x: usize,
    y: usize,
    residuals: R,
    n0: usize,
    rows: usize,
    cols: usize,
    top: u16,
)
    requires samples_of { SamplesOf plane samples.old × (x < plane.width) × (rows ≡ cut plane.height y n0) × (cols ≡ cut plane.width x n0) }
    requires whole { (i m : ℕ) → i < n0 → m ≤ n0 → R.has residuals i m }
    ensures { samples.new ≡ plane_after plane top x y n0 (R.residual residuals) samples.old }
{
    for i in 0..rows {
        residuals.add_row(samples, place(plane, y + i, x), i, cols, top);
    }
}

// The same at any place, inside the plane or not.
pub fn add_block<R: Residuals>(
    samples: &mut [u16],
    plane: Plane,
    x: usize,
    y: usize,
    residuals: R,
    n0: usize,
    top: u16,
)
    requires samples_of { SamplesOf plane samples.old }
    requires whole { (i m : ℕ) → i < n0 → m ≤ n0 → R.has residuals i m }
    ensures { samples.new ≡ plane_after plane top x y n0 (R.residual residuals) samples.old }
{
    let cols = cut(plane.width, x, n0);
    if cols == 0 {
        return;
    }
    add_each_row(
        samples,
        plane,
        x,
        y,
        residuals,
        n0,
        cut(plane.height, y, n0),
        cols,
        top,
    );
}

// Rows of residuals, each `step` past the one before, into the samples of n0 rows and columns at (x, y) as far as the plane has them.
pub fn add_rows(
    samples: &mut [u16],
    plane: Plane,
    x: usize,
    y: usize,
    residual: &[i64],
    step: usize,
    n0: usize,
    rows: usize,
    cols: usize,
    top: u16,
)
    requires samples_of { SamplesOf plane samples.old × (x < plane.width) × (rows ≡ cut plane.height y n0) × (cols ≡ cut plane.width x n0) }
    requires n0_bound { (n0 ≤ 32) × (step ≤ 32) × ((i j : ℕ) → i < n0 → j < n0 → i * step + j < length residual.now) × AllWithin (2 ^ 62) residual.now }
    ensures { samples.new ≡ plane_after plane top x y n0 (λ i j. get_or residual.now (i * step + j) (pos 0)) samples.old }
{
    add_each_row(
        samples,
        plane,
        x,
        y,
        Lines { residual, step },
        n0,
        rows,
        cols,
        top,
    );
}

// The same at any place, inside the plane or not.
pub fn add_back(
    samples: &mut [u16],
    plane: Plane,
    x: usize,
    y: usize,
    residual: &[i64],
    step: usize,
    n0: usize,
    top: u16,
)
    requires { SamplesOf plane samples.old × (n0 ≤ 32) × (step ≤ 32) × ((i j : ℕ) → i < n0 → j < n0 → i * step + j < length residual.now) × AllWithin (2 ^ 62) residual.now }
    ensures { samples.new ≡ plane_after plane top x y n0 (λ i j. get_or residual.now (i * step + j) (pos 0)) samples.old }
{
    add_block(samples, plane, x, y, Lines { residual, step }, n0, top);
}
