// The tokens of a block in a report: for each class of magnitudes how many there are, and the sum of their magnitudes.
ghost use Rattle.std.specs.Prelude.{◌≡◌, ◌+◌, ◌≤◌, length};
ghost use Rattle.answers.specs.Sizes.{area};
ghost use Rattle.report.specs.Classes.{one, itself};
ghost use Rattle.report.specs.Inner.{IsClass, Noted, Room, Taken};

use answers::magnitude;
use blocks::any_live;

// The class of a magnitude.
fn class_of(m: u64) -> usize
    ensures { IsClass m result }
{
    match m {
        0 => 0,
        1 => 1,
        2 => 2,
        3 => 3,
        4 => 4,
        5..=6 => 5,
        7..=10 => 6,
        11..=18 => 7,
        19..=34 => 8,
        35..=66 => 9,
        67.. => 10,
    }
}

// Eight tokens one by one; zeros as a whole, because most tokens are zeros.
fn count_eight(
    counts: &mut [u32; 44],
    sums: &mut [u64; 44],
    size: usize,
    tokens: &[i64],
    start: usize,
)
    requires { (size ≤ 3) × (start + 8 ≤ length tokens.now) × Taken tokens.now × Room 8 counts.old sums.old }
    ensures { Noted one size start (start + 8) tokens.now counts.old counts.new × Noted itself size start (start + 8) tokens.now sums.old sums.new }
{
    let first = size * 11;
    if !any_live(tokens, start, 8) {
        counts[first] = counts[first] + 8;
        return;
    }
    for i in 0..8usize {
        let m = magnitude(tokens[start + i]);
        let k = first + class_of(m);
        counts[k] = counts[k] + 1;
        sums[k] = sums[k] + m;
    }
}

// All tokens of a block.
pub fn count_tokens(counts: &mut [u32; 44], sums: &mut [u64; 44], size: u32, tokens: &[i64])
    requires { (size ≤ 3) × (length tokens.now ≡ area (size + 2)) × Taken tokens.now × Room (length tokens.now) counts.old sums.old }
    ensures { Noted one size 0 (length tokens.now) tokens.now counts.old counts.new × Noted itself size 0 (length tokens.now) tokens.now sums.old sums.new }
{
    for i in 0..tokens.len() / 8 {
        count_eight(counts, sums, size as usize, tokens, i * 8);
    }
}
