// The single steps of the fast engine, as straight-line code calls them: rotations by three products, permutations.
#![tactic(auto)]

ghost use Rattle.std.specs.Prelude.{◌≡◌, ℕ, ◌+◌, ◌*◌, ◌^◌, ◌≤◌, ◌<◌, length, get_or};
ghost use Rattle.whole.specs.Within.{Within};
ghost use Rattle.primitives.specs.Brev.{Brev};
ghost use Rattle.primitives.specs.Rotations.{turn_x, turn_y};
ghost use Rattle.steps.specs.Step.{Bf, Hd, Neg, Move, step};
ghost use Rattle.steps.specs.Inner.{Fine, Fine2};
ghost use Rattle.steps.specs.Step2.{SB, SH, step2};
ghost use Rattle.adst.specs.Inner.{arrays};

// Both values of B before rounding, by three products: (p + q) c stands in both. Where sine and cosine agree up to the sign, two are left.
fn turn(p: i64, q: i64, angle: i32) -> primitives::Rotated
    requires { Within (2 ^ 46) p × Within (2 ^ 46) q }
    ensures { (result.x ≡ turn_x p q angle) × (result.y ≡ turn_y p q angle) }
{
    let c = primitives::cos64(angle);
    let s = primitives::sin64(angle);
    let k = (p + q) * c;
    primitives::Rotated {
        x: k - q * (c + s),
        y: k + p * (s - c),
    }
}

// B(a, b, angle, flip) on t.
pub fn fb(t: &mut [i64; 32], a: usize, b: usize, angle: i32, flip: bool)
    requires { Fine (2 ^ 46) (Bf a b angle flip) t.old }
    ensures { t.new ≡ step (Bf a b angle flip) t.old }
{
    let r = turn(t[a], t[b], angle);
    let x = primitives::round2(r.x, 14);
    let y = primitives::round2(r.y, 14);
    if flip {
        t[a] = y;
        t[b] = x;
    } else {
        t[a] = x;
        t[b] = y;
    }
}

// H(a, b, flip) on t.
pub fn fh(t: &mut [i64; 32], a: usize, b: usize, flip: bool)
    requires { Fine (2 ^ 46) (Hd a b flip) t.old }
    ensures { t.new ≡ step (Hd a b flip) t.old }
{
    primitives::hadamard(t, a, b, flip);
}

// The permutation of the DCT, in place: t[i] and t[brev(n, i)] change places for each of the 2^n = h k numbers i below its reverse, so each
// pair once. Where n, h and k are literals, two loops of few turns unroll and every index folds; one of 32 turns would not.
pub fn permute(t: &mut [i64; 32], n: u32, h: usize, k: usize)
    requires { (n ≤ 5) × (h * k ≡ 2 ^ n) }
    ensures { t.new ≡ step (Move (2 ^ n) (Brev n)) t.old }
{
    for a in 0..h {
        for b in 0..k {
            let i = k * a + b;
            let j = primitives::brev(n, i);
            if i < j {
                let x = t[i];
                t[i] = t[j];
                t[j] = x;
            }
        }
    }
}

// SB(a, b, angle, flip): the values of a rotation of t, not rounded, into s.
pub fn fsb(t: &[i64; 32], s: &mut [i64; 16], a: usize, b: usize, angle: i32, flip: bool)
    requires { Fine2 (2 ^ 46) (SB a b angle flip) (arrays t.now s.old) }
    ensures { arrays t.now s.new ≡ step2 (SB a b angle flip) (arrays t.now s.old) }
{
    let r = turn(t[a], t[b], angle);
    let x = r.x;
    let y = r.y;
    if flip {
        s[a] = y;
        s[b] = x;
    } else {
        s[a] = x;
        s[b] = y;
    }
}

// SH(a, b): sum and difference of s, rounded, into t.
pub fn fsh(t: &mut [i64; 32], s: &[i64; 16], a: usize, b: usize)
    requires { Fine2 (2 ^ 46) (SH a b) (arrays t.old s.now) }
    ensures { arrays t.new s.now ≡ step2 (SH a b) (arrays t.old s.now) }
{
    primitives::sh(t, s, a, b);
}

// t[i] = -t[i].
pub fn fneg(t: &mut [i64; 32], i: usize)
    requires { Fine (2 ^ 46) (Neg i) t.old }
    ensures { t.new ≡ step (Neg i) t.old }
{
    t[i] = -t[i];
}

// t[i] = copy_t[from[i]] for each place of the table, which is lent: it folds away where the caller has it whole. With its length a const
// parameter the loop would unroll before that.
pub fn reorder(t: &mut [i64; 32], from: &[usize])
    requires { (length from.now ≤ 32) × ((i : ℕ) → i < length from.now → get_or from.now i 0 < 32) }
    ensures { t.new ≡ step (Move (length from.now) (λ i. get_or from.now i 0)) t.old }
{
    let copy_t = *t;
    for i in 0..from.len() {
        t[i] = copy_t[from[i]];
    }
}
