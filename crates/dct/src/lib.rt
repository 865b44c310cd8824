#![tactic(auto, using(whole::proofs::Steps::loops))]

ghost use Rattle.std.specs.Prelude.{◌≡◌, true, ℕ, ◌+◌, ◌-◌, ◌*◌, ◌/◌, ◌^◌, ◌≤◌, ◌<◌, pos, ◌-ℤ◌, ◌+ℤ◌};
ghost use Rattle.whole.specs.Steps.{run, each};
ghost use Rattle.whole.specs.Inner.{Ok};
ghost use Rattle.primitives.specs.Brev.{Brev};
ghost use Rattle.steps.specs.Step.{Move, step};
ghost use Rattle.steps.specs.Inner.{Fine};
ghost use Rattle.dct.specs.Dct.{turn4a, turn4b, turn5a, turn5b, steps2, steps3, steps4, steps5, steps6, steps7, tail, dct_steps};

use answers::side;
use primitives::{brev, butterfly, hadamard};

// The permutation, §8.7.1.2: t[i] = copy_t[brev(n, i)].
pub fn idct_permute(t: &mut [i64; 32], n: u32)
    requires { (2 ≤ n) × (n ≤ 5) }
    ensures { t.new ≡ step (Move (2 ^ n) (Brev n)) t.old }
{
    let copy_t = *t;
    for i in 0..side(n) {
        t[i] = copy_t[brev(n, i)];
    }
}

// The angle of step 2.
fn angle2(x: usize) -> i32
    requires { x < 32 }
    ensures { result ≡ pos 32 -ℤ pos (Brev 5 x) }
{
    32 - brev(5, x) as i32
}

// 2. B(n1 + i, n0 - 1 - i, 32 - brev(5, n1 + i), 0) for i = 0 to n2 - 1.
fn stage2(t: &mut [i64; 32], n0: usize)
    requires { (4 ≤ n0) × (n0 ≤ 32) × Ok step (Fine (2 ^ 46)) (steps2 n0) t.old }
    ensures { t.new ≡ run step (steps2 n0) t.old }
{
    for i in 0..n0 / 4 {
        let angle = angle2(n0 / 2 + i);
        butterfly(t, n0 / 2 + i, n0 - 1 - i, angle, false);
    }
}

// 3. n of 3 or more: H(n1 + 4i + 2j, n1 + 1 + 4i + 2j, j) for i = 0 to n3 - 1, j = 0 to 1.
fn stage3(t: &mut [i64; 32], n: u32, n0: usize)
    requires { (4 ≤ n0) × (n0 ≤ 32) × Ok step (Fine (2 ^ 46)) (steps3 n n0) t.old }
    ensures { t.new ≡ run step (steps3 n n0) t.old }
{
    if n < 3 {
        return;
    }
    for i in 0..n0 / 8 {
        for j in 0..2 {
            hadamard(
                t,
                n0 / 2 + 4 * i + 2 * j,
                n0 / 2 + 1 + 4 * i + 2 * j,
                j != 0,
            );
        }
    }
}

// The angle of step 4a.
fn angle4(i: usize, j: usize) -> i32
    requires { (i < 2) × (j < 2) }
    ensures { result ≡ pos 28 -ℤ pos (16 * i) +ℤ pos (56 * j) }
{
    (28 + 56 * j - 16 * i) as i32
}

// 4a. n = 5: B(n0 - n + 3 - n2 j - 4i, n1 + n - 4 + n2 j + 4i, 28 - 16i + 56j, 1) for i = 0 to 1, j = 0 to 1.
fn stage4a(t: &mut [i64; 32])
    requires { Ok step (Fine (2 ^ 46)) (each 2 (λ i. each 2 (turn4a 5 32 i))) t.old }
    ensures { t.new ≡ run step (each 2 (λ i. each 2 (turn4a 5 32 i))) t.old }
{
    for i in 0..2 {
        for j in 0..2 {
            let angle = angle4(i, j);
            butterfly(t, 30 - 8 * j - 4 * i, 17 + 8 * j + 4 * i, angle, true);
        }
    }
}

// 4b. n = 5: H(n1 + n3 j + i, n1 + n2 - 5 + n3 j - i, j & 1) for i = 0 to 1, j = 0 to 3.
fn stage4b(t: &mut [i64; 32])
    requires { Ok step (Fine (2 ^ 46)) (each 2 (λ i. each 4 (turn4b 32 i))) t.old }
    ensures { t.new ≡ run step (each 2 (λ i. each 4 (turn4b 32 i))) t.old }
{
    for i in 0..2 {
        for j in 0..4 {
            hadamard(t, 16 + 4 * j + i, 19 + 4 * j - i, j % 2 != 0);
        }
    }
}

// 4. n = 5: 4a, then 4b.
fn stage4(t: &mut [i64; 32], n: u32)
    requires { Ok step (Fine (2 ^ 46)) (steps4 n (2 ^ n)) t.old }
    ensures { t.new ≡ run step (steps4 n (2 ^ n)) t.old }
{
    if n != 5 {
        return;
    }
    stage4a(t);
    stage4b(t);
}

// 5a. n of 4 or more: B(n0 - n + 2 - i - n2 j, n1 + n - 3 + i + n2 j, 24 + 48j, 1) for i = 0 to 0, for n = 5 to 1, j = 0 to 1.
#[tactic(auto, using(crate::proofs::Dct::quarter, whole::proofs::Steps::loops))]
fn stage5a(t: &mut [i64; 32], n: usize, n0: usize)
    requires { (4 ≤ n) × (n ≤ 5) × (16 ≤ n0) × (n0 ≤ 32) × Ok step (Fine (2 ^ 46)) (each (n / 5 + 1) (λ i. each 2 (turn5a n n0 i))) t.old }
    ensures { t.new ≡ run step (each (n / 5 + 1) (λ i. each 2 (turn5a n n0 i))) t.old }
{
    for i in 0..n / 5 + 1 {
        for j in 0..2 {
            let angle = (24 + 48 * j) as i32;
            butterfly(
                t,
                n0 - n + 2 - i - n0 / 4 * j,
                n0 / 2 + n - 3 + i + n0 / 4 * j,
                angle,
                true,
            );
        }
    }
}

// 5b. n of 4 or more: H(n1 + n2 j + i, n1 + n2 - 1 + n2 j - i, j & 1) for i = 0 to 2n - 7, j = 0 to 1.
#[tactic(auto, using(crate::proofs::Dct::quarter, whole::proofs::Steps::loops))]
fn stage5b(t: &mut [i64; 32], n: usize, n0: usize)
    requires { (4 ≤ n) × (n ≤ 5) × (16 ≤ n0) × (n0 ≤ 32) × Ok step (Fine (2 ^ 46)) (each (2 * n - 6) (λ i. each 2 (turn5b n0 i))) t.old }
    ensures { t.new ≡ run step (each (2 * n - 6) (λ i. each 2 (turn5b n0 i))) t.old }
{
    for i in 0..2 * n - 6 {
        for j in 0..2 {
            hadamard(
                t,
                n0 / 2 + n0 / 4 * j + i,
                n0 / 2 + n0 / 4 - 1 + n0 / 4 * j - i,
                j % 2 != 0,
            );
        }
    }
}

// 5. n of 4 or more: 5a, then 5b.
fn stage5(t: &mut [i64; 32], n: u32, n0: usize)
    requires { (n ≤ 5) × (4 ≤ n → 16 ≤ n0) × (n0 ≤ 32) × Ok step (Fine (2 ^ 46)) (steps5 n n0) t.old }
    ensures { t.new ≡ run step (steps5 n n0) t.old }
{
    if n < 4 {
        return;
    }
    stage5a(t, n as usize, n0);
    stage5b(t, n as usize, n0);
}

// 6. n of 3 or more: B(n0 - n3 - 1 - i, n1 + n3 + i, 16, 1) for i = 0 to n3 - 1.
fn stage6(t: &mut [i64; 32], n: u32, n0: usize)
    requires { (4 ≤ n0) × (n0 ≤ 32) × Ok step (Fine (2 ^ 46)) (steps6 n n0) t.old }
    ensures { t.new ≡ run step (steps6 n n0) t.old }
{
    if n < 3 {
        return;
    }
    for i in 0..n0 / 8 {
        butterfly(t, n0 - n0 / 8 - 1 - i, n0 / 2 + n0 / 8 + i, 16, true);
    }
}

// 7. H(i, n0 - 1 - i, 0) for i = 0 to n1 - 1.
fn stage7(t: &mut [i64; 32], n0: usize)
    requires { (4 ≤ n0) × (n0 ≤ 32) × Ok step (Fine (2 ^ 46)) (steps7 n0) t.old }
    ensures { t.new ≡ run step (steps7 n0) t.old }
{
    for i in 0..n0 / 2 {
        hadamard(t, i, n0 - 1 - i, false);
    }
}

// Steps 2 to 7.
fn stages(t: &mut [i64; 32], n: u32)
    requires { (2 ≤ n) × (n ≤ 5) × Ok step (Fine (2 ^ 46)) (tail n) t.old }
    ensures { t.new ≡ run step (tail n) t.old }
{
    let n0 = side(n);
    stage2(t, n0);
    stage3(t, n, n0);
    stage4(t, n);
    stage5(t, n, n0);
    stage6(t, n, n0);
    stage7(t, n0);
}

// The recursive process, §8.7.1.3, of the permuted numbers: n falls to 2.
pub fn inverse_dct(mut t: [i64; 32], n: u32) -> [i64; 32]
    requires { (2 ≤ n) × (n ≤ 5) × Ok step (Fine (2 ^ 46)) (dct_steps n) t }
    ensures { result ≡ run step (dct_steps n) t }
{
    if n == 2 {
        butterfly(&mut t, 0, 1, 16, true);
    } else {
        t = inverse_dct(t, n - 1);
    }
    stages(&mut t, n);
    t
}
