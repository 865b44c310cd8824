// The fast inverse DCT: straight-line code over literal places.
#![tactic(auto)]

ghost use Rattle.std.specs.Prelude.{◌≡◌, ◌^◌, ◌≤◌};
ghost use Rattle.whole.specs.Steps.{run};
ghost use Rattle.whole.specs.Inner.{Ok};
ghost use Rattle.steps.specs.Step.{step};
ghost use Rattle.steps.specs.Inner.{Fine};
ghost use Rattle.dct.specs.Dct.{tail, dct_row, dct};

// Steps 2 to 7 for n = 2.
fn dct_level2(t: &mut [i64; 32])
    requires { Ok step (Fine (2 ^ 46)) (tail 2) t.old }
    ensures { t.new ≡ run step (tail 2) t.old }
{
    flat::fb(t, 2, 3, 24, false);
    flat::fh(t, 0, 3, false);
    flat::fh(t, 1, 2, false);
}

// Steps 2 to 7 for n = 3.
fn dct_level3(t: &mut [i64; 32])
    requires { Ok step (Fine (2 ^ 46)) (tail 3) t.old }
    ensures { t.new ≡ run step (tail 3) t.old }
{
    flat::fb(t, 4, 7, 28, false);
    flat::fb(t, 5, 6, 12, false);
    flat::fh(t, 4, 5, false);
    flat::fh(t, 6, 7, true);
    flat::fb(t, 6, 5, 16, true);
    flat::fh(t, 0, 7, false);
    flat::fh(t, 1, 6, false);
    flat::fh(t, 2, 5, false);
    flat::fh(t, 3, 4, false);
}

// Steps 2 to 7 for n = 4.
fn dct_level4(t: &mut [i64; 32])
    requires { Ok step (Fine (2 ^ 46)) (tail 4) t.old }
    ensures { t.new ≡ run step (tail 4) t.old }
{
    flat::fb(t, 8, 15, 30, false);
    flat::fb(t, 9, 14, 14, false);
    flat::fb(t, 10, 13, 22, false);
    flat::fb(t, 11, 12, 6, false);
    flat::fh(t, 8, 9, false);
    flat::fh(t, 10, 11, true);
    flat::fh(t, 12, 13, false);
    flat::fh(t, 14, 15, true);
    flat::fb(t, 14, 9, 24, true);
    flat::fb(t, 10, 13, 72, true);
    flat::fh(t, 8, 11, false);
    flat::fh(t, 12, 15, true);
    flat::fh(t, 9, 10, false);
    flat::fh(t, 13, 14, true);
    flat::fb(t, 13, 10, 16, true);
    flat::fb(t, 12, 11, 16, true);
    flat::fh(t, 0, 15, false);
    flat::fh(t, 1, 14, false);
    flat::fh(t, 2, 13, false);
    flat::fh(t, 3, 12, false);
    flat::fh(t, 4, 11, false);
    flat::fh(t, 5, 10, false);
    flat::fh(t, 6, 9, false);
    flat::fh(t, 7, 8, false);
}

// Steps 2 to 7 for n = 5.
fn dct_level5(t: &mut [i64; 32])
    requires { Ok step (Fine (2 ^ 46)) (tail 5) t.old }
    ensures { t.new ≡ run step (tail 5) t.old }
{
    flat::fb(t, 16, 31, 31, false);
    flat::fb(t, 17, 30, 15, false);
    flat::fb(t, 18, 29, 23, false);
    flat::fb(t, 19, 28, 7, false);
    flat::fb(t, 20, 27, 27, false);
    flat::fb(t, 21, 26, 11, false);
    flat::fb(t, 22, 25, 19, false);
    flat::fb(t, 23, 24, 3, false);
    flat::fh(t, 16, 17, false);
    flat::fh(t, 18, 19, true);
    flat::fh(t, 20, 21, false);
    flat::fh(t, 22, 23, true);
    flat::fh(t, 24, 25, false);
    flat::fh(t, 26, 27, true);
    flat::fh(t, 28, 29, false);
    flat::fh(t, 30, 31, true);
    flat::fb(t, 30, 17, 28, true);
    flat::fb(t, 22, 25, 84, true);
    flat::fb(t, 26, 21, 12, true);
    flat::fb(t, 18, 29, 68, true);
    flat::fh(t, 16, 19, false);
    flat::fh(t, 20, 23, true);
    flat::fh(t, 24, 27, false);
    flat::fh(t, 28, 31, true);
    flat::fh(t, 17, 18, false);
    flat::fh(t, 21, 22, true);
    flat::fh(t, 25, 26, false);
    flat::fh(t, 29, 30, true);
    flat::fb(t, 29, 18, 24, true);
    flat::fb(t, 21, 26, 72, true);
    flat::fb(t, 28, 19, 24, true);
    flat::fb(t, 20, 27, 72, true);
    flat::fh(t, 16, 23, false);
    flat::fh(t, 24, 31, true);
    flat::fh(t, 17, 22, false);
    flat::fh(t, 25, 30, true);
    flat::fh(t, 18, 21, false);
    flat::fh(t, 26, 29, true);
    flat::fh(t, 19, 20, false);
    flat::fh(t, 27, 28, true);
    flat::fb(t, 27, 20, 16, true);
    flat::fb(t, 26, 21, 16, true);
    flat::fb(t, 25, 22, 16, true);
    flat::fb(t, 24, 23, 16, true);
    flat::fh(t, 0, 31, false);
    flat::fh(t, 1, 30, false);
    flat::fh(t, 2, 29, false);
    flat::fh(t, 3, 28, false);
    flat::fh(t, 4, 27, false);
    flat::fh(t, 5, 26, false);
    flat::fh(t, 6, 25, false);
    flat::fh(t, 7, 24, false);
    flat::fh(t, 8, 23, false);
    flat::fh(t, 9, 22, false);
    flat::fh(t, 10, 21, false);
    flat::fh(t, 11, 20, false);
    flat::fh(t, 12, 19, false);
    flat::fh(t, 13, 18, false);
    flat::fh(t, 14, 17, false);
    flat::fh(t, 15, 16, false);
}

// The inverse DCT of 2^N numbers: the permutation, B(0, 1, 16, 1), then steps 2 to 7 for each size up to this.
pub fn idct_fast<const N: u32>(t: &mut [i64; 32])
    requires { (2 ≤ N) × (N ≤ 5) × Ok step (Fine (2 ^ 46)) (dct_row N) t.old }
    ensures { t.new ≡ dct N t.old }
{
    flat::permute(t, N, 1 << (N - N / 2), 1 << (N / 2));
    flat::fb(t, 0, 1, 16, true);
    dct_level2(t);
    if N >= 3 {
        dct_level3(t);
    }
    if N >= 4 {
        dct_level4(t);
    }
    if N >= 5 {
        dct_level5(t);
    }
}
