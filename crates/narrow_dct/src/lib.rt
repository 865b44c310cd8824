// The inverse DCT of a line of 16-bit numbers, in pieces that are small enough for the compiler to inline them into the lines of rows and of columns alike:
// only where a whole line is inlined do eight lines go side by side.
#![tactic(auto)]

ghost use Rattle.std.specs.Prelude.{◌≡◌, ◌*◌, ◌^◌, ◌≤◌};
ghost use Rattle.whole.specs.Steps.{run};
ghost use Rattle.whole.specs.Inner.{Ok};
ghost use Rattle.primitives.specs.Brev.{Brev};
ghost use Rattle.steps.specs.Step.{Move, step};
ghost use Rattle.dct.specs.Dct.{tail, dct_steps};
ghost use Rattle.narrow.specs.Inner.{Fine16};
ghost use Rattle.narrow_dct.specs.Inner.{first4, last4, turns5, first5, next5, last5, sums5};

// The permutation, in place: t[i] and t[brev(n, i)] change places for each of the 2^n = h k numbers i below its reverse, so each pair once.
// Where n, h and k are literals, two loops of few turns unroll and every index folds; one of 32 turns would not. Not one with `flat::permute`: the
// promise is over steps, whose lists are of ℤ, and one over any type would need them twice.
pub fn permute(t: &mut [i16; 32], n: u32, h: usize, k: usize)
    requires { (n ≤ 5) × (h * k ≡ 2 ^ n) }
    ensures { t.new ≡ step (Move (2 ^ n) (Brev n)) t.old }
{
    for a in 0..h {
        for b in 0..k {
            let i = k * a + b;
            let j = primitives::brev(n, i);
            if i < j {
                t.swap(i, j);
            }
        }
    }
}

// B(0, 1, 16, 1), then steps 2 to 7 for n = 2.
pub fn level2(t: &mut [i16; 32])
    requires { Ok step Fine16 (dct_steps 2) t.old }
    ensures { t.new ≡ run step (dct_steps 2) t.old }
{
    narrow::fb16(t, 0, 1, 11585, 11585, true);
    narrow::fb16(t, 2, 3, 6270, 15137, false);
    narrow::fh16(t, 0, 3, false);
    narrow::fh16(t, 1, 2, false);
}

// Steps 2 to 7 for n = 3.
pub fn level3(t: &mut [i16; 32])
    requires { Ok step Fine16 (tail 3) t.old }
    ensures { t.new ≡ run step (tail 3) t.old }
{
    narrow::fb16(t, 4, 7, 3196, 16069, false);
    narrow::fb16(t, 5, 6, 13623, 9102, false);
    narrow::fh16(t, 4, 5, false);
    narrow::fh16(t, 6, 7, true);
    narrow::fb16(t, 6, 5, 11585, 11585, true);
    narrow::fh16(t, 0, 7, false);
    narrow::fh16(t, 1, 6, false);
    narrow::fh16(t, 2, 5, false);
    narrow::fh16(t, 3, 4, false);
}

// Steps 2 to 5a for n = 4.
pub fn level4_first(t: &mut [i16; 32])
    requires { Ok step Fine16 first4 t.old }
    ensures { t.new ≡ run step first4 t.old }
{
    narrow::fb16(t, 8, 15, 1606, 16305, false);
    narrow::fb16(t, 9, 14, 12665, 10394, false);
    narrow::fb16(t, 10, 13, 7723, 14449, false);
    narrow::fb16(t, 11, 12, 15679, 4756, false);
    narrow::fh16(t, 8, 9, false);
    narrow::fh16(t, 10, 11, true);
    narrow::fh16(t, 12, 13, false);
    narrow::fh16(t, 14, 15, true);
    narrow::fb16(t, 14, 9, 6270, 15137, true);
    narrow::fb16(t, 10, 13, -15137, -6270, true);
}

// Steps 5b to 7 for n = 4.
pub fn level4_last(t: &mut [i16; 32])
    requires { Ok step Fine16 last4 t.old }
    ensures { t.new ≡ run step last4 t.old }
{
    narrow::fh16(t, 8, 11, false);
    narrow::fh16(t, 12, 15, true);
    narrow::fh16(t, 9, 10, false);
    narrow::fh16(t, 13, 14, true);
    narrow::fb16(t, 13, 10, 11585, 11585, true);
    narrow::fb16(t, 12, 11, 11585, 11585, true);
    narrow::fh16(t, 0, 15, false);
    narrow::fh16(t, 1, 14, false);
    narrow::fh16(t, 2, 13, false);
    narrow::fh16(t, 3, 12, false);
    narrow::fh16(t, 4, 11, false);
    narrow::fh16(t, 5, 10, false);
    narrow::fh16(t, 6, 9, false);
    narrow::fh16(t, 7, 8, false);
}

// Step 2 for n = 5.
pub fn level5_turns(t: &mut [i16; 32])
    requires { Ok step Fine16 turns5 t.old }
    ensures { t.new ≡ run step turns5 t.old }
{
    narrow::fb16(t, 16, 31, 804, 16364, false);
    narrow::fb16(t, 17, 30, 12140, 11003, false);
    narrow::fb16(t, 18, 29, 7005, 14811, false);
    narrow::fb16(t, 19, 28, 15426, 5520, false);
    narrow::fb16(t, 20, 27, 3981, 15893, false);
    narrow::fb16(t, 21, 26, 14053, 8423, false);
    narrow::fb16(t, 22, 25, 9760, 13160, false);
    narrow::fb16(t, 23, 24, 16207, 2404, false);
}

// Steps 3 and 4a for n = 5.
pub fn level5_first(t: &mut [i16; 32])
    requires { Ok step Fine16 first5 t.old }
    ensures { t.new ≡ run step first5 t.old }
{
    narrow::fh16(t, 16, 17, false);
    narrow::fh16(t, 18, 19, true);
    narrow::fh16(t, 20, 21, false);
    narrow::fh16(t, 22, 23, true);
    narrow::fh16(t, 24, 25, false);
    narrow::fh16(t, 26, 27, true);
    narrow::fh16(t, 28, 29, false);
    narrow::fh16(t, 30, 31, true);
    narrow::fb16(t, 30, 17, 3196, 16069, true);
    narrow::fb16(t, 22, 25, -9102, -13623, true);
    narrow::fb16(t, 26, 21, 13623, 9102, true);
    narrow::fb16(t, 18, 29, -16069, -3196, true);
}

// Steps 4b and 5a for n = 5.
pub fn level5_next(t: &mut [i16; 32])
    requires { Ok step Fine16 next5 t.old }
    ensures { t.new ≡ run step next5 t.old }
{
    narrow::fh16(t, 16, 19, false);
    narrow::fh16(t, 20, 23, true);
    narrow::fh16(t, 24, 27, false);
    narrow::fh16(t, 28, 31, true);
    narrow::fh16(t, 17, 18, false);
    narrow::fh16(t, 21, 22, true);
    narrow::fh16(t, 25, 26, false);
    narrow::fh16(t, 29, 30, true);
    narrow::fb16(t, 29, 18, 6270, 15137, true);
    narrow::fb16(t, 21, 26, -15137, -6270, true);
    narrow::fb16(t, 28, 19, 6270, 15137, true);
    narrow::fb16(t, 20, 27, -15137, -6270, true);
}

// Steps 5b and 6 for n = 5.
pub fn level5_last(t: &mut [i16; 32])
    requires { Ok step Fine16 last5 t.old }
    ensures { t.new ≡ run step last5 t.old }
{
    narrow::fh16(t, 16, 23, false);
    narrow::fh16(t, 24, 31, true);
    narrow::fh16(t, 17, 22, false);
    narrow::fh16(t, 25, 30, true);
    narrow::fh16(t, 18, 21, false);
    narrow::fh16(t, 26, 29, true);
    narrow::fh16(t, 19, 20, false);
    narrow::fh16(t, 27, 28, true);
    narrow::fb16(t, 27, 20, 11585, 11585, true);
    narrow::fb16(t, 26, 21, 11585, 11585, true);
    narrow::fb16(t, 25, 22, 11585, 11585, true);
    narrow::fb16(t, 24, 23, 11585, 11585, true);
}

// Step 7 for n = 5.
pub fn level5_sums(t: &mut [i16; 32])
    requires { Ok step Fine16 sums5 t.old }
    ensures { t.new ≡ run step sums5 t.old }
{
    narrow::fh16(t, 0, 31, false);
    narrow::fh16(t, 1, 30, false);
    narrow::fh16(t, 2, 29, false);
    narrow::fh16(t, 3, 28, false);
    narrow::fh16(t, 4, 27, false);
    narrow::fh16(t, 5, 26, false);
    narrow::fh16(t, 6, 25, false);
    narrow::fh16(t, 7, 24, false);
    narrow::fh16(t, 8, 23, false);
    narrow::fh16(t, 9, 22, false);
    narrow::fh16(t, 10, 21, false);
    narrow::fh16(t, 11, 20, false);
    narrow::fh16(t, 12, 19, false);
    narrow::fh16(t, 13, 18, false);
    narrow::fh16(t, 14, 17, false);
    narrow::fh16(t, 15, 16, false);
}
