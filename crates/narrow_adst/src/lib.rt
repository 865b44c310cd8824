// The inverse ADST of a line of 16-bit numbers, in pieces that are small enough for the compiler to inline them into the lines of rows and of columns alike.
// Numbers in S are of 32 bits, and do not count.
#![tactic(auto)]

ghost use Rattle.std.specs.Prelude.{◌≡◌, ℕ, ◌*◌, ◌^◌, ◌≤◌, ◌<◌};
ghost use Rattle.whole.specs.Steps.{run};
ghost use Rattle.whole.specs.Inner.{Ok};
ghost use Rattle.steps.specs.Step.{Move, step};
ghost use Rattle.steps.specs.Step2.{step2};
ghost use Rattle.adst.specs.Adst.{adst_in, adst_out};
ghost use Rattle.adst.specs.Inner.{arrays};
ghost use Rattle.narrow.specs.Inner.{Fine16, Fine216};
ghost use Rattle.narrow_adst.specs.Inner.{first8, next8, last8, turns16, first16, next16, more16, last16};

// A permutation of a line, as a type: so each has its own code, in which every place is known.
pub trait Order {
    ghost source: { ℕ → ℕ → ℕ };

    // Where it takes t[k] from.
    fn place(n: u32, k: usize) -> usize
        requires { (3 ≤ n) × (n ≤ 4) × (k < 2 ^ n) }
        ensures { (result ≡ source n k) × (result < 16) };
}

// The permutation into the ADST.
pub struct Input;

impl Order for Input {
    ghost source = { adst_in };

    fn place(n: u32, k: usize) -> usize {
        if k % 2 != 0 {
            return k - 1;
        }
        if n == 4 {
            return 15 - k;
        }
        7 - k
    }
}

// The permutation out of it.
pub struct Output;

impl Order for Output {
    ghost source = { adst_out };

    fn place(n: u32, k: usize) -> usize {
        adst::output_place(n, k)
    }
}

// Either permutation of 2^n = h k numbers. Where n, h and k are literals, two loops of few turns unroll and every index folds.
pub fn permute<O: Order>(t: &mut [i16; 32], n: u32, h: usize, k: usize)
    requires { (3 ≤ n) × (n ≤ 4) × (h * k ≡ 2 ^ n) }
    ensures { t.new ≡ step (Move (2 ^ n) (O.source n)) t.old }
{
    let copy_t = *t;
    for a in 0..h {
        for b in 0..k {
            let i = k * a + b;
            t[i] = copy_t[O::place(n, i)];
        }
    }
}

// Steps 2 and 3 of ADST8.
pub fn adst8_first(t: &mut [i16; 32], s: &mut [i32; 16])
    requires { Ok step2 Fine216 first8 (arrays t.old s.old) }
    ensures { arrays t.new s.new ≡ run step2 first8 (arrays t.old s.old) }
{
    narrow::fsb16(t, s, 0, 1, 1606, 16305, true);
    narrow::fsb16(t, s, 2, 3, 7723, 14449, true);
    narrow::fsb16(t, s, 4, 5, 12665, 10394, true);
    narrow::fsb16(t, s, 6, 7, 15679, 4756, true);
    narrow::fsh16(t, s, 0, 4);
    narrow::fsh16(t, s, 1, 5);
    narrow::fsh16(t, s, 2, 6);
    narrow::fsh16(t, s, 3, 7);
}

// Steps 4 to 7.
pub fn adst8_next(t: &mut [i16; 32], s: &mut [i32; 16])
    requires { Ok step2 Fine216 next8 (arrays t.old s.old) }
    ensures { arrays t.new s.new ≡ run step2 next8 (arrays t.old s.old) }
{
    narrow::fsb16(t, s, 4, 5, 6270, 15137, true);
    narrow::fsb16(t, s, 7, 6, 15137, 6270, true);
    narrow::fsh16(t, s, 4, 6);
    narrow::fsh16(t, s, 5, 7);
    narrow::fh16(t, 0, 2, false);
    narrow::fh16(t, 1, 3, false);
    narrow::fb16(t, 2, 3, 11585, 11585, true);
    narrow::fb16(t, 6, 7, 11585, 11585, true);
}

// Steps 8 and 9.
pub fn adst8_last(t: &mut [i16; 32])
    requires { Ok step Fine16 last8 t.old }
    ensures { t.new ≡ run step last8 t.old }
{
    permute::<Output>(t, 3, 2, 4);
    narrow::fneg16(t, 1);
    narrow::fneg16(t, 3);
    narrow::fneg16(t, 5);
    narrow::fneg16(t, 7);
}

// Step 2 of ADST16.
pub fn adst16_turns(t: &[i16; 32], s: &mut [i32; 16])
    requires { Ok step2 Fine216 turns16 (arrays t.now s.old) }
    ensures { arrays t.now s.new ≡ run step2 turns16 (arrays t.now s.old) }
{
    narrow::fsb16(t, s, 0, 1, 804, 16364, true);
    narrow::fsb16(t, s, 2, 3, 3981, 15893, true);
    narrow::fsb16(t, s, 4, 5, 7005, 14811, true);
    narrow::fsb16(t, s, 6, 7, 9760, 13160, true);
    narrow::fsb16(t, s, 8, 9, 12140, 11003, true);
    narrow::fsb16(t, s, 10, 11, 14053, 8423, true);
    narrow::fsb16(t, s, 12, 13, 15426, 5520, true);
    narrow::fsb16(t, s, 14, 15, 16207, 2404, true);
}

// Step 3.
pub fn adst16_first(t: &mut [i16; 32], s: &[i32; 16])
    requires { Ok step2 Fine216 first16 (arrays t.old s.now) }
    ensures { arrays t.new s.now ≡ run step2 first16 (arrays t.old s.now) }
{
    narrow::fsh16(t, s, 0, 8);
    narrow::fsh16(t, s, 1, 9);
    narrow::fsh16(t, s, 2, 10);
    narrow::fsh16(t, s, 3, 11);
    narrow::fsh16(t, s, 4, 12);
    narrow::fsh16(t, s, 5, 13);
    narrow::fsh16(t, s, 6, 14);
    narrow::fsh16(t, s, 7, 15);
}

// Steps 4 to 6.
pub fn adst16_next(t: &mut [i16; 32], s: &mut [i32; 16])
    requires { Ok step2 Fine216 next16 (arrays t.old s.old) }
    ensures { arrays t.new s.new ≡ run step2 next16 (arrays t.old s.old) }
{
    narrow::fsb16(t, s, 8, 9, 3196, 16069, true);
    narrow::fsb16(t, s, 10, 11, 13623, 9102, true);
    narrow::fsb16(t, s, 12, 13, 16069, -3196, true);
    narrow::fsb16(t, s, 14, 15, 9102, -13623, true);
    narrow::fsh16(t, s, 8, 12);
    narrow::fsh16(t, s, 9, 13);
    narrow::fsh16(t, s, 10, 14);
    narrow::fsh16(t, s, 11, 15);
    narrow::fh16(t, 0, 4, false);
    narrow::fh16(t, 1, 5, false);
    narrow::fh16(t, 2, 6, false);
    narrow::fh16(t, 3, 7, false);
}

// Steps 7 to 9.
pub fn adst16_more(t: &mut [i16; 32], s: &mut [i32; 16])
    requires { Ok step2 Fine216 more16 (arrays t.old s.old) }
    ensures { arrays t.new s.new ≡ run step2 more16 (arrays t.old s.old) }
{
    narrow::fsb16(t, s, 4, 5, 6270, 15137, true);
    narrow::fsb16(t, s, 7, 6, 15137, 6270, true);
    narrow::fsb16(t, s, 12, 13, 6270, 15137, true);
    narrow::fsb16(t, s, 15, 14, 15137, 6270, true);
    narrow::fsh16(t, s, 4, 6);
    narrow::fsh16(t, s, 5, 7);
    narrow::fsh16(t, s, 12, 14);
    narrow::fsh16(t, s, 13, 15);
    narrow::fh16(t, 0, 2, false);
    narrow::fh16(t, 1, 3, false);
    narrow::fh16(t, 8, 10, false);
    narrow::fh16(t, 9, 11, false);
}

// Steps 10 to 12.
pub fn adst16_last(t: &mut [i16; 32])
    requires { Ok step Fine16 last16 t.old }
    ensures { t.new ≡ run step last16 t.old }
{
    narrow::fb16(t, 2, 3, -11585, 11585, false);
    narrow::fb16(t, 6, 7, 11585, -11585, false);
    narrow::fb16(t, 10, 11, 11585, -11585, false);
    narrow::fb16(t, 14, 15, -11585, 11585, false);
    permute::<Output>(t, 4, 4, 4);
    narrow::fneg16(t, 1);
    narrow::fneg16(t, 3);
    narrow::fneg16(t, 13);
    narrow::fneg16(t, 15);
}
