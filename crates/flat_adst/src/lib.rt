// The fast inverse ADST: straight-line code over literal places.
#![tactic(auto)]

ghost use Rattle.std.specs.Prelude.{◌≡◌, ◌^◌, ◌≤◌};
ghost use Rattle.whole.specs.Inner.{Ok};
ghost use Rattle.steps.specs.Step.{Move, step};
ghost use Rattle.steps.specs.Inner.{Fine2};
ghost use Rattle.steps.specs.Step2.{step2, fresh};
ghost use Rattle.adst.specs.Adst.{adst_in, adst_out, adst_steps, adst};

// The permutation into ADST8. It and the next three differ in their tables alone, and stay apart: called with its own table each loop unrolls
// before it meets the calls around it.
fn input8(t: &mut [i64; 32])
    ensures { t.new ≡ step (Move 8 (adst_in 3)) t.old }
{
    let from = [7, 0, 5, 2, 3, 4, 1, 6];
    flat::reorder(t, &from);
}

// The permutation out of ADST8.
fn output8(t: &mut [i64; 32])
    ensures { t.new ≡ step (Move 8 (adst_out 3)) t.old }
{
    let from = [0, 4, 6, 2, 3, 7, 5, 1];
    flat::reorder(t, &from);
}

// The permutation into ADST16.
fn input16(t: &mut [i64; 32])
    ensures { t.new ≡ step (Move 16 (adst_in 4)) t.old }
{
    let from = [15, 0, 13, 2, 11, 4, 9, 6, 7, 8, 5, 10, 3, 12, 1, 14];
    flat::reorder(t, &from);
}

// The permutation out of ADST16.
fn output16(t: &mut [i64; 32])
    ensures { t.new ≡ step (Move 16 (adst_out 4)) t.old }
{
    let from = [0, 8, 12, 4, 6, 14, 10, 2, 3, 11, 15, 7, 5, 13, 9, 1];
    flat::reorder(t, &from);
}

// The inverse ADST of 4 numbers. 5283, 9929, 13377 are SINPI_1_9 to SINPI_3_9; SINPI_4_9 is the sum of the first two, so six products do for eight.
fn iadst_fast4(t: &mut [i64; 32])
    requires { Ok step2 (Fine2 (2 ^ 46)) (adst_steps 2) (fresh t.old) }
    ensures { t.new ≡ adst 2 t.old }
{
    let a = t[0];
    let b = t[1];
    let c = t[2];
    let d = t[3];
    let u = c + d;
    let x0 = 5283 * (a + c) + 9929 * u;
    let x1 = 9929 * (a - d) - 5283 * u;
    let x2 = 13377 * (a - c + d);
    let x3 = 13377 * b;
    t[0] = primitives::round2(x0 + x3, 14);
    t[1] = primitives::round2(x1 + x3, 14);
    t[2] = primitives::round2(x2, 14);
    t[3] = primitives::round2(x0 + x1 - x3, 14);
}

// The inverse ADST of 8 numbers.
fn iadst_fast8(t: &mut [i64; 32])
    requires { Ok step2 (Fine2 (2 ^ 46)) (adst_steps 3) (fresh t.old) }
    ensures { t.new ≡ adst 3 t.old }
{
    let mut s = [0i64; 16];
    input8(t);
    flat::fsb(t, &mut s, 0, 1, 30, true);
    flat::fsb(t, &mut s, 2, 3, 22, true);
    flat::fsb(t, &mut s, 4, 5, 14, true);
    flat::fsb(t, &mut s, 6, 7, 6, true);
    flat::fsh(t, &s, 0, 4);
    flat::fsh(t, &s, 1, 5);
    flat::fsh(t, &s, 2, 6);
    flat::fsh(t, &s, 3, 7);
    flat::fsb(t, &mut s, 4, 5, 24, true);
    flat::fsb(t, &mut s, 7, 6, 8, true);
    flat::fsh(t, &s, 4, 6);
    flat::fsh(t, &s, 5, 7);
    flat::fh(t, 0, 2, false);
    flat::fh(t, 1, 3, false);
    flat::fb(t, 2, 3, 16, true);
    flat::fb(t, 6, 7, 16, true);
    output8(t);
    flat::fneg(t, 1);
    flat::fneg(t, 3);
    flat::fneg(t, 5);
    flat::fneg(t, 7);
}

// The inverse ADST of 16 numbers.
fn iadst_fast16(t: &mut [i64; 32])
    requires { Ok step2 (Fine2 (2 ^ 46)) (adst_steps 4) (fresh t.old) }
    ensures { t.new ≡ adst 4 t.old }
{
    let mut s = [0i64; 16];
    input16(t);
    flat::fsb(t, &mut s, 0, 1, 31, true);
    flat::fsb(t, &mut s, 2, 3, 27, true);
    flat::fsb(t, &mut s, 4, 5, 23, true);
    flat::fsb(t, &mut s, 6, 7, 19, true);
    flat::fsb(t, &mut s, 8, 9, 15, true);
    flat::fsb(t, &mut s, 10, 11, 11, true);
    flat::fsb(t, &mut s, 12, 13, 7, true);
    flat::fsb(t, &mut s, 14, 15, 3, true);
    flat::fsh(t, &s, 0, 8);
    flat::fsh(t, &s, 1, 9);
    flat::fsh(t, &s, 2, 10);
    flat::fsh(t, &s, 3, 11);
    flat::fsh(t, &s, 4, 12);
    flat::fsh(t, &s, 5, 13);
    flat::fsh(t, &s, 6, 14);
    flat::fsh(t, &s, 7, 15);
    flat::fsb(t, &mut s, 8, 9, 28, true);
    flat::fsb(t, &mut s, 10, 11, 12, true);
    flat::fsb(t, &mut s, 12, 13, -4, true);
    flat::fsb(t, &mut s, 14, 15, -20, true);
    flat::fsh(t, &s, 8, 12);
    flat::fsh(t, &s, 9, 13);
    flat::fsh(t, &s, 10, 14);
    flat::fsh(t, &s, 11, 15);
    flat::fh(t, 0, 4, false);
    flat::fh(t, 1, 5, false);
    flat::fh(t, 2, 6, false);
    flat::fh(t, 3, 7, false);
    flat::fsb(t, &mut s, 4, 5, 24, true);
    flat::fsb(t, &mut s, 7, 6, 8, true);
    flat::fsb(t, &mut s, 12, 13, 24, true);
    flat::fsb(t, &mut s, 15, 14, 8, true);
    flat::fsh(t, &s, 4, 6);
    flat::fsh(t, &s, 5, 7);
    flat::fsh(t, &s, 12, 14);
    flat::fsh(t, &s, 13, 15);
    flat::fh(t, 0, 2, false);
    flat::fh(t, 1, 3, false);
    flat::fh(t, 8, 10, false);
    flat::fh(t, 9, 11, false);
    flat::fb(t, 2, 3, 48, false);
    flat::fb(t, 6, 7, 112, false);
    flat::fb(t, 10, 11, 112, false);
    flat::fb(t, 14, 15, 48, false);
    output16(t);
    flat::fneg(t, 1);
    flat::fneg(t, 3);
    flat::fneg(t, 13);
    flat::fneg(t, 15);
}

// The inverse ADST of 2^N numbers.
pub fn iadst_fast<const N: u32>(t: &mut [i64; 32])
    requires { (2 ≤ N) × (N ≤ 4) × Ok step2 (Fine2 (2 ^ 46)) (adst_steps N) (fresh t.old) }
    ensures { t.new ≡ adst N t.old }
{
    match N {
        2 => iadst_fast4(t),
        3 => iadst_fast8(t),
        _ => iadst_fast16(t),
    }
}
