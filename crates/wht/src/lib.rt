#![tactic(auto)]

ghost use Rattle.std.specs.Prelude.{◌≡◌, ℕ, ◌^◌, ◌≤◌};
ghost use Rattle.steps.specs.Inner.{FourWithin};
ghost use Rattle.wht.specs.Wht.{wht};

// The inverse WHT of t[0] to t[3]; shift is 2 for rows, 0 for columns.
pub fn inverse_wht(t: &mut [i64; 32], shift: u32)
    requires { («shift» ≤ 2) × FourWithin (2 ^ 46) t.old }
    ensures { t.new ≡ wht «shift» t.old }
{
    let mut a = t[0] >> shift;
    let mut c = t[1] >> shift;
    let mut d = t[2] >> shift;
    let mut b = t[3] >> shift;
    a += c;
    d -= b;
    let e = (a - d) >> 1;
    b = e - b;
    c = e - c;
    a -= b;
    d += c;
    t[0] = a;
    t[1] = b;
    t[2] = c;
    t[3] = d;
}
