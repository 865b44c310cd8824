// The touched count of a record of a VBK file.
#![tactic(auto)]

ghost use Rattle.std.specs.Prelude.{◌≡◌, ◌≤◌};
ghost use Rattle.touched.specs.Touched.{touched_by};

use vbk_read::{Fields, Head};

// The touched count: the samples written, for an answer 0.
pub fn touched_by(answer: u8, fields: Fields, head: Head) -> usize
    requires { head.size ≤ 3 }
    ensures { result ≡ touched_by answer (record { width = fields.width; height = fields.height; stride = fields.width }) head }
{
    if answer != 0 {
        return 0;
    }
    let n0 = answers::side(head.size as u32 + 2);
    let rows = plane::cut(fields.height as usize, head.y as usize, n0);
    let cols = plane::cut(fields.width as usize, head.x as usize, n0);
    rows * cols
}
