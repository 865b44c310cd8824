// A row of a summary as C is told it.
#![tactic(auto)]

ghost use Rattle.std.specs.Prelude.{◌≡◌, ◌≤◌};
ghost use Rattle.rows_told.specs.Rows.{row_number};
ghost use Rattle.rows_told.specs.Inner.{place_of};

// A row as C has it: -1 where there is none.
pub fn row_number(row: Option<u32>) -> i32
    requires { place_of row ≤ 31 }
    ensures { result ≡ row_number row }
{
    match row {
        None => -1,
        Some(i) => i as i32,
    }
}
