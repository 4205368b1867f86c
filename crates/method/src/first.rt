// The rows of a net that has no place yet: the single steps.
ghost use Rattle.std.specs.Prelude.{◌≡◌, ◌<◌};
ghost use Rattle.ledger.specs.Rows.{unit as unit_row};
ghost use Rattle.method.specs.Stepping.{First};

use ledger::{Ledger, Row};

// Leaves the n rows in which one step is counted once, ascending, whatever the ledger held; n above 24 is read as 24.
pub fn first_rows<L: Ledger>(rows: &mut L, n: usize)
    ensures { First L.Ledger n rows.new }
{
    rows.clear();
    for step in 0..n.min(24) {
        // The later the step, the earlier the row: each goes before all that are there.
        let _ = rows.insert(1, &unit(step));
    }
}

// The row that counts one step once.
fn unit(step: usize) -> Row
    requires { step < 24 }
    ensures { result.counts ≡ unit_row step }
{
    let mut row = Row::zeros();
    row.counts[step] = 1;
    row
}
