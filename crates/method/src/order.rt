// The ascending order of rows, and a row's position in a ledger that stands in that order.
ghost use Rattle.std.specs.Prelude.{◌≡◌, ◌≤◌};
ghost use Rattle.cycle_theory.specs.Method.{before};
ghost use Rattle.method.specs.Ascents.{Finds, Puts};

use crate::held::{Held, row_at, row_count};
use ledger::{Ledger, LedgerFault, Row};

// Whether row a comes before row b: at the first step where they differ, a has the smaller count.
fn comes_before(a: &Row, b: &Row) -> bool
    ensures { result ≡ before a.now.counts b.now.counts }
{
    // By `cmp`, which passes equal counts in strides; `<` would make an option of an ordering for each.
    a.counts.cmp(&b.counts).is_lt()
}

// How many rows of an ascending ledger come before the row, by binary search: a ledger lends no slice, so that `partition_point` cannot serve.
fn position<L: Ledger>(rows: &L, row: &Row) -> usize
    ensures few { result ≤ 1024 }
    ensures finds { Finds L.Ledger rows.now row.now.counts result }
{
    let mut low = 0;
    let mut high = row_count(rows);
    while low < high {
        let mid = low + (high - low) / 2;
        if comes_before(&row_at(rows, mid).row, row) {
            low = mid + 1;
        } else {
            high = mid;
        }
    }
    low
}

// Puts a new row into its position in an ascending ledger; refused where there is no room for it.
pub(crate) fn put<L: Ledger>(rows: &mut L, held: &Held) -> Result<(), LedgerFault>
    ensures { Puts L.Ledger rows.old held.now.row.counts rows.new result }
{
    let k = position(rows, &held.row);
    rows.insert(k + 1, &held.row)
}
