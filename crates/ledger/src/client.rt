// What can be done with any two ledgers, of whichever kinds: comparing and copying their rows.
// Rows are read by number, since a ledger lends none: the entry ledger makes each anew.
ghost use Rattle.std.specs.Prelude.{◌≡◌, ◌-◌, ◌≤◌, [], Decides, sum_by, slice_index_or};
ghost use Rattle.ledger.specs.Calls.{Held};
ghost use Rattle.ledger.specs.Clients.{Copied};

use crate::{Ledger, LedgerFault};

// Whether row k is the same in both, where both hold it.
fn same_row<L: Ledger, M: Ledger>(a: &L, b: &M, k: usize) -> bool
    ensures { L.Ledger.orderly a.now → M.Ledger.orderly b.now → Held k (L.Ledger.rows a.now) → Held k (M.Ledger.rows b.now) → Decides result (slice_index_or (L.Ledger.rows a.now) (k - 1) [] ≡ slice_index_or (M.Ledger.rows b.now) (k - 1) []) }
{
    let Ok(p) = a.read(k) else {
        return false;
    };
    let Ok(q) = b.read(k) else {
        return false;
    };
    p == q
}

// Whether two ledgers hold the same rows, in the same order.
pub fn same_rows<L: Ledger, M: Ledger>(a: &L, b: &M) -> bool
    ensures { L.Ledger.orderly a.now → M.Ledger.orderly b.now → Decides result (L.Ledger.rows a.now ≡ M.Ledger.rows b.now) }
{
    let n = a.len();
    if n != b.len() {
        return false;
    }
    for k in 1..=n {
        if !same_row(a, b, k) {
            return false;
        }
    }
    true
}

// Whether the rows of a ledger fit into an empty one of another kind.
fn fits<L: Ledger, M: Ledger>(from: &L) -> bool
    ensures { L.Ledger.orderly from.now → Decides result (sum_by M.Ledger.charge (L.Ledger.rows from.now) ≤ M.Ledger.TOTAL) }
{
    let mut left = M::TOTAL;
    for k in 1..=from.len() {
        let Ok(row) = from.read(k) else {
            return false;
        };
        let charge = M::charge_of(&row);
        if charge > left {
            return false;
        }
        left -= charge;
    }
    true
}

// Replaces the rows of `to` by those of `from`. Where they do not fit, that is told, and `to` is as it was.
pub fn copy_rows<L: Ledger, M: Ledger>(from: &L, to: &mut M) -> Result<(), LedgerFault>
    ensures { L.Ledger.orderly from.now → Copied L.Ledger M.Ledger from.now to.old to.new result }
{
    if !fits::<L, M>(from) {
        return Err(LedgerFault::Full);
    }
    to.clear();
    for k in 1..=from.len() {
        let row = from.read(k)?;
        to.insert(k, &row)?;
    }
    Ok(())
}
