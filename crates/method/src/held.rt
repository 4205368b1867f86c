// The rows of a ledger by their index from 0. A ledger that is not in order may tell anything: then what is told here is at least harmless.
ghost use Rattle.std.specs.Prelude.{◌≡◌, ◌<◌, ◌≤◌, length};
ghost use Rattle.ledger.specs.Rows.{Small};
ghost use Rattle.method.specs.Ascents.{row_at};

use ledger::{Ledger, Row};

// A row that a ledger may hold: none of its counts is above 1,048,575.
#[derive(Clone, Copy)]
pub(crate) struct Held {
    pub(crate) row: Row,
    ghost small: { Small row.counts },
}

impl Held {
    // The row of zeros.
    pub(crate) fn zeros() -> Held {
        Held { row: Row::zeros() }
    }
}

// How many rows there are: no ledger in order has more than 1,024.
pub(crate) fn row_count<L: Ledger>(rows: &L) -> usize
    ensures few { result ≤ 1024 }
    ensures is { L.Ledger.orderly rows.now → result ≡ length (L.Ledger.rows rows.now) }
{
    rows.len().min(1024)
}

// Row k; zeros where there is none, or where a count is too large to be held.
pub(crate) fn row_at<L: Ledger>(rows: &L, k: usize) -> Held
    requires { k < 1024 }
    ensures { L.Ledger.orderly rows.now → k < length (L.Ledger.rows rows.now) → result.row.counts ≡ row_at (L.Ledger.rows rows.now) k }
{
    let Ok(row) = rows.read(k + 1) else {
        return Held::zeros();
    };
    match row.first_large() {
        None => Held { row },
        Some(_) => Held::zeros(),
    }
}
