// What a ledger is: a list of rows behind a few calls, whatever keeps them. Code above is proved from this promise alone.
#![tactic(auto)]

ghost use Rattle.std.specs.Prelude.{◌≡◌, ℕ, ◌≤◌, List, [], length, sum_by};
ghost use Rattle.ledger.specs.Rows.{units, WellKept};
ghost use Rattle.ledger.specs.Calls.{Reads, Uses, Inserts};

mod client;
mod entries;
mod entry;
mod fault;
mod index;
mod packed;
mod pair;
mod row;
mod ruled;

pub use client::{copy_rows, same_rows};
pub use entries::EntryLedger;
pub use fault::LedgerFault;
pub use pair::Ledgers;
pub use row::{MOST_COUNT, Row};
pub use ruled::RuledLedger;

// A list of rows of 24 counts, each from 0 to 1,048,575. Every row has a charge, and the charges of the rows held never pass the total.
// All but emptying is promised of ledgers in order only: `orderly` names that state, emptying gives it, and no call ends it.
pub trait Ledger {
    // The most that the charges of the rows held may come to; and the same number for clauses and laws.
    const TOTAL: u32;

    ghost TOTAL: { ℕ };

    // What the ledger means: the rows that it holds, first to last.
    ghost rows: { Self → List (List ℕ) };

    // The ledger is in order.
    ghost orderly: { Self → Type 0 };

    // The charge of a row, which depends on the row alone.
    ghost charge: { List ℕ → ℕ };

    // What the row would be charged.
    fn charge_of(row: &Row) -> u32
        ensures { result ≡ charge row.now.counts };

    // Leaves no row, whatever the ledger held.
    fn clear(&mut self)
        ensures empty { rows self.new ≡ [] }
        ensures order { orderly self.new };

    // How many rows are held.
    fn len(&self) -> usize
        ensures { orderly self.now → result ≡ length (rows self.now) };

    // Row k, counted from 1.
    fn read(&self, k: usize) -> Result<Row, LedgerFault>
        ensures { orderly self.now → Reads (rows self.now) k result };

    // The steps in use of row k, a bit for each step.
    fn used(&self, k: usize) -> Result<u32, LedgerFault>
        ensures { orderly self.now → Uses (rows self.now) k result }
    {
        let row = self.read(k)?;
        Ok(row.used())
    }

    // Puts the row before the present row k, or at the end where k is the number of rows plus 1.
    fn insert(&mut self, k: usize, row: &Row) -> Result<(), LedgerFault>
        ensures answer { orderly self.old → Inserts charge TOTAL (rows self.old) k row.now.counts (rows self.new) result }
        ensures order { orderly self.old → orderly self.new };

    // The total lies from 48 to 1,024.
    ghost low: { 48 ≤ TOTAL };

    ghost high: { TOTAL ≤ 1024 };

    // No row is free of charge.
    ghost positive: { (row : List ℕ) → 1 ≤ charge row };

    // The 24 rows with one step counted once fit into an empty ledger together.
    ghost first: { sum_by charge (units 24) ≤ TOTAL };

    // In order, the rows are 24 counts wide, no count is too large, and their charges do not pass the total.
    ghost kept: { (s : Self) → orderly s → WellKept charge TOTAL (rows s) };
}
