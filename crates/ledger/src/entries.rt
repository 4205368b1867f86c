// The entry ledger keeps, of each row, the steps in use with their counts. A row is charged 1 and the number of its counts that are not 0, and the total is 1,024.
ghost use Rattle.std.specs.Prelude.{◌≡◌, ◌+◌, ◌<◌, ◌≤◌, take, slice_index, vec_len, vec_capacity, sum};
ghost use Rattle.ledger.specs.Rows.{entry_charge};
ghost use Rattle.ledger.specs.Packed.{pairs, unpacked, Exact};
ghost use Rattle.std.proofs.Common.{rules};

mod new;

use crate::entry::Entry;
use crate::index::{insertion_index, row_index};
use crate::packed::{pack, unpack};
use crate::{Ledger, LedgerFault, Row};

// The entries of all rows, one row after another, and how many each row has; and room for all that may be held.
// A row has no list of its own: all memory is taken when the ledger is made.
#[derive(Drop)]
pub struct EntryLedger {
    sizes: Vec<usize>,
    entries: Vec<Entry>,
    ghost sized: { sum sizes.items ≡ vec_len entries },
    ghost few: { vec_len sizes + vec_len entries ≤ 1024 },
    ghost rows_room: { 1024 ≤ vec_capacity sizes },
    ghost entries_room: { 1024 ≤ vec_capacity entries },
}

impl EntryLedger {
    // How many entries the rows before index i have, and so where those of row i begin.
    fn start(&self, i: usize) -> usize
        requires { i ≤ vec_len self.now.sizes }
        ensures begins { result ≡ sum (take i self.now.sizes.items) }
        ensures within { result ≤ vec_len self.now.entries }
        ensures ends { i < vec_len self.now.sizes → result + slice_index self.now.sizes.items i ≤ vec_len self.now.entries }
    {
        self.sizes[..i].iter().sum()
    }
}

impl Ledger for EntryLedger {
    const TOTAL: u32 = 1024;

    ghost TOTAL = { 1024 };

    ghost rows = { λ s. unpacked s.sizes.items (pairs s.entries.items) };

    ghost orderly = { λ s. Exact s.sizes.items (pairs s.entries.items) };

    ghost charge = { entry_charge };

    ghost low = { Prim.search rules };

    ghost high = { Prim.search rules };

    ghost positive = { Prim.search rules };

    ghost first = { Prim.search rules };

    ghost kept = { Prim.search rules };

    fn charge_of(row: &Row) -> u32 {
        1 + row.nonzeros() as u32
    }

    fn clear(&mut self) {
        self.sizes.clear();
        self.entries.clear();
    }

    fn len(&self) -> usize {
        self.sizes.len()
    }

    fn read(&self, k: usize) -> Result<Row, LedgerFault> {
        let i = row_index(k, self.sizes.len())?;
        let at = self.start(i);
        let end = at + self.sizes[i];
        Ok(unpack(&self.entries[at..end]))
    }

    fn insert(&mut self, k: usize, row: &Row) -> Result<(), LedgerFault> {
        let i = insertion_index(k, self.sizes.len(), row)?;
        let size = row.nonzeros();
        if self.sizes.len() + self.entries.len() + 1 + size > Self::TOTAL as usize {
            return Err(LedgerFault::Full);
        }
        let at = self.start(i);
        pack(&mut self.entries, at, row);
        // There is room, so that this is not refused.
        let _ = self.sizes.insert(i, size);
        Ok(())
    }
}
