// The ruled ledger keeps every count of each row. A row is charged 1, and the total is 128.
ghost use Rattle.std.specs.Prelude.{◌≤◌, vec_capacity};
ghost use Rattle.ledger.specs.Rows.{WellKept};
ghost use Rattle.std.proofs.Common.{rules};

mod new;

use crate::index::row_index;
use crate::{Ledger, LedgerFault, Row};

// The rows, and room for all that may be held.
#[derive(Drop)]
pub struct RuledLedger {
    kept: Vec<[u32; 24]>,
    ghost room: { 128 ≤ vec_capacity kept },
}

impl Ledger for RuledLedger {
    const TOTAL: u32 = 128;

    ghost TOTAL = { 128 };

    ghost rows = { λ s. s.kept.items };

    ghost orderly = { λ s. WellKept (λ _. 1) 128 s.kept.items };

    ghost charge = { λ _. 1 };

    ghost low = { Prim.search rules };

    ghost high = { Prim.search rules };

    ghost positive = { Prim.search rules };

    ghost first = { Prim.search rules };

    ghost kept = { Prim.search rules };

    fn charge_of(_row: &Row) -> u32 {
        1
    }

    fn clear(&mut self) {
        self.kept.clear();
    }

    fn len(&self) -> usize {
        self.kept.len()
    }

    fn read(&self, k: usize) -> Result<Row, LedgerFault> {
        let i = row_index(k, self.kept.len())?;
        Ok(Row {
            counts: self.kept[i],
        })
    }

    fn insert(&mut self, k: usize, row: &Row) -> Result<(), LedgerFault> {
        // `insertion_index` would say the first two; with it a row takes almost three times as long to go in, since the compiler then does
        // not put the library's `insert` into place.
        if k == 0 || k > self.kept.len() + 1 {
            return Err(LedgerFault::NoPosition);
        }
        if let Some(step) = row.first_large() {
            return Err(LedgerFault::CountTooLarge(step));
        }
        if self.kept.len() >= Self::TOTAL as usize {
            return Err(LedgerFault::Full);
        }
        // There is room, so that this is not refused.
        let _ = self.kept.insert(k - 1, row.counts);
        Ok(())
    }
}
