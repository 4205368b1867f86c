// Calls count rows from 1. The index of a row, from 0, or why there is none.
ghost use Rattle.std.specs.Prelude.{◌≡◌, ◌+◌, ◌<◌, ◌≤◌, MatchResult};
ghost use Rattle.ledger.specs.declared.fault.LedgerFault.TheVariants.{NoRow};
ghost use Rattle.ledger.specs.Rows.{Small};
ghost use Rattle.ledger.specs.Calls.{Unplaced};

use crate::{LedgerFault, Row};

// The index of row k, where so many are held.
pub(crate) fn row_index(k: usize, held: usize) -> Result<usize, LedgerFault>
    ensures { MatchResult result (λ i. (k ≡ i + 1) × (i < held)) (λ e. (e ≡ NoRow) × ((1 ≤ k) × (k ≤ held) → ⊥)) }
{
    if k == 0 || k > held {
        return Err(LedgerFault::NoRow);
    }
    Ok(k - 1)
}

// The index at which this row goes in as row k, where so many are held.
pub(crate) fn insertion_index(k: usize, held: usize, row: &Row) -> Result<usize, LedgerFault>
    ensures { MatchResult result (λ i. (k ≡ i + 1) × (i ≤ held) × Small row.now.counts) (Unplaced k held row.now.counts) }
{
    if k == 0 || k - 1 > held {
        return Err(LedgerFault::NoPosition);
    }
    match row.first_large() {
        Some(step) => Err(LedgerFault::CountTooLarge(step)),
        None => Ok(k - 1),
    }
}
