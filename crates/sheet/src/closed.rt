// Listing a closed sheet.
ghost use Rattle.std.specs.Prelude.{◌≡◌};
ghost use Rattle.sheet.specs.Sheets.{Counted, ReadRow};

use crate::{ClosedSheet, SheetFault};
use ledger::Ledger;

impl<L: Ledger> ClosedSheet<L> {
    // How many steps the net has.
    pub fn steps(&self) -> usize
        ensures { result ≡ self.now.steps.n }
    {
        self.steps.get()
    }

    // How many rows the closed list has.
    pub fn row_count(&self) -> usize
        ensures { Counted self.now result }
    {
        self.rows.len()
    }

    // Copies row k of the closed list, counted from 1, to the front of `out`, one count a step. What stands behind stays.
    // Refused where there is no such row, then where `out` is shorter than the steps are many; `out` then stays as it was.
    pub fn read_row(&self, k: usize, out: &mut [u32]) -> Result<(), SheetFault>
        ensures { ReadRow self.now k out.old result out.new }
    {
        let row = self.rows.read(k)?;
        let n = self.steps.get();
        if out.len() < n {
            return Err(SheetFault::ListTooShort);
        }
        out[..n].copy_from_slice(&row.counts[..n]);
        Ok(())
    }
}
