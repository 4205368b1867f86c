// Whether two closed sheets list the same cycles.
ghost use Rattle.std.specs.Prelude.{◌≡◌};
ghost use Rattle.sheet.specs.Sheets.{Compared};
ghost use Rattle.sheet.specs.Runs.{Promise};
ghost use Rattle.sheet.specs.Order.{OrderOfBoth};

use crate::ClosedSheet;
use ledger::{Ledger, same_rows};

// What two sheets are to each other, by names that a bool would not have.
#[derive(Clone, Copy, PartialEq, Eq, Debug)]
pub enum Comparison {
    Same,
    Different,
}

// Same exactly when there are equally many steps and equal rows; the ledgers may differ in kind.
pub fn compare<L: Ledger, M: Ledger>(a: &ClosedSheet<L>, b: &ClosedSheet<M>) -> Comparison
    ensures compared { Compared a.now b.now result }
    ensures promise { Promise a.now b.now result }
    ensures order { OrderOfBoth a.now b.now }
{
    if a.steps.get() == b.steps.get() && same_rows(&a.rows, &b.rows) {
        Comparison::Same
    } else {
        Comparison::Different
    }
}
