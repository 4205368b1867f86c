// Why a list of effects is no place, and why a place more is refused. A refusal changes no rows.
ghost use Rattle.std.specs.Prelude.{◌≡◌};
ghost use Rattle.method.specs.declared.fault.StepFault.TheVariants.{Ledger};

use ledger::LedgerFault;

#[derive(Clone, Copy, PartialEq, Eq, Debug)]
pub enum PlaceFault {
    // More than 24 effects.
    TooLong,
    // An effect outside -1,000 to 1,000; the first such step, from 1.
    Effect(usize),
}

#[derive(Clone, Copy, PartialEq, Eq, Debug)]
pub enum StepFault {
    // Some new row has a count above 1,048,575.
    RowTooLarge,
    // The spare ledger refuses a new row: the charges of the new rows pass its total.
    Ledger(LedgerFault),
}

impl From<LedgerFault> for StepFault {
    ghost from_gives = { λ e r. r ≡ Ledger e };

    fn from(e: LedgerFault) -> StepFault {
        StepFault::Ledger(e)
    }
}
