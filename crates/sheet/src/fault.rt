// Why a sheet refuses a call. A refusal leaves everything that was handed in as it was.
ghost use Rattle.std.specs.Prelude.{◌≡◌};
ghost use Rattle.sheet.specs.Faults.{number, bracket, from_place, from_step};
ghost use Rattle.sheet.specs.declared.fault.SheetFault.TheVariants.{PlacesFull, Ledger};

use inline_list::Full;
use ledger::LedgerFault;
use method::{PlaceFault, StepFault};

#[derive(Clone, Copy, PartialEq, Debug)]
pub enum SheetFault {
    // The number of steps is not from 1 to 24.
    StepCount,
    // There are not as many effects or counts as steps.
    Length,
    // An effect is more than 1,000 either way; the first such step, from 1.
    Effect(usize),
    // 32 places are accepted already.
    PlacesFull,
    // A new row has a count above 1,048,575.
    RowTooLarge,
    // A count handed in is above 1,048,575; the first such step, from 1.
    Count(usize),
    // The list handed in is too short for what is to be written to it.
    ListTooShort,
    // The ledger refused: it is full, or it does not hold the row.
    Ledger(LedgerFault),
}

impl SheetFault {
    // The number by which people know the refusal.
    pub fn number(&self) -> u32
        ensures { result ≡ number self.now }
    {
        match self {
            SheetFault::StepCount => 1,
            SheetFault::Length => 2,
            SheetFault::Effect(_) => 3,
            SheetFault::PlacesFull => 4,
            SheetFault::RowTooLarge => 5,
            SheetFault::Count(_) => 7,
            SheetFault::ListTooShort => 11,
            SheetFault::Ledger(fault) => fault.number(),
        }
    }

    // The step that the refusal names, from 1.
    pub fn step(&self) -> Option<usize>
        ensures { result ≡ bracket self.now }
    {
        match self {
            SheetFault::Effect(step) | SheetFault::Count(step) => Some(*step),
            SheetFault::Ledger(LedgerFault::CountTooLarge(step)) => Some(*step),
            _ => None,
        }
    }
}

impl From<LedgerFault> for SheetFault {
    ghost from_gives = { λ fault r. r ≡ Ledger fault };

    fn from(fault: LedgerFault) -> SheetFault {
        SheetFault::Ledger(fault)
    }
}

// The list of places is full.
impl From<Full> for SheetFault {
    ghost from_gives = { λ _ r. r ≡ PlacesFull };

    fn from(_full: Full) -> SheetFault {
        SheetFault::PlacesFull
    }
}

impl From<PlaceFault> for SheetFault {
    ghost from_gives = { λ fault r. r ≡ from_place fault };

    fn from(fault: PlaceFault) -> SheetFault {
        match fault {
            PlaceFault::TooLong => SheetFault::Length,
            PlaceFault::Effect(step) => SheetFault::Effect(step),
        }
    }
}

impl From<StepFault> for SheetFault {
    ghost from_gives = { λ fault r. r ≡ from_step fault };

    fn from(fault: StepFault) -> SheetFault {
        match fault {
            StepFault::RowTooLarge => SheetFault::RowTooLarge,
            StepFault::Ledger(fault) => SheetFault::Ledger(fault),
        }
    }
}
