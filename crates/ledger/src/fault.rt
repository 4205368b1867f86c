// Why a ledger refuses a call. A refusal changes nothing.
ghost use Rattle.std.specs.Prelude.{◌≡◌};
ghost use Rattle.ledger.specs.Faults.{number};

#[derive(Clone, Copy, PartialEq, Eq, Debug)]
pub enum LedgerFault {
    // Row k is not held.
    NoRow,
    // Inserting at 0 or beyond the end.
    NoPosition,
    // A count above 1,048,575; the first such step, from 1.
    CountTooLarge(usize),
    // The charges of the rows would pass the total.
    Full,
}

impl LedgerFault {
    // The number by which people know the refusal.
    pub fn number(&self) -> u32
        ensures { result ≡ number self.now }
    {
        match self {
            LedgerFault::Full => 6,
            LedgerFault::CountTooLarge(_) => 7,
            LedgerFault::NoRow => 8,
            LedgerFault::NoPosition => 15,
        }
    }
}
