// Making a ruled ledger. Each kind takes memory of its own shape, so the kinds share no constructor.
ghost use Rattle.std.specs.Prelude.{IfOk};
ghost use Rattle.ledger.specs.Empty.{Empty};
ghost use Rattle.ledger.specs.contracts.ruled.RuledLedgerLedger.TheImpl.{ghosts as ruled};

use super::RuledLedger;
use std::alloc::{AllocError, Global};

impl RuledLedger {
    // An empty ledger, with all the memory that it will ever need.
    pub fn new(heap: Global) -> Result<RuledLedger, AllocError>
        ensures { IfOk result (Empty ruled) }
    {
        let kept = Vec::with_capacity(heap, 128)?;
        Ok(RuledLedger { kept })
    }
}
