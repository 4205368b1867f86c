// Making an entry ledger. Each kind takes memory of its own shape, so the kinds share no constructor.
ghost use Rattle.std.specs.Prelude.{IfOk};
ghost use Rattle.ledger.specs.Empty.{Empty};
ghost use Rattle.ledger.specs.contracts.entries.EntryLedgerLedger.TheImpl.{ghosts as entry};

use super::EntryLedger;
use std::alloc::{AllocError, Global};

impl EntryLedger {
    // An empty ledger, with all the memory that it will ever need.
    pub fn new(heap: Global) -> Result<EntryLedger, AllocError>
        ensures { IfOk result (Empty entry) }
    {
        let sizes = Vec::with_capacity(heap, 1024)?;
        let entries = Vec::with_capacity(heap, 1024)?;
        Ok(EntryLedger { sizes, entries })
    }
}
