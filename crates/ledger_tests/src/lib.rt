// One table of calls with their answers, run on a ledger of each kind; ledgers that are full; rows that go from one kind to the other.
#![tactic(auto)]

#[cfg(test)]
mod script;

#[cfg(test)]
mod tests {
    use crate::script::{Answer, Call, SCRIPT, ask};
    use ledger::{EntryLedger, Ledger, LedgerFault, RuledLedger, copy_rows, same_rows};
    use std::process::Abort;
    use std::test::Fail;

    // Every call of the table is answered as it stands there.
    fn follow<L: Ledger>(rt: &impl Abort, ledger: &mut L) {
        for (call, answer) in SCRIPT {
            assert_eq!(rt; ask(ledger, call), answer);
        }
    }

    // Inserts one row again and again, 1,100 times, and tells how many rows are held then.
    fn fill<L: Ledger>(ledger: &mut L, first: usize, count: u32) -> usize {
        for _ in 0..1100usize {
            ask(ledger, Call::Insert(1, first, count));
        }
        ledger.len()
    }

    // A full ledger refuses a row by the first cause that holds, and keeps what it has.
    fn stays_full<L: Ledger>(rt: &impl Abort, ledger: &mut L) {
        let held = ledger.len();
        assert_eq!(rt;
            ask(ledger, Call::Insert(0, 9, 1_048_576)),
            Answer::Refused(LedgerFault::NoPosition)
        );
        assert_eq!(rt;
            ask(ledger, Call::Insert(1, 9, 1_048_576)),
            Answer::Refused(LedgerFault::CountTooLarge(9))
        );
        assert_eq!(rt;
            ask(ledger, Call::Insert(1, 25, 0)),
            Answer::Refused(LedgerFault::Full)
        );
        assert_eq!(rt; ledger.len(), held);
    }

    #[test]
    fn both_kinds_follow_the_table(rt: HostRuntime) -> Result<(), Fail> {
        let mut ruled = RuledLedger::new(rt.alloc())?;
        let mut entries = EntryLedger::new(rt.alloc())?;
        follow(&rt, &mut ruled);
        follow(&rt, &mut entries);
        Ok(())
    }

    #[test]
    fn full_at_128_rows_when_ruled(rt: HostRuntime) -> Result<(), Fail> {
        let mut ruled = RuledLedger::new(rt.alloc())?;
        assert_eq!(rt; fill(&mut ruled, 1, 3), 128);
        stays_full(&rt, &mut ruled);
        Ok(())
    }

    #[test]
    fn full_at_1024_charges_by_entries(rt: HostRuntime) -> Result<(), Fail> {
        let mut entries = EntryLedger::new(rt.alloc())?;
        assert_eq!(rt; fill(&mut entries, 1, 3), 40);
        assert_eq!(rt; fill(&mut entries, 24, 3), 52);
        stays_full(&rt, &mut entries);
        entries.clear();
        assert_eq!(rt; fill(&mut entries, 25, 0), 1024);
        stays_full(&rt, &mut entries);
        Ok(())
    }

    #[test]
    fn rows_go_from_kind_to_kind(rt: HostRuntime) -> Result<(), Fail> {
        let mut ruled = RuledLedger::new(rt.alloc())?;
        let mut entries = EntryLedger::new(rt.alloc())?;
        assert_eq!(rt; fill(&mut entries, 1, 3), 40);
        assert!(rt; !same_rows(&entries, &ruled));
        assert!(rt; copy_rows(&entries, &mut ruled).is_ok());
        assert!(rt; same_rows(&entries, &ruled));
        entries.clear();
        assert_eq!(rt; fill(&mut entries, 25, 0), 1024);
        assert!(rt; copy_rows(&entries, &mut ruled).is_err());
        assert_eq!(rt; ruled.len(), 40);
        Ok(())
    }
}
