// The table: calls in their order, each with what any ledger must answer.
use ledger::{Ledger, LedgerFault, Row};

#[derive(Clone, Copy)]
pub(crate) enum Call {
    Clear,
    Len,
    Read(usize),
    Used(usize),
    // At this position, the row whose steps from this one on have this count.
    Insert(usize, usize, u32),
}

#[derive(Clone, Copy, PartialEq, Debug)]
pub(crate) enum Answer {
    Done,
    Number(usize),
    // The counts of steps 1, 12 and 24.
    Counts(u32, u32, u32),
    Mask(u32),
    Refused(LedgerFault),
}

pub(crate) const SCRIPT: [(Call, Answer); 25] = [
    (Call::Len, Answer::Number(0)),
    (Call::Read(0), Answer::Refused(LedgerFault::NoRow)),
    (Call::Read(1), Answer::Refused(LedgerFault::NoRow)),
    (Call::Used(1), Answer::Refused(LedgerFault::NoRow)),
    (
        Call::Insert(0, 1, 1),
        Answer::Refused(LedgerFault::NoPosition),
    ),
    (
        Call::Insert(2, 1, 1),
        Answer::Refused(LedgerFault::NoPosition),
    ),
    (Call::Insert(1, 24, 5), Answer::Done),
    (Call::Insert(2, 12, 7), Answer::Done),
    (Call::Insert(2, 1, 1_048_575), Answer::Done),
    (Call::Len, Answer::Number(3)),
    (Call::Read(1), Answer::Counts(0, 0, 5)),
    (
        Call::Read(2),
        Answer::Counts(1_048_575, 1_048_575, 1_048_575),
    ),
    (Call::Read(3), Answer::Counts(0, 7, 7)),
    (Call::Used(1), Answer::Mask(0x80_0000)),
    (Call::Used(2), Answer::Mask(0xff_ffff)),
    (Call::Used(3), Answer::Mask(0xff_f800)),
    (
        Call::Insert(5, 3, 1_048_576),
        Answer::Refused(LedgerFault::NoPosition),
    ),
    (
        Call::Insert(4, 3, 1_048_576),
        Answer::Refused(LedgerFault::CountTooLarge(3)),
    ),
    (Call::Insert(1, 25, 0), Answer::Done),
    (Call::Used(1), Answer::Mask(0)),
    (Call::Read(4), Answer::Counts(0, 7, 7)),
    (Call::Used(5), Answer::Refused(LedgerFault::NoRow)),
    (Call::Clear, Answer::Done),
    (Call::Len, Answer::Number(0)),
    (Call::Read(1), Answer::Refused(LedgerFault::NoRow)),
];

// The row whose steps from `first` on have this count.
fn row_from(first: usize, count: u32) -> Row {
    let mut row = Row::zeros();
    for c in row.counts.iter_mut().skip(first.saturating_sub(1)) {
        *c = count;
    }
    row
}

// What the ledger answers.
pub(crate) fn ask<L: Ledger>(ledger: &mut L, call: Call) -> Answer {
    match call {
        Call::Clear => {
            ledger.clear();
            Answer::Done
        }
        Call::Len => Answer::Number(ledger.len()),
        Call::Read(k) => match ledger.read(k) {
            Ok(row) => Answer::Counts(row.counts[0], row.counts[11], row.counts[23]),
            Err(fault) => Answer::Refused(fault),
        },
        Call::Used(k) => match ledger.used(k) {
            Ok(mask) => Answer::Mask(mask),
            Err(fault) => Answer::Refused(fault),
        },
        Call::Insert(k, first, count) => match ledger.insert(k, &row_from(first, count)) {
            Ok(_) => Answer::Done,
            Err(fault) => Answer::Refused(fault),
        },
    }
}
