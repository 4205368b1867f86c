// The walk: rows are taken from the question, the first that can be taken at each round, until nothing is left.
ghost use Rattle.certificate.specs.Walked.{Walked};

use crate::Certificate;
use crate::round::Walk;
use ledger::{Ledger, Row};

// The certificate of a question over the rows of a ledger; none where a number of it is too large, or where no row can be taken.
// A row that was passed over or taken can never be taken later, since the rest uses fewer and fewer steps: one pass over the rows is the walk.
pub fn walk<L: Ledger>(rows: &L, question: &Row) -> Option<Certificate>
    ensures { Walked L.Ledger rows.now question.now.counts result }
{
    let mut walk = Walk::begin(question);
    let count = rows.len();
    // A ledger lends no slice of its rows: they are read by number.
    for i in 0..count {
        if walk.is_done() {
            return Some(walk.certificate);
        }
        let row = rows.read(i + 1).ok()?;
        if walk.takes(&row) {
            walk.take(i, &row)?;
        }
    }
    walk.is_done().then_some(walk.certificate)
}
