// One round of a walk: what is left of the question, and what was taken of it.
ghost use Rattle.std.specs.Prelude.{◌≡◌, Some, None, MatchOption};
ghost use Rattle.cycle_theory.specs.Method.{within};
ghost use Rattle.cycle_theory.specs.Walk.{zeros};
ghost use Rattle.certificate.specs.Rounds.{Begun, Least, Left, Took};

use crate::Certificate;
use crate::least::least_ratio;
use crate::numbers::{narrow, product};
use crate::ratio::Ratio;
use ledger::Row;

// What is left of a multiple of the question, and the certificate of what was taken.
#[derive(Clone, Copy)]
pub(crate) struct Walk {
    pub(crate) rest: Row,
    pub(crate) certificate: Certificate,
}

impl Walk {
    // The walk at its begin: the whole question is left.
    pub(crate) fn begin(question: &Row) -> Walk
        ensures { Begun question.now.counts result }
    {
        // With `*question` a proof would not know how many counts there are.
        Walk {
            rest: Row {
                counts: question.counts,
            },
            certificate: Certificate::empty(),
        }
    }

    // Whether nothing is left.
    pub(crate) fn is_done(&self) -> bool
        ensures { result ≡ zeros self.now.rest.counts }
    {
        self.rest.counts.iter().all(|count| *count == 0)
    }

    // Whether the row can be taken: every step that it uses is in use in the rest.
    pub(crate) fn takes(&self, row: &Row) -> bool
        ensures { result ≡ within row.now.counts self.now.rest.counts }
    {
        row.counts
            .iter()
            .zip(&self.rest.counts)
            .all(|(count, left)| *count == 0 || *left != 0)
    }

    // Goes a round, which takes the row at k, counted from 0; none where the row uses no step, where a number is then too large, or where
    // 24 rows were taken: the walk is then at its end.
    pub(crate) fn take(&mut self, k: usize, row: &Row) -> Option<()>
        ensures { MatchOption result (Took k row.now.counts self.old None) (λ _. Took k row.now.counts self.old (Some self.new)) }
    {
        let ratio = least_ratio(row, &self.rest)?;
        self.certificate.extend(k, &ratio)?;
        self.rest = left(&self.rest, row, &ratio)?;
        Some(())
    }
}

// bottom × rest − top × row; none where a count of it is too large.
fn left(rest: &Row, row: &Row, ratio: &Ratio) -> Option<Row>
    requires { Least row.now.counts rest.now.counts ratio.now }
    ensures { Left row.now.counts rest.now.counts ratio.now result }
{
    let mut counts = rest.counts;
    // Of a zip with `iter_mut` no proof knows what was written, so the row is read by the index.
    for (j, count) in counts.iter_mut().enumerate() {
        *count = narrow(product(ratio.bottom, *count) - product(ratio.top, row.counts[j]))?;
    }
    Some(Row { counts })
}
