// Certifying: a question is answered with a certificate, with the first place that it breaks, or with why there is no certificate.
ghost use Rattle.std.specs.Prelude.{◌≡◌, ◌≤◌, ◌++◌, map, length, drop};
ghost use Rattle.certificate.specs.Shares.{coefficients_of};
ghost use Rattle.method.specs.Places.{effects_of};
ghost use Rattle.method.specs.Stepping.{wide};
ghost use Rattle.sheet.specs.Asking.{Asked, Breaks};
ghost use Rattle.sheet.specs.Certifying.{Certifying};
ghost use Rattle.sheet.specs.Sheets.{places_in};

use crate::{Answer, ClosedSheet, SheetFault};
use certificate::{Certificate, walk};
use ledger::{Ledger, Row};
use method::Place;

impl<L: Ledger> ClosedSheet<L> {
    // Answers whether a multiple of the question, one count a step, is a sum of multiples of the rows. Where it is, the first entries of
    // the list are the coefficients, one a row, and the others stay; in every other case the list stays as it was.
    // Refused where the counts are not as many as the steps, then where the list is shorter than the rows are many, then where a count is too large.
    pub fn certify(&self, question: &[u32], coefficients: &mut [u32]) -> Result<Answer, SheetFault>
        ensures { Certifying self.now.steps.n (places_in self.now) question.now coefficients.old result coefficients.new }
    {
        let count = self.rows.len();
        let counts = asked(self.steps.get(), count, question, coefficients.len())?;
        if let Some(place) = first_broken(self.places.as_slice(), &counts) {
            return Ok(Answer::Broken(place));
        }
        let Some(certificate) = walk(&self.rows, &counts) else {
            return Ok(Answer::TooLarge);
        };
        write_coefficients(&certificate, count, coefficients);
        Ok(Answer::Certified(certificate.multiplier()))
    }
}

// The counts of a question as a row, or why it cannot be asked: of how many steps, rows and entries of the list there are.
#[tactic(auto, using(crate::proofs::Asking::asked_all, crate::proofs::Asking::asked_large))]
fn asked(steps: usize, rows: usize, question: &[u32], entries: usize) -> Result<Row, SheetFault>
    requires { steps ≤ 24 }
    ensures { Asked steps rows question.now entries result }
{
    if question.len() != steps {
        return Err(SheetFault::Length);
    }
    if entries < rows {
        return Err(SheetFault::ListTooShort);
    }
    let counts = widened(question);
    if let Some(step) = counts.first_large() {
        return Err(SheetFault::Count(step));
    }
    Ok(counts)
}

// The counts as a row, with zeros behind them.
fn widened(counts: &[u32]) -> Row
    requires { length counts.now ≤ 24 }
    ensures { result.counts ≡ wide counts.now }
{
    let mut wide = [0; 24];
    wide[..counts.len()].copy_from_slice(counts);
    Row { counts: wide }
}

// The first place, from 1, whose sum on the counts is not 0.
fn first_broken(places: &[Place], counts: &Row) -> Option<usize>
    ensures { Breaks (map effects_of places.now) counts.now.counts result }
{
    let broken = places.iter().position(|place| place.sum(counts) != 0);
    broken.map(|i| i + 1)
}

// Writes the coefficients of the rows to the front of the list.
fn write_coefficients(certificate: &Certificate, rows: usize, list: &mut [u32])
    requires { rows ≤ length list.old }
    ensures { list.new ≡ coefficients_of rows certificate.now ++ drop rows list.old }
{
    for (k, entry) in list[..rows].iter_mut().enumerate() {
        *entry = certificate.coefficient(k);
    }
}
