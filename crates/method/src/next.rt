// The rows after one place more.
ghost use Rattle.method.specs.Places.{effects_of};
ghost use Rattle.method.specs.Stepping.{Next};

use crate::build::build;
use crate::{Place, StepFault};
use ledger::Ledger;

// From the current rows and a place to the rows of all places with it, in the spare ledger, which comes and, where the place is
// refused, stays empty. The current ledger is only read.
pub fn next_rows<L: Ledger>(current: &L, place: &Place, spare: &mut L) -> Result<(), StepFault>
    ensures { Next L.Ledger (effects_of place.now) current.now spare.old result spare.new }
{
    let answer = build(current, place, spare);
    if answer.is_err() {
        spare.clear();
    }
    answer
}
