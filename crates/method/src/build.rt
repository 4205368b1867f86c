// All rows after one place more, into the spare ledger.
ghost use Rattle.method.specs.Places.{effects_of};
ghost use Rattle.method.specs.Building.{RowAdded, EvenAdded, PairsAdded, Built};

use crate::held::{Held, row_at};
use crate::order::put;
use crate::pairs::{are_adjacent, pair_row};
use crate::reading::Reading;
use crate::survey::{no_readings, survey_of};
use crate::{Place, StepFault};
use ledger::{Ledger, LedgerFault};

// What the spare ledger answered so far: all rows made fit, or its refusal of the first that did not.
type Room = Result<(), LedgerFault>;

// The rows with the sum 0, and the row of each adjacent pair, ascending. A row too large is told before a want of room.
pub(crate) fn build<L: Ledger>(current: &L, place: &Place, spare: &mut L) -> Result<(), StepFault>
    ensures { Built L.Ledger (effects_of place.now) current.now spare.old spare.new result }
{
    let mut survey = no_readings();
    survey_of(current, place, &mut survey);
    let readings = survey.as_slice();
    let mut room = add_balanced(current, readings, spare);
    for a in readings {
        room = add_pairs(current, readings, a, spare, room)?;
    }
    Ok(room?)
}

// Adds the rows with the sum 0 to the empty spare ledger.
fn add_balanced<L: Ledger>(current: &L, survey: &[Reading], spare: &mut L) -> Room
    ensures { EvenAdded L.Ledger current.now survey.now spare.old spare.new result }
{
    let mut room = Ok(());
    for reading in survey {
        if reading.sum == 0 {
            room = add(spare, &row_at(current, reading.row as usize), room);
        }
    }
    room
}

// Adds the rows of the pairs of row a with each row b that it is adjacent to.
fn add_pairs<L: Ledger>(
    current: &L,
    survey: &[Reading],
    a: &Reading,
    spare: &mut L,
    mut room: Room,
) -> Result<Room, StepFault>
    ensures { PairsAdded L.Ledger current.now survey.now a.now spare.old room spare.new result }
{
    for b in survey {
        if are_adjacent(survey, a, b) {
            let Some(held) = pair_row(current, a, b) else {
                return Err(StepFault::RowTooLarge);
            };
            room = add(spare, &held, room);
        }
    }
    Ok(room)
}

// Adds a new row to those made; once one had no room, none goes into the ledger any more.
fn add<L: Ledger>(spare: &mut L, held: &Held, room: Room) -> Room
    ensures { RowAdded L.Ledger spare.old held.now.row.counts room spare.new result }
{
    room?;
    put(spare, held)
}
