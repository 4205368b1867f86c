// Opening a sheet, offering places to it, its row count, and closing it.
ghost use Rattle.std.specs.Prelude.{◌≡◌};
ghost use Rattle.sheet.specs.Sheets.{Opened, Offered, Told, Closed};
ghost use Rattle.sheet.specs.Runs.{PromiseOfClosing};
ghost use Rattle.sheet.specs.Order.{Ordered, OrderOfClosing};

use crate::{ClosedSheet, OpenSheet, SheetFault, StepCount};
use inline_list::InlineList;
use ledger::{Ledger, Ledgers};
use method::{Place, first_rows, next_rows};

impl<L: Ledger> OpenSheet<L> {
    // A sheet of the single steps, with no place. Both ledgers are emptied first, whatever they held.
    pub fn open(steps: StepCount, ledgers: Ledgers<L>) -> OpenSheet<L>
        ensures opened { Opened steps.n result }
        ensures order { Ordered result }
    {
        let Ledgers {
            mut current,
            mut spare,
        } = ledgers;
        first_rows(&mut current, steps.get());
        spare.clear();
        OpenSheet {
            steps,
            places: InlineList::new(Place::none()),
            current,
            spare,
        }
    }

    // Adds the place of these effects, one a step, and its rows; or refuses it with the first cause that holds, and is as it was.
    #[tactic(auto, using(crate::proofs::Causes::told_length, crate::proofs::Offers::told_fault, crate::proofs::Offers::told_places, crate::proofs::Offers::refused_so))]
    pub fn offer(&mut self, effects: &[i32]) -> Result<(), SheetFault>
        ensures offered { Offered self.old effects.now result self.new }
        ensures order { Ordered self.old → Ordered self.new }
    {
        if effects.len() != self.steps.get() {
            return Err(SheetFault::Length);
        }
        let place = Place::new(effects)?;
        self.places.check_room()?;
        next_rows(&self.current, &place, &mut self.spare)?;
        // There is room, so that this is not refused.
        let _ = self.places.push(place);
        std::mem::swap(&mut self.current, &mut self.spare);
        self.spare.clear();
        Ok(())
    }

    // How many rows the sheet has: the minimal cycles of its places.
    pub fn row_count(&self) -> usize
        ensures { Told self.now result }
    {
        self.current.len()
    }

    // Uses the open sheet up, and gives a closed one with the same places and rows.
    pub fn close(self) -> ClosedSheet<L>
    where
        L: Drop,
        ensures closed { Closed self result }
        ensures promise { PromiseOfClosing self result }
        ensures order { OrderOfClosing self result }
    {
        let OpenSheet {
            steps,
            places,
            current,
            spare: _,
        } = self;
        ClosedSheet {
            steps,
            places,
            rows: current,
        }
    }
}
