// The two kinds of sheet. They stand apart from their calls: a struct with a ghost field may not stand in a file whose `ghost use` lines lead back to it.
ghost use Rattle.std.specs.Prelude.{◌≡◌, []};
ghost use Rattle.sheet.specs.Held.{Holds, effects_in};

use crate::StepCount;
use inline_list::InlineList;
use ledger::Ledger;
use method::Place;

// The most places that a sheet accepts.
pub(crate) const MOST_PLACES: usize = 32;

// A sheet that takes places: the accepted ones in their order, the rows that they leave in the current ledger, and a spare one for the next rows.
#[derive(Drop)]
pub struct OpenSheet<L: Ledger> {
    pub(crate) steps: StepCount,
    pub(crate) places: InlineList<Place, MOST_PLACES>,
    pub(crate) current: L,
    pub(crate) spare: L,
    pub ghost held: { Holds L.Ledger steps.n (effects_in places) current },
    pub ghost spare_order: { ∥ L.Ledger.orderly spare ∥₁ },
    pub ghost spare_empty: { L.Ledger.rows spare ≡ [] },
}

// A sheet that takes no more places, with the places and the rows that it was closed with.
#[derive(Drop)]
pub struct ClosedSheet<L: Ledger> {
    pub(crate) steps: StepCount,
    pub(crate) places: InlineList<Place, MOST_PLACES>,
    pub(crate) rows: L,
    pub ghost held: { Holds L.Ledger steps.n (effects_in places) rows },
}
