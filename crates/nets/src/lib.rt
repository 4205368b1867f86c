// Nets handed over whole: their places in a list.
#![tactic(auto)]

ghost use Rattle.std.specs.Prelude.{ℕ, map, IfOk, MatchResult};
ghost use Rattle.method.specs.Places.{effects_of};
ghost use Rattle.sheet.specs.Sheets.{Opened};
ghost use Rattle.sheet.specs.Order.{Ordered};
ghost use Rattle.nets.specs.Nets.{Filled, FilledInOrder, SheetOf, SheetInOrder, Stops, Tells, Refused};

use ledger::{Ledger, Ledgers};
use method::Place;
use sheet::{ClosedSheet, Comparison, OpenSheet, SheetFault, StepCount, compare};

// How many steps a net has, and its places.
#[derive(Clone, Copy)]
pub struct Net<'a> {
    pub steps: StepCount,
    pub places: &'a [Place],
}

// Whether two nets have the same cycles, by two sheets on ledgers of any two kinds; or why a sheet refuses a place.
pub fn same_nets<L: Ledger + Drop, M: Ledger + Drop>(
    left: Net<'_>,
    left_ledgers: Ledgers<L>,
    right: Net<'_>,
    right_ledgers: Ledgers<M>,
) -> Result<Comparison, SheetFault>
    ensures { MatchResult result (λ answer. Tells left.entry.steps.n (map effects_of left.entry.places.now) right.entry.steps.n (map effects_of right.entry.places.now) answer) (λ fault. Refused L.Ledger left.entry.steps.n (map effects_of left.entry.places.now) M.Ledger right.entry.steps.n (map effects_of right.entry.places.now) fault) }
{
    let a = closed_sheet(left, left_ledgers)?;
    let b = closed_sheet(right, right_ledgers)?;
    Ok(compare(&a, &b))
}

// The closed sheet of a net, or the refusal of the first place that is not accepted.
pub fn closed_sheet<L: Ledger + Drop>(
    net: Net<'_>,
    ledgers: Ledgers<L>,
) -> Result<ClosedSheet<L>, SheetFault>
    ensures made { MatchResult result (λ c. SheetOf net.entry.steps.n (map effects_of net.entry.places.now) c) (λ fault. Stops L.Ledger net.entry.steps.n (map effects_of net.entry.places.now) fault) }
    ensures order { IfOk result (λ c. SheetInOrder net.entry.steps.n (map effects_of net.entry.places.now) c) }
{
    let mut sheet = OpenSheet::open(net.steps, ledgers);
    offer_each(&mut sheet, net.places)?;
    Ok(sheet.close())
}

// Offers each place to a sheet without places, up to the first that is refused.
fn offer_each<L: Ledger>(sheet: &mut OpenSheet<L>, places: &[Place]) -> Result<(), SheetFault>
    ensures offered { (n : ℕ) → Opened n sheet.old → MatchResult result (λ _. Filled n (map effects_of places.now) sheet.new) (λ fault. Stops L.Ledger n (map effects_of places.now) fault) }
    ensures order { (n : ℕ) → Opened n sheet.old → Ordered sheet.old → IfOk result (λ _. FilledInOrder n (map effects_of places.now) sheet.new) }
{
    for place in places {
        sheet.offer(place.effects())?;
    }
    Ok(())
}
