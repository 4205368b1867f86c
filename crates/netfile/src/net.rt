// What the lines of a file say to a sheet.
ghost use Rattle.std.specs.Prelude.{◌≡◌, ℕ, List, [], ◌∷◌, map, ℤ, IfOk, MatchResult, slice_index_or, unsigned_abs};
ghost use Rattle.inline_list.specs.Items.{items};
ghost use Rattle.sheet.specs.Order.{Ordered, RowsOrdered};
ghost use Rattle.grammar.specs.Text.{Record, standing, place, mark};
ghost use Rattle.grammar.specs.Lines.{Shows};
ghost use Rattle.netfile.specs.Standing.{standing_places};
ghost use Rattle.netfile.specs.Order.{rank};
ghost use Rattle.netfile.specs.Files.{answer, offered, FirstFault};
ghost use Rattle.netfile.specs.Reading.{Unbegun, AsSheet, SheetOf, NetRead};

use crate::reader::Reader;
use crate::standing::standing_net;
use crate::values::values_of;
use crate::{FileFault, RunFault};
use grammar::{Line, Mark};
use ledger::{Ledger, Ledgers};
use sheet::{ClosedSheet, OpenSheet, StepCount};

// A sheet of the standing net.
fn open_standing<L: Ledger + Drop>(ledgers: Ledgers<L>) -> Result<OpenSheet<L>, FileFault>
    ensures said { AsSheet (offered L.Ledger 7 [] standing_places) (λ sheet. SheetOf sheet (standing ∷ [])) result }
    ensures order { IfOk result (λ sheet. Ordered sheet) }
{
    let steps = StepCount::new(7)?;
    let mut sheet = OpenSheet::open(steps, ledgers);
    let places = standing_net();
    for place in &places {
        sheet.offer(&place.effects)?;
    }
    Ok(sheet)
}

// The number of a line of steps, of which the grammar has one; where there were none, 0 steps are refused as none.
fn first_number(line: &Line) -> usize
    ensures { result ≡ slice_index_or (map (λ f. unsigned_abs f.value) (items line.now.fields)) 0 0 }
{
    match line.fields.as_slice() {
        [field, ..] => field.value.unsigned_abs() as usize,
        [] => 0,
    }
}

// The sheet that the first line of a file opens.
fn open_line<L: Ledger + Drop>(line: &Line, ledgers: Ledgers<L>) -> Result<OpenSheet<L>, FileFault>
    ensures said { (i : ℕ) (of : Record) → Shows i line.now of → rank (mark of) ≡ 0 → AsSheet (answer L.Ledger [] of) (λ sheet. SheetOf sheet (of ∷ [])) result }
    ensures order { IfOk result (λ sheet. Ordered sheet) }
{
    match line.mark {
        Mark::Standing => open_standing(ledgers),
        _ => {
            let steps = StepCount::new(first_number(line))?;
            Ok(OpenSheet::open(steps, ledgers))
        }
    }
}

// Offers the place of a line.
fn offer_line<L: Ledger>(sheet: &mut OpenSheet<L>, line: &Line) -> Result<(), FileFault>
    ensures said { (i : ℕ) (rs : List Record) (effects : List ℤ) → Shows i line.now (place effects) → SheetOf sheet.old rs → AsSheet (answer L.Ledger rs (place effects)) (λ _. SheetOf sheet.new (place effects ∷ rs)) result }
    ensures order { Ordered sheet.old → Ordered sheet.new }
{
    let effects = values_of::<i32>(line);
    sheet.offer(effects.as_slice())?;
    Ok(())
}

// Reads the first line and the places of a file, and closes the sheet that they make.
pub(crate) fn read_net<L: Ledger + Drop>(
    reader: &mut Reader<'_>,
    ledgers: Ledgers<L>,
) -> Result<ClosedSheet<L>, RunFault>
    ensures read { (s : List ℕ) → Unbegun s reader.old → MatchResult result (λ sheet. NetRead L.Ledger s reader.new sheet) (λ fault. FirstFault L.Ledger s fault) }
    ensures order { IfOk result (λ sheet. RowsOrdered sheet) }
{
    let Some(first) = reader.next_line()? else {
        return Err(RunFault::of_line(FileFault::Order, 1, 1));
    };
    let mut sheet = reader.locate(&first, open_line(&first, ledgers))?;
    while let Some(line) = reader.next_place()? {
        reader.locate(&line, offer_line(&mut sheet, &line))?;
    }
    Ok(sheet.close())
}
