// The run call.
ghost use Rattle.std.specs.Prelude.{◌≡◌, ◌≤◌, [], length, IfOk, MatchResult};
ghost use Rattle.inline_list.specs.Items.{items};
ghost use Rattle.sheet.specs.Order.{RowsOrdered};
ghost use Rattle.netfile.specs.Reading.{FileRead};
ghost use Rattle.netfile.specs.Runs.{Unread, SheetRead, Ran, OnlyRun, OneReading, OnlySheet};

use crate::net::read_net;
use crate::printout::print;
use crate::questions::{Answers, no_answers, read_questions};
use crate::reader::Reader;
use crate::{FileFault, RunFault};
use ledger::{Ledger, Ledgers};
use sheet::ClosedSheet;

// The most bytes that a file may have.
const LONGEST: usize = 16_384;

// Reads a whole file: the sheet that its lines make, with the answers to its questions, or its first fault.
fn read_file<L: Ledger + Drop>(
    file: &[u8],
    ledgers: Ledgers<L>,
    answers: &mut Answers,
) -> Result<ClosedSheet<L>, RunFault>
    requires { items answers.old ≡ [] }
    ensures read { MatchResult result (λ sheet. (length file.now ≤ 16384) × FileRead L.Ledger file.now sheet (items answers.new)) (λ fault. Unread L.Ledger file.now fault) }
    ensures order { IfOk result (λ sheet. RowsOrdered sheet) }
{
    if file.len() > LONGEST {
        return Err(RunFault::of_file(FileFault::TooLong));
    }
    let mut reader = Reader::new(file);
    let sheet = read_net(&mut reader, ledgers)?;
    read_questions(&mut reader, &sheet, answers)?;
    Ok(sheet)
}

// Runs a net file: writes the printout to the front of the buffer and tells how long it is, or tells the first fault.
// Bytes of the buffer past the printout stay, and all of them where a fault is told. Both ledgers are used up.
pub fn run<L: Ledger + Drop>(
    file: &[u8],
    out: &mut [u8],
    ledgers: Ledgers<L>,
) -> Result<usize, RunFault>
    ensures ran { Ran L.Ledger file.now out.old result out.new }
    ensures only { OnlyRun L.Ledger file.now out.old result out.new }
{
    let mut answers = no_answers();
    let sheet = read_file(file, ledgers, &mut answers)?;
    print(out, &sheet, answers.as_slice()).map_err(RunFault::of_file)
}

// The closed sheet of a net file. Its questions are judged too, so that the first fault is the one that a run tells.
pub fn read_sheet<L: Ledger + Drop>(
    file: &[u8],
    ledgers: Ledgers<L>,
) -> Result<ClosedSheet<L>, RunFault>
    ensures read { MatchResult result (λ sheet. SheetRead L.Ledger file.now sheet) (λ fault. Unread L.Ledger file.now fault) }
    ensures only { OnlySheet L.Ledger file.now result }
    ensures one { OneReading L.Ledger }
    ensures order { IfOk result (λ sheet. RowsOrdered sheet) }
{
    let mut unread = no_answers();
    let sheet = read_file(file, ledgers, &mut unread)?;
    Ok(sheet)
}
