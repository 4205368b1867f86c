// The printout of a run, and the line that tells a fault.
ghost use Rattle.std.specs.Prelude.{◌≡◌, ◌-◌, ◌≤◌, [], length, slice_index_or};
ghost use Rattle.std.specs.List.{flat_map};
ghost use Rattle.sheet.specs.Sheets.{closed_list};
ghost use Rattle.netfile.specs.Sinks.{Puts};
ghost use Rattle.netfile.specs.Printouts.{row_line, fault_line, Wrote};
ghost use Rattle.netfile.specs.Reading.{judged_line, sheet_text};

use crate::printing::{Text, put_certificate, put_line, write};
use crate::questions::Judged;
use crate::sink::Sink;
use crate::{FileFault, Position, RunFault};
use ledger::Ledger;
use sheet::{Answer, ClosedSheet};

// What a run prints.
#[derive(Drop)]
struct Printout<'a, L: Ledger> {
    sheet: &'a ClosedSheet<L>,
    answers: &'a [Judged],
}

impl<L: Ledger> Printout<'_, L> {
    // The line of row k, counted from 1.
    fn put_row<S: Sink>(&self, sink: &mut S, k: usize) -> Result<(), FileFault>
        requires { (1 ≤ k) × (k ≤ length (closed_list self.now.sheet.now)) }
        ensures { Puts S.room S.takes sink.old (row_line (slice_index_or (closed_list self.now.sheet.now) (k - 1) [])) result sink.new }
    {
        let mut counts = [0u32; 24];
        self.sheet.read_row(k, &mut counts)?;
        put_line(sink, b"C:", &counts[0..self.sheet.steps()])
    }

    // The lines of the rows.
    fn put_rows<S: Sink>(&self, sink: &mut S) -> Result<(), FileFault>
        ensures { Puts S.room S.takes sink.old (flat_map row_line (closed_list self.now.sheet.now)) result sink.new }
    {
        // A closed sheet tells its rows by number.
        for k in 1..=self.sheet.row_count() {
            self.put_row(sink, k)?;
        }
        Ok(())
    }

    // How many coefficients a certificate has: one a row, and no ledger holds more than 1,024 rows.
    fn coefficient_count(&self) -> usize
        ensures value { result ≡ length (closed_list self.now.sheet.now) }
        ensures few { result ≤ 1024 }
    {
        self.sheet.row_count()
    }

    // The line of an answer.
    fn put_answer<S: Sink>(&self, sink: &mut S, judged: &Judged) -> Result<(), FileFault>
        ensures { Puts S.room S.takes sink.old (judged_line (length (closed_list self.now.sheet.now)) judged.now) result sink.new }
    {
        match judged.answer {
            Answer::Certified(multiplier) => {
                let coefficients = &judged.coefficients[..self.coefficient_count()];
                put_certificate(sink, multiplier, coefficients)
            }
            Answer::Broken(place) => put_line(sink, b"R:", &[9, place]),
            Answer::TooLarge => put_line(sink, b"R:", &[10u32, 0]),
        }
    }

    // The lines of the answers.
    fn put_answers<S: Sink>(&self, sink: &mut S) -> Result<(), FileFault>
        ensures { Puts S.room S.takes sink.old (flat_map (judged_line (length (closed_list self.now.sheet.now))) self.now.answers.now) result sink.new }
    {
        for judged in self.answers {
            self.put_answer(sink, judged)?;
        }
        Ok(())
    }
}

impl<L: Ledger> Text for Printout<'_, L> {
    ghost text = { λ printout. sheet_text (closed_list printout.sheet.now) printout.answers.now };

    fn put_into<S: Sink>(&self, sink: &mut S) -> Result<(), FileFault> {
        put_line(sink, b"M:", &[self.sheet.row_count()])?;
        self.put_rows(sink)?;
        self.put_answers(sink)
    }
}

// Writes the printout to the front of the buffer, and tells how long it is; nothing is written where it has no room.
pub(crate) fn print<L: Ledger>(
    out: &mut [u8],
    sheet: &ClosedSheet<L>,
    answers: &[Judged],
) -> Result<usize, FileFault>
    ensures { Wrote (sheet_text (closed_list sheet.now) answers.now) result out.old out.new }
{
    write(&Printout { sheet, answers }, out)
}

// A fault is told as `F:` with its number, layer, line and column.
impl Text for RunFault {
    ghost text = { fault_line };

    fn put_into<S: Sink>(&self, sink: &mut S) -> Result<(), FileFault> {
        let at = self.at.unwrap_or(Position { line: 0, column: 0 });
        let numbers = [
            self.fault.number() as u64,
            self.fault.layer() as u64,
            at.line as u64,
            at.column as u64,
        ];
        put_line(sink, b"F:", &numbers)
    }
}

// Writes the line of a fault to the front of the buffer, and tells how long it is.
// The rest of the buffer stays; where the line has no room, all of it does.
pub fn write_fault(fault: &RunFault, out: &mut [u8]) -> Result<usize, FileFault>
    ensures { Wrote (fault_line fault.now) result out.old out.new }
{
    write(fault, out)
}
