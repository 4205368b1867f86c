// The questions of a file, each with its answer.
ghost use Rattle.std.specs.Prelude.{◌≡◌, ℕ, List, [], length, MatchResult};
ghost use Rattle.inline_list.specs.Items.{items};
ghost use Rattle.cycle_theory.specs.Walk.{outcome};
ghost use Rattle.sheet.specs.Sheets.{closed_list};
ghost use Rattle.grammar.specs.Text.{Record, question};
ghost use Rattle.grammar.specs.Lines.{Shows};
ghost use Rattle.netfile.specs.Printouts.{outcome_line};
ghost use Rattle.netfile.specs.Files.{answer, places_of, FirstFault};
ghost use Rattle.netfile.specs.Reading.{AsSheet, ClosedOf, judged_line, NetRead, FileRead};

use crate::reader::Reader;
use crate::values::values_of;
use crate::{FileFault, RunFault};
use grammar::Line;
use inline_list::InlineList;
use ledger::Ledger;
use sheet::{Answer, ClosedSheet};

// An answer; where it is a certificate, a coefficient for each row comes first in the list, which has room for the most rows of any
// ledger: a run takes no memory.
#[derive(Clone, Copy)]
pub(crate) struct Judged {
    pub(crate) answer: Answer,
    pub(crate) coefficients: [u32; 1024],
}

// Asks the question of a line.
fn ask_line<L: Ledger>(sheet: &ClosedSheet<L>, line: &Line) -> Result<Judged, FileFault>
    ensures { (i : ℕ) (rs : List Record) (counts : List ℕ) → Shows i line.now (question counts) → ClosedOf sheet.now rs → AsSheet (answer L.Ledger rs (question counts)) (λ judged. judged_line (length (closed_list sheet.now)) judged ≡ outcome_line (outcome (places_of rs) (closed_list sheet.now) counts)) result }
{
    let counts = values_of::<u32>(line);
    let mut coefficients = [0; 1024];
    let answer = sheet.certify(counts.as_slice(), &mut coefficients)?;
    Ok(Judged {
        answer,
        coefficients,
    })
}

// The answers to the questions of a file: of a 17th none is given.
pub(crate) type Answers = InlineList<Judged, 16>;

// No answer.
pub(crate) fn no_answers() -> Answers
    ensures { items result ≡ [] }
{
    InlineList::new(Judged {
        answer: Answer::TooLarge,
        coefficients: [0; 1024],
    })
}

// Reads the questions to the file's end, and answers each. The caller lends the list, since moving 64 KiB from call to call takes as long
// as the rest of a small run.
pub(crate) fn read_questions<L: Ledger>(
    reader: &mut Reader<'_>,
    sheet: &ClosedSheet<L>,
    answers: &mut Answers,
) -> Result<(), RunFault>
    requires net { (s : List ℕ) × NetRead L.Ledger s reader.old sheet.now }
    requires none { items answers.old ≡ [] }
    ensures { (s : List ℕ) → NetRead L.Ledger s reader.old sheet.now → MatchResult result (λ _. FileRead L.Ledger s sheet.now (items answers.new)) (λ fault. FirstFault L.Ledger s fault) }
{
    while let Some(line) = reader.next_line()? {
        let judged = reader.locate(&line, ask_line(sheet, &line))?;
        // There is room: a 17th question is refused when its line is read.
        answers.push(judged).unwrap();
    }
    Ok(())
}
