// One line of a net file: the mark that opens it and its numbers, or the column at which no line can go on.
#![tactic(auto)]

ghost use Rattle.std.specs.Prelude.{◌∷◌};
ghost use Rattle.grammar.specs.Text.{letter};
ghost use Rattle.grammar.specs.Lines.{Answer, Exactly};

use inline_list::InlineList;

mod broken;
mod line;
mod mark;
mod reader;

pub use broken::BrokenLine;
pub use line::{Field, Line};
pub use mark::{Mark, Opening, read_mark};
use reader::Reader;

// The line with this mark, of whose bytes `bytes` begins with those behind the mark.
fn read_fields(mark: Mark, bytes: &[u8], number: usize) -> Result<Line, BrokenLine>
    ensures { Answer (letter mark ∷ (58 ∷ bytes.now)) number result }
{
    let mut count = 0;
    let mut fields = InlineList::new(Field {
        line: 0,
        column: 0,
        value: 0,
    });
    let mut reader = Reader {
        rest: bytes,
        column: 3,
    };
    while reader.another(mark, count)? {
        let field = Field {
            line: number,
            column: reader.column,
            value: reader.number(mark)?,
        };
        // Fields past 25 are counted and not kept.
        let _ = fields.push(field);
        count += 1;
    }
    Ok(Line {
        mark,
        count,
        fields,
        end: reader.column - 1,
    })
}

// Line `number` of a file, whose bytes `bytes` begins with, or the column of the first byte at which no line can go on.
pub fn read_line(bytes: &[u8], number: usize) -> Result<Line, BrokenLine>
    ensures told { Answer bytes.now number result }
    ensures exact { Exactly bytes.now number result }
{
    let opening = read_mark(bytes)?;
    read_fields(opening.mark, opening.rest, number)
}
