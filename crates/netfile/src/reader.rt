// Reads a net file line by line.
ghost use Rattle.std.specs.Prelude.{◌≡◌, ◌+◌, ◌^◌, ◌<◌, ◌≤◌, length};

use crate::order::{asks_of, in_order};
use crate::{FileFault, RunFault};
use grammar::{BrokenLine, Line, Mark, read_line, read_mark};

// What is left of a file, and what is known of the lines before it.
#[derive(Drop)]
pub(crate) struct Reader<'a> {
    rest: &'a [u8],
    // How many lines were read, the mark of the nearest, and how many questions are among them.
    lines: usize,
    before: Option<Mark>,
    questions: usize,
    ghost room: { lines + length rest.now < 2 ^ 64 },
    ghost few: { questions ≤ 16 },
}

impl<'a> Reader<'a> {
    ghost use Rattle.std.specs.Prelude.{Decides, MatchResult, IsErrAnd};
    ghost use Rattle.grammar.specs.declared.mark.Mark.TheVariants.{Place};
    ghost use Rattle.grammar.specs.Lines.{Opens};
    ghost use Rattle.netfile.specs.Reading.{Unbegun, Told, NextLine, NextPlace, Located};

    // Nothing has been read.
    pub(crate) fn new(file: &'a [u8]) -> Reader<'a>
        ensures { Unbegun file.now result }
    {
        Reader {
            rest: file,
            lines: 0,
            before: None,
            questions: 0,
        }
    }

    // The line that comes; the order of its mark is judged first, then its grammar.
    fn line(&self) -> Result<Line, RunFault>
        requires { 0 < length self.now.rest.now }
        ensures { Told self.now result }
    {
        let number = self.lines + 1;
        let broken = |line: BrokenLine| RunFault::of_line(FileFault::Grammar, number, line.column);
        let unordered = |fault| RunFault::of_line(fault, number, 1);
        let opening = read_mark(self.rest).map_err(broken)?;
        in_order(self.before, self.questions, opening.mark).map_err(unordered)?;
        read_line(self.rest, number).map_err(broken)
    }

    // Reads the next line, if the file goes on.
    pub(crate) fn next_line(&mut self) -> Result<Option<Line>, RunFault>
        ensures { NextLine self.old result self.new }
    {
        if self.rest.is_empty() {
            return Ok(None);
        }
        let line = self.line()?;
        self.rest = &self.rest[line.end..];
        self.lines += 1;
        self.before = Some(line.mark);
        self.questions += asks_of(line.mark);
        Ok(Some(line))
    }

    // Whether the line that comes is marked as a place.
    fn at_place(&self) -> bool
        ensures { Decides result (Opens self.now.rest.now Place) }
    {
        match read_mark(self.rest) {
            Ok(opening) => matches!(opening.mark, Mark::Place),
            Err(_) => false,
        }
    }

    // Reads the next line, if it is marked as a place.
    pub(crate) fn next_place(&mut self) -> Result<Option<Line>, RunFault>
        ensures { NextPlace self.old result self.new }
    {
        if self.at_place() {
            self.next_line()
        } else {
            Ok(None)
        }
    }

    // The fault that the sheet found in what the last line says: at the field of the step that it names, or else at the line's begin.
    fn fault_in(&self, line: &Line, fault: FileFault) -> RunFault
        ensures { Located line.now self.now.lines fault result }
    {
        let fields = line.fields.as_slice();
        let named = match fault {
            FileFault::Sheet(cause) => cause.step(),
            _ => None,
        };
        match named {
            Some(step) if 1 <= step && step <= fields.len() => {
                let field = fields[step - 1];
                RunFault::of_line(fault, field.line, field.column)
            }
            _ => RunFault::of_line(fault, self.lines, 1),
        }
    }

    // What the sheet said to the last line, with a fault told at its place.
    // A closure in `map_err` would have to repeat this clause.
    pub(crate) fn locate<T>(&self, line: &Line, said: Result<T, FileFault>) -> Result<T, RunFault>
        ensures { MatchResult said (λ x. result ≡ Ok x) (λ fault. IsErrAnd result (Located line.now self.now.lines fault)) }
    {
        match said {
            Ok(made) => Ok(made),
            Err(fault) => Err(self.fault_in(line, fault)),
        }
    }
}
