// A line that was read, and its fields.
use crate::Mark;
use inline_list::InlineList;

// A number of the file, with its place: its line, and the column of its first byte, both from 1.
#[derive(Clone, Copy, Debug, PartialEq)]
pub struct Field {
    pub line: usize,
    pub column: usize,
    pub value: i32,
}

#[derive(Clone, Copy)]
pub struct Line {
    pub mark: Mark,
    // How many numbers the line has.
    pub count: usize,
    // The first 25 of them: one more than a net can have steps.
    pub fields: InlineList<Field, 25>,
    // How many bytes the line has, byte 10 included.
    pub end: usize,
}
