// Reads the numbers of a line, from the bytes behind its mark on.
ghost use Rattle.std.specs.Prelude.{◌≡◌, ◌+◌, ◌^◌, ◌<◌, length};
ghost use Rattle.grammar.specs.Reading.{Passed, Digit, Digits, Number, Another};

use crate::{BrokenLine, Mark};

// The bytes of a line that have not been read yet.
#[derive(Drop)]
pub(crate) struct Reader<'a> {
    pub(crate) rest: &'a [u8],
    // The column of the first of them, from 1.
    pub(crate) column: usize,
    ghost within: { column + length rest.now < 2 ^ 64 },
}

// Whatever is read, column and rest move together: each call says so, since that relates the reader before and after.
impl<'a> Reader<'a> {
    // The fault that no line can go on here.
    fn broken(&self) -> BrokenLine
        ensures { result.column ≡ self.now.column }
    {
        BrokenLine {
            column: self.column,
        }
    }

    // Goes past the byte, where it comes next.
    fn passes(&mut self, byte: u8) -> bool
        ensures column { self.new.column + length self.new.rest.now ≡ self.old.column + length self.old.rest.now }
        ensures passed { Passed self.old.rest.now byte result self.new.rest.now }
    {
        let [first, rest @ ..] = self.rest else {
            return false;
        };
        if *first != byte {
            return false;
        }
        self.rest = rest;
        self.column += 1;
        true
    }

    // Goes past a digit, where one comes next, and tells it.
    fn digit(&mut self) -> Option<u32>
        ensures column { self.new.column + length self.new.rest.now ≡ self.old.column + length self.old.rest.now }
        ensures read { Digit self.old.rest.now result self.new.rest.now }
    {
        let [digit @ b'0'..=b'9', rest @ ..] = self.rest else {
            return None;
        };
        self.rest = rest;
        self.column += 1;
        Some((*digit - b'0') as u32)
    }

    // The value of the digits here, as many as one number can have.
    fn digits(&mut self) -> Option<u32>
        ensures column { self.new.column + length self.new.rest.now ≡ self.old.column + length self.old.rest.now }
        ensures read { Digits self.old.rest.now result self.new.rest.now }
    {
        let mut value = self.digit()?;
        while value > 0 && value <= 999_999 {
            let Some(digit) = self.digit() else {
                break;
            };
            value = value * 10 + digit;
        }
        Some(value)
    }

    // The number here, with a minus only where the mark allows it.
    pub(crate) fn number(&mut self, mark: Mark) -> Result<i32, BrokenLine>
        ensures column { self.new.column + length self.new.rest.now ≡ self.old.column + length self.old.rest.now }
        ensures read { Number self.old.rest.now self.old.column mark result self.new.rest.now }
    {
        let minus = mark.has_signs() && self.passes(b'-');
        let broken = self.broken();
        let Some(value) = self.digits() else {
            return Err(broken);
        };
        if !minus {
            return Ok(value as i32);
        }
        if value == 0 {
            return Err(broken);
        }
        Ok(-(value as i32))
    }

    // Goes past the space before another number, or past byte 10, which ends the line; tells whether a number comes.
    pub(crate) fn another(&mut self, mark: Mark, count: usize) -> Result<bool, BrokenLine>
        ensures column { self.new.column + length self.new.rest.now ≡ self.old.column + length self.old.rest.now }
        ensures told { Another self.old.rest.now self.old.column mark count result self.new.rest.now }
    {
        if mark.has_room(count) && self.passes(b' ') {
            return Ok(true);
        }
        if mark.can_end(count) && self.passes(b'\n') {
            return Ok(false);
        }
        Err(self.broken())
    }
}
