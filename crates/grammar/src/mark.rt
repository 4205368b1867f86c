// The marks that open lines. A mark is a letter and a colon, and says what its line can hold.
ghost use Rattle.std.specs.Prelude.{◌≡◌, ◌<◌, length, MatchOption, MatchResult, ◌≢◌};
ghost use Rattle.grammar.specs.Text.{letter};
ghost use Rattle.grammar.specs.Lines.{Opened, Unmarked};
ghost use Rattle.grammar.specs.Reading.{room_at, enough_at, signs};

use crate::BrokenLine;

#[derive(Clone, Copy, Debug, PartialEq)]
pub enum Mark {
    // `N:`, the number of steps.
    Steps,
    // `S:`, the standing net.
    Standing,
    // `P:`, a place.
    Place,
    // `Q:`, a question.
    Question,
}

impl Mark {
    // Whether another number can follow so many of them.
    pub(crate) fn has_room(self, count: usize) -> bool
        ensures { result ≡ room_at self count }
    {
        match self {
            Mark::Steps => count == 0,
            Mark::Standing => false,
            Mark::Place | Mark::Question => true,
        }
    }

    // Whether the line can end after so many numbers.
    pub(crate) fn can_end(self, count: usize) -> bool
        ensures { result ≡ enough_at self count }
    {
        match self {
            Mark::Steps => count != 0,
            _ => true,
        }
    }

    // Whether a number can have a minus.
    pub(crate) fn has_signs(self) -> bool
        ensures { result ≡ signs self }
    {
        matches!(self, Mark::Place)
    }
}

// The mark that the letter begins. No `TryFrom`: its error would say no more than `None` does.
fn mark_of(first: u8) -> Option<Mark>
    ensures { MatchOption result ((m : Mark) → first ≢ letter m) (λ m. first ≡ letter m) }
{
    match first {
        b'N' => Some(Mark::Steps),
        b'S' => Some(Mark::Standing),
        b'P' => Some(Mark::Place),
        b'Q' => Some(Mark::Question),
        _ => None,
    }
}

// Where a line that is cut in its mark breaks.
fn cut_mark(line: &[u8]) -> BrokenLine
    requires { length line.now < 2 }
    ensures { Unmarked line.now result.column }
{
    let [first, ..] = line else {
        return BrokenLine { column: 1 };
    };
    let Some(_) = mark_of(*first) else {
        return BrokenLine { column: 1 };
    };
    BrokenLine { column: 2 }
}

// A line cut behind its mark.
#[derive(Clone, Copy)]
pub struct Opening<'a> {
    pub mark: Mark,
    pub rest: &'a [u8],
}

// The mark that the bytes begin with, and the bytes behind it, or the column at which no line can go on.
pub fn read_mark<'a>(line: &'a [u8]) -> Result<Opening<'a>, BrokenLine>
    ensures { MatchResult result (λ o. Opened line.now o.mark o.rest.now) (λ e. Unmarked line.now e.column) }
{
    let [a, b, rest @ ..] = line else {
        return Err(cut_mark(line));
    };
    let Some(mark) = mark_of(*a) else {
        return Err(BrokenLine { column: 1 });
    };
    if *b != b':' {
        return Err(BrokenLine { column: 2 });
    }
    Ok(Opening { mark, rest })
}
