// The order of the lines of a file, by their marks: `N:` or `S:` once and first, then `P:` lines, then at most 16 `Q:` lines.
ghost use Rattle.std.specs.Prelude.{◌≡◌, ◌≤◌};
ghost use Rattle.netfile.specs.Order.{asks, follows, Ordered};

use crate::FileFault;
use grammar::Mark;

// How many questions a line with this mark asks.
pub(crate) fn asks_of(mark: Mark) -> usize
    ensures value { result ≡ asks mark }
    ensures small { result ≤ 1 }
{
    match mark {
        Mark::Question => 1,
        _ => 0,
    }
}

// Whether a line with this mark can follow one with the mark `before`, or come first.
fn can_follow(before: Option<Mark>, mark: Mark) -> bool
    ensures { result ≡ follows before mark }
{
    match (before, mark) {
        (None, Mark::Steps | Mark::Standing) => true,
        (Some(Mark::Question), Mark::Place) => false,
        (Some(_), Mark::Place | Mark::Question) => true,
        _ => false,
    }
}

// Whether a line with this mark can come after the mark `before` and so many questions.
pub(crate) fn in_order(before: Option<Mark>, questions: usize, mark: Mark) -> Result<(), FileFault>
    requires { questions ≤ 16 }
    ensures { Ordered before questions mark result }
{
    if !can_follow(before, mark) {
        return Err(FileFault::Order);
    }
    if mark == Mark::Question && questions >= 16 {
        return Err(FileFault::TooManyQuestions);
    }
    Ok(())
}
