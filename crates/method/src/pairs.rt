// The rows of pairs of current rows.
ghost use Rattle.std.specs.Prelude.{ℕ, List, ℤ, Decides};
ghost use Rattle.method.specs.Surveys.{Told, Surveyed};
ghost use Rattle.method.specs.Building.{Adjacent, PairMade};

use crate::combine::combine_rows;
use crate::held::{Held, row_at};
use crate::reading::Reading;
use crate::third::third_row;
use ledger::Ledger;

// Whether rows a and b give a new row: the place gains by a and loses by b, and no third row uses only steps of the two.
pub(crate) fn are_adjacent(survey: &[Reading], a: &Reading, b: &Reading) -> bool
    ensures { (p : List ℤ) (rows : List (List ℕ)) → Surveyed p rows survey.now → Told p rows a.now → Told p rows b.now → Decides result (Adjacent p rows a.now.row b.now.row) }
{
    a.sum > 0 && b.sum < 0 && !third_row(survey, a, b)
}

// The row of the adjacent rows a and b, in which each is taken as often as the place counts by the other, so that gain and loss
// are equal; none where it is too large to hold.
pub(crate) fn pair_row<L: Ledger>(current: &L, a: &Reading, b: &Reading) -> Option<Held>
    ensures { PairMade L.Ledger current.now a.now b.now result }
{
    let s = a.sum.unsigned_abs();
    let r = b.sum.unsigned_abs();
    let u = row_at(current, a.row as usize);
    let v = row_at(current, b.row as usize);
    combine_rows(&u, &v, r, s)
}
