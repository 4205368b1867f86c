// The third-row test, on steps in use alone: a pair gives a new row where no third row uses only steps of the pair.
ghost use Rattle.std.specs.Prelude.{◌≡◌, ℕ, ◌-◌, List, ℤ, Decides, ◌==◌, bit_and};
ghost use Rattle.method.specs.Surveys.{Told, Surveyed, Third};

use crate::reading::Reading;

// Whether a third row uses only steps which rows a and b use between them.
pub(crate) fn third_row(survey: &[Reading], a: &Reading, b: &Reading) -> bool
    ensures { (p : List ℤ) (rows : List (List ℕ)) → Surveyed p rows survey.now → Told p rows a.now → Told p rows b.now → Decides result (Third rows a.now.row b.now.row) }
{
    let pair = a.mask | b.mask;
    // The masks first: nearly every row fails there.
    survey.iter().any(|c| uses_only(c.mask, pair) && c.row != a.row && c.row != b.row)
}

// Whether a row uses only steps of a pair: masks of the row, and of the two together.
fn uses_only(third: u32, pair: u32) -> bool
    ensures { result ≡ (bit_and third (4294967295 - pair) == 0) }
{
    third & !pair == 0
}
