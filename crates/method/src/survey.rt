// The survey of one offer: each current row is read once.
ghost use Rattle.std.specs.Prelude.{◌≡◌, ◌<◌, [], length};
ghost use Rattle.inline_list.specs.Items.{items};
ghost use Rattle.method.specs.Places.{effects_of};
ghost use Rattle.method.specs.Surveys.{Told, Surveyed};

use crate::Place;
use crate::held::{row_at, row_count};
use crate::reading::Reading;
use inline_list::InlineList;
use ledger::Ledger;

// The readings of one offer: no ledger in order has more than 1,024 rows.
pub(crate) type Survey = InlineList<Reading, 1024>;

// No reading.
pub(crate) fn no_readings() -> Survey
    ensures { items result ≡ [] }
{
    InlineList::new(Reading {
        sum: 0,
        mask: 0,
        row: 0,
    })
}

// Puts the readings of all rows of a ledger, in their order, into the list. The caller lends it, since moving 16 KiB takes as long as
// the rest of a small offer.
pub(crate) fn survey_of<L: Ledger>(rows: &L, place: &Place, survey: &mut Survey)
    requires { items survey.old ≡ [] }
    ensures { L.Ledger.orderly rows.now → Surveyed (effects_of place.now) (L.Ledger.rows rows.now) (items survey.new) }
{
    // A ledger lends no slice of its rows: they go by their index.
    for k in 0..row_count(rows) {
        // There is room, so that this is not refused.
        let _ = survey.push(reading_of(rows, place, k));
    }
}

// What is learnt of row k.
fn reading_of<L: Ledger>(rows: &L, place: &Place, k: usize) -> Reading
    requires { k < 1024 }
    ensures row { result.row ≡ k }
    ensures told { L.Ledger.orderly rows.now → k < length (L.Ledger.rows rows.now) → Told (effects_of place.now) (L.Ledger.rows rows.now) result }
{
    let row = row_at(rows, k).row;
    Reading {
        sum: place.sum(&row),
        mask: row.used(),
        row: k as u32,
    }
}
