// Packing rows into entries, and taking them out again.
ghost use Rattle.std.specs.Prelude.{◌≡◌, ◌+◌, ◌≤◌, ◌++◌, length, take, drop, vec_len, vec_capacity};
ghost use Rattle.ledger.specs.Packed.{pairs, packed, expanded};

use crate::Row;
use crate::entry::Entry;

// Puts the non-zero counts of a row among the entries, from `at` on.
pub(crate) fn pack(entries: &mut Vec<Entry>, at: usize, row: &Row)
    requires within { at ≤ vec_len entries.old }
    requires room { vec_len entries.old + length (packed row.now.counts 24) ≤ vec_capacity entries.old }
    ensures items { pairs entries.new.items ≡ take at (pairs entries.old.items) ++ (packed row.now.counts 24 ++ drop at (pairs entries.old.items)) }
    ensures capacity { vec_capacity entries.old ≤ vec_capacity entries.new }
{
    let mut next = at;
    for (step, &count) in row.counts.iter().enumerate() {
        if count != 0 {
            // There is room, so that this is not refused.
            let _ = entries.insert(next, Entry { step, count });
            next += 1;
        }
    }
}

// The row that the entries stand for.
pub(crate) fn unpack(entries: &[Entry]) -> Row
    ensures { result.counts ≡ expanded (pairs entries.now) }
{
    let mut row = Row::zeros();
    for entry in entries {
        row.counts[entry.step] = entry.count;
    }
    row
}
