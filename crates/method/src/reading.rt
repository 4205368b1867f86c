// What one offer learns of a current row.
//
// The struct stands apart from its calls: a struct with a ghost field may not stand in a file whose `ghost use` lines lead back to it.
ghost use Rattle.std.specs.Prelude.{◌<◌, ◌≤◌, unsigned_abs};

// The row's index, from 0, its sum on the place, and its steps in use. No sum is larger than 24 counts of 1,048,575 at 1,000 each.
// The index is kept in 32 bits, and the fields stand in the order in which a reading has 16 bytes.
#[derive(Clone, Copy)]
pub(crate) struct Reading {
    pub(crate) sum: i64,
    pub(crate) mask: u32,
    pub(crate) row: u32,
    ghost within: { row < 1024 },
    ghost bounded: { unsigned_abs sum ≤ 25165800000 },
}
