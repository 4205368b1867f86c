// A step with its count in one row.
ghost use Rattle.std.specs.Prelude.{◌<◌};

// A step in use, counted from 0, and its count, which is not 0.
#[derive(Clone, Copy)]
pub(crate) struct Entry {
    pub(crate) step: usize,
    pub(crate) count: u32,
    ghost within: { step < 24 },
    ghost used: { 0 < count },
}
