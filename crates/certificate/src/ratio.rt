// Ratios. The struct stands apart from its calls: a struct with a ghost field may not stand in a file whose `ghost use` lines lead back to it.
ghost use Rattle.std.specs.Prelude.{◌<◌};

#[derive(Clone, Copy)]
pub(crate) struct Ratio {
    pub(crate) top: u32,
    pub(crate) bottom: u32,
    ghost some: { 0 < bottom },
}
