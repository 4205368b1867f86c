// A place of a net: its effect on each step, at most 24 of them, each from -1,000 to 1,000.
//
// The struct stands apart from its calls: a struct with a ghost field may not stand in a file whose `ghost use` lines lead back to it.
ghost use Rattle.std.specs.Prelude.{◌≡◌, false};
ghost use Rattle.inline_list.specs.Items.{items};
ghost use Rattle.method.specs.Effects.{outside, some};

mod effects;
mod sum;

use inline_list::InlineList;

#[derive(Clone, Copy)]
pub struct Place {
    effects: InlineList<i32, 24>,
    ghost mild: { some outside (items effects) ≡ false },
}
