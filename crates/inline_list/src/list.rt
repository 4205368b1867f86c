// The list itself. It stands apart from its calls: a struct with a ghost field may not stand in a file whose `ghost use` lines lead back to it.
ghost use Rattle.std.specs.Prelude.{◌≡◌, ◌≤◌, length};

use std::alloc::AllocError;

// At most N items, in the first slots. An `ArrayVec` cannot be copied, as places, certificates and lines are.
pub struct InlineList<T, const N: usize> {
    pub(crate) count: usize,
    pub(crate) slots: [T; N],
    ghost few: { count ≤ N },
    ghost wide: { length slots ≡ N },
}

// Written out, since neither is derived for a generic struct with a ghost field.
impl<T: Copy, const N: usize> Copy for InlineList<T, N> {}

impl<T: Copy, const N: usize> Clone for InlineList<T, N> {
    ghost is_clone = { λ list copy. copy ≡ list };

    ghost is_infallible = { λ _. Unit {0} };

    fn clone(&self) -> Result<Self, AllocError> {
        Ok(*self)
    }
}
