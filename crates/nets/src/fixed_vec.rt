// Lists of so many items at most, in an array: a board has no heap.
ghost use Rattle.std.specs.Prelude.{◌≡◌, ◌≤◌, length, ⊤};

use std::alloc::AllocError;

mod methods;

// A list of at most `N` items.
// No `impl Model`: what holds such a list, as a net, could then be handed over by name once only, though it can be copied.
pub struct FixedVec<T, const N: usize> {
    items: [T; N],
    count: usize,
    ghost few: { count ≤ N },
    ghost room: { length items ≡ N },
}

// No derived clone: it would clone each item, of which the bound says only that it may be copied, and its proof stayed open.
impl<T: Copy, const N: usize> Clone for FixedVec<T, N> {
    ghost is_clone = { λ v w. w ≡ v };

    ghost is_infallible = { λ _. ⊤ };

    fn clone(&self) -> Result<FixedVec<T, N>, AllocError> {
        Ok(*self)
    }
}

impl<T: Copy, const N: usize> Copy for FixedVec<T, N> {}
