// A vector of at most N elements in fixed memory.
#![tactic(auto)]

ghost use Rattle.std.specs.Prelude.{◌≡◌, ◌≤◌, length};

use std::alloc::AllocError;

pub mod changes;
pub mod compare;
pub mod error;

// The elements are the first `len` slots; the others hold anything.
// By hand, in fixed memory: the library's `ArrayVec` is not `Copy`, and its clone may fail.
// No model: that of a `Copy` type may forget nothing, and the slots behind `len` are to be forgotten.
#[derive(Copy, Drop)]
pub struct ArrayVec<T, const N: usize> {
    slots: [T; N],
    len: usize,
    ghost sized: { length slots ≡ N },
    ghost within: { len ≤ N },
}

// By hand: a derive is refused here, beside a ghost field and elements of any type, and would promise less of the elements.
impl<T: Copy, const N: usize> Clone for ArrayVec<T, N> {
    ghost is_clone = { λ v w. w ≡ v };

    ghost is_infallible = { λ _. Unit {0} };

    fn clone(&self) -> Result<Self, AllocError> {
        Ok(*self)
    }
}
