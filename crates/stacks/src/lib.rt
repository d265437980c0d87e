// A stack in memory that the caller lends, for every element type that can be copied.
#![tactic(auto)]

use std::marker::Model;

pub mod calls;
pub mod sizes;

// The first `len` slots are the stack, the last of them its top; the others hold anything.
// By hand: the memory is the caller's, so it can neither grow nor be the library's.
// To contracts it is the list of its elements, the top first, and how many find room.
#[derive(Drop)]
pub struct Stack<'a, T> {
    slots: &'a mut [T],
    len: usize,
}

impl<'a, T> Model for Stack<'a, T> {
    ghost use Rattle.std.specs.Prelude.{◌≤◌, length, take, reverse};
    ghost use Rattle.stacks.specs.Stacked.{Stacked};

    ghost Value = { Stacked T };

    ghost view = { λ s. record { items = reverse (take s.len s.slots.now); capacity = length s.slots.now } };

    ghost invariant = { λ s. s.len ≤ length s.slots.now };
}
