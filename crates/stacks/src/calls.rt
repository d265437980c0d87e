// What a stack can do. Each call on one also tells that it has no more elements than find room.
ghost use Rattle.std.specs.Prelude.{◌≡◌, ◌≤◌, [], ◌∷◌, length, nat_lt};
ghost use Rattle.arrays.specs.Items.{Allowed};
ghost use Rattle.stacks.specs.Stacked.{top, rest};

use super::Stack;
use arrays::error::CapacityError;

impl<'a, T: Copy> Stack<'a, T> {
    // An empty stack in those slots.
    pub fn new(slots: &'a mut [T]) -> Stack<'a, T>
        ensures empty { result.items ≡ [] }
        ensures room { result.capacity ≡ length slots.old }
    {
        Stack { slots, len: 0 }
    }

    // Puts an element on top where there is room; else nothing changes.
    pub fn push(&mut self, x: T) -> Result<(), CapacityError>
        ensures pushed { Allowed (nat_lt (length self.old.items) self.old.capacity) self.old (record self.old { items = x ∷ self.old.items }) self.new result }
        ensures within { length self.old.items ≤ self.old.capacity }
    {
        if self.len < self.slots.len() {
            self.slots[self.len] = x;
            self.len += 1;
            Ok(())
        } else {
            Err(CapacityError)
        }
    }

    // Takes the top element off; an empty stack stays.
    pub fn pop(&mut self) -> Option<T>
        ensures answer { result ≡ top self.old.items }
        ensures after { self.new ≡ record self.old { items = rest self.old.items } }
        ensures within { length self.old.items ≤ self.old.capacity }
    {
        self.len = self.len.checked_sub(1)?;
        Some(self.slots[self.len])
    }

    // The top element, which stays.
    pub fn peek(&self) -> Option<T>
        ensures answer { result ≡ top self.now.items }
        ensures within { length self.now.items ≤ self.now.capacity }
    {
        self.slots[..self.len].last().copied()
    }
}
