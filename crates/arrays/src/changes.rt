// What an `ArrayVec` can do. A change that is refused changes nothing.
ghost use Rattle.std.specs.Prelude.{◌≡◌, ◌-◌, [], ◌∷◌, ◌++◌, length, nat_le, nat_lt, slice_set};
ghost use Rattle.std.specs.List.{insert, remove, swap_remove};
ghost use Rattle.arrays.specs.Items.{items, items_of, roomy, Allowed, Inserts, Exchanged};

use super::ArrayVec;
use super::error::{CapacityError, InsertError};

impl<T: Copy, const N: usize> ArrayVec<T, N> {
    // An empty vector; the slots hold `filler`.
    pub fn new(filler: T) -> Self
        ensures { items result ≡ [] }
    {
        ArrayVec {
            slots: [filler; N],
            len: 0,
        }
    }

    pub fn len(&self) -> usize
        ensures { result ≡ length (items self.now) }
    {
        self.as_slice().len()
    }

    pub fn as_slice(&self) -> &[T]
        ensures { result.now ≡ items self.now }
    {
        &self.slots[..self.len]
    }

    // One element more, last, where there is room.
    pub fn push(&mut self, x: T) -> Result<(), CapacityError>
        ensures { Allowed (nat_lt (length (items self.old)) N) (items self.old) (items self.old ++ x ∷ []) (items self.new) result }
    {
        if self.len < N {
            self.slots[self.len] = x;
            self.len += 1;
            Ok(())
        } else {
            Err(CapacityError)
        }
    }

    // Elements more, last, where there is room for all of them; else none.
    pub fn append(&mut self, more: &[T]) -> Result<(), CapacityError>
        ensures { Allowed (nat_le (length more.now) (N - length (items self.old))) (items self.old) (items self.old ++ more.now) (items self.new) result }
    {
        if more.len() > N - self.len {
            return Err(CapacityError);
        }
        let end = self.len + more.len();
        let slots = &mut self.slots[..];
        slots[self.len..end].copy_from_slice(more);
        self.len = end;
        Ok(())
    }

    // A vector of the given elements, where there is room for them.
    pub fn from_slice(filler: T, from: &[T]) -> Result<Self, CapacityError>
        ensures { items_of result ≡ roomy (nat_le (length from.now) N) from.now }
    {
        let mut vec = ArrayVec::new(filler);
        vec.append(from)?;
        Ok(vec)
    }

    // Writes over the element at a place, and answers what stood there.
    pub fn write(&mut self, at: usize, x: T) -> Option<T>
        ensures { Exchanged at (items self.old) (slice_set (items self.old) at x) (items self.new) result }
    {
        let had = *self.as_slice().get(at)?;
        self.slots[at] = x;
        Some(had)
    }

    // Puts an element at a place, and moves those from there on up by one.
    pub fn insert(&mut self, at: usize, x: T) -> Result<(), InsertError>
        ensures { Inserts N (items self.old) at x (items self.new) result }
    {
        if at > self.len {
            return Err(InsertError::OutOfBounds);
        }
        if self.len == N {
            return Err(InsertError::Full);
        }
        self.slots[self.len] = x;
        self.len += 1;
        let end = self.len;
        let slots = &mut self.slots[..];
        slots[at..end].rotate_right(1);
        Ok(())
    }

    // Takes out the element at a place, and moves those behind it down by one.
    pub fn remove(&mut self, at: usize) -> Option<T>
        ensures { Exchanged at (items self.old) (remove (items self.old) at) (items self.new) result }
    {
        let x = *self.as_slice().get(at)?;
        let end = self.len;
        let slots = &mut self.slots[..];
        slots[at..end].rotate_left(1);
        self.len -= 1;
        Some(x)
    }

    // Takes out the element at a place, and moves the last one there.
    pub fn swap_remove(&mut self, at: usize) -> Option<T>
        ensures { (d : T) → Exchanged at (items self.old) (swap_remove (items self.old) at d) (items self.new) result }
    {
        let last = *self.as_slice().last()?;
        let x = self.write(at, last)?;
        self.len -= 1;
        Some(x)
    }

    pub fn clear(&mut self)
        ensures { items self.new ≡ [] }
    {
        self.len = 0;
    }
}
