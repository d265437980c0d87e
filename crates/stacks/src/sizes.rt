// How many elements a stack has, and how many find room.
ghost use Rattle.std.specs.Prelude.{◌≡◌, ◌≤◌, length};

use super::Stack;

impl<'a, T: Copy> Stack<'a, T> {
    // How many elements stand on it.
    pub fn len(&self) -> usize
        ensures value { result ≡ length self.now.items }
        ensures within { length self.now.items ≤ self.now.capacity }
    {
        self.len
    }

    // How many find room on it.
    pub fn capacity(&self) -> usize
        ensures value { result ≡ self.now.capacity }
        ensures within { length self.now.items ≤ self.now.capacity }
    {
        self.slots.len()
    }
}
