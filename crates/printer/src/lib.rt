// What a printer is: the bytes that it has taken, within a fixed capacity.
#![tactic(auto)]

ghost use Rattle.std.specs.Prelude.{◌≡◌, ℕ, ◌≤◌, Bool, true, List, [], ◌∷◌, ◌++◌, length, Err, nat_lt};
ghost use Rattle.refusals.specs.Refusals.{Guarded};
ghost use Rattle.refusals.specs.declared.Refusal.TheVariants.{PaperFull};

use refusals::Refusal;

pub mod print;

// The largest capacity that a printer may have.
pub const MOST_BYTES: usize = 16_384;

// A maker's own printer shows by the ghost members what it means, and proves the contracts.
pub trait Printer {
    // the bytes taken since the last tear, first to last
    ghost taken: { Self → List ℕ };

    // how many bytes it takes at most: a fact of the value, since a printer may be sized when it is made
    ghost capacity: { Self → ℕ };

    // nothing is held back
    ghost settled: { Self → Bool };

    // Adds a byte last, exactly where fewer bytes than the capacity stand; else 24, and nothing is changed.
    fn put(&mut self, byte: u8) -> Result<(), Refusal>
        ensures taken { Guarded (nat_lt (length (taken self.old)) (capacity self.old)) (taken self.old) (taken self.old ++ byte ∷ []) (taken self.new) PaperFull result }
        ensures capacity { capacity self.new ≡ capacity self.old }
        ensures kept { result ≡ Err PaperFull → settled self.new ≡ settled self.old };

    // Holds nothing back any more; the meaning stays.
    fn settle(&mut self)
        ensures taken { taken self.new ≡ taken self.old }
        ensures capacity { capacity self.new ≡ capacity self.old }
        ensures settled { settled self.new ≡ true };

    // Empties it; nothing is held back then.
    fn tear(&mut self)
        ensures taken { taken self.new ≡ [] }
        ensures capacity { capacity self.new ≡ capacity self.old }
        ensures settled { settled self.new ≡ true };

    // How many bytes it has taken.
    fn len(&self) -> usize
        ensures { result ≡ length (taken self.now) };

    // How many bytes it takes at most.
    fn capacity(&self) -> usize
        ensures { result ≡ capacity self.now };

    // no more bytes than the capacity are taken
    ghost within: { (p : Self) → length (taken p) ≤ capacity p };

    // the capacity is within its range
    ghost lawful: { (p : Self) → capacity p ≤ 16384 };
}
