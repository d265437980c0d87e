// The line layer over any printer: it holds up to 32 bytes, and hands them down at the end of a line, when it is full and on settling.
#![tactic(auto)]

ghost use Rattle.std.specs.Prelude.{◌+◌, ◌≤◌, length};
ghost use Rattle.arrays.specs.Items.{items};

use arrays::ArrayVec;
use printer::Printer;
use printer::print::print;
use refusals::Refusal;

// The byte that ends a line.
const LINE_END: u8 = b'\n';

// How many bytes a layer holds at most.
const MOST_HELD: usize = 32;

// No model: contracts name the printer below and what is held.
// The printer below, and the bytes that it has not been handed yet; there is room below for all of them.
#[derive(Drop)]
pub struct Lines<P: Printer> {
    below: P,
    held: ArrayVec<u8, MOST_HELD>,
    ghost fits: { length (P.taken below) + length (items held) ≤ P.capacity below },
}

impl<P: Printer> Lines<P> {
    ghost use Rattle.std.specs.Prelude.{◌≡◌, true, ◌++◌};
    ghost use Rattle.arrays.specs.Items.{items};
    ghost use Rattle.lines.specs.Layers.{taken_of, capacity_of, settled_of, Whole, Down};

    // A layer that holds nothing.
    pub fn new(below: P) -> Self
        ensures below { result.below ≡ below }
        ensures taken { taken_of result ≡ P.taken below }
        ensures capacity { capacity_of result ≡ P.capacity below }
        ensures settled { settled_of result ≡ P.settled below }
    {
        Lines {
            below,
            held: ArrayVec::new(0),
        }
    }

    // The printer below. What it has taken and then what is held is all that the layer has taken; of a settled layer it has taken all.
    pub fn below(&self) -> &P
        ensures below { result.now ≡ self.now.below }
        ensures whole { settled_of self.now ≡ true → Whole self.now result.now }
        ensures uncut { taken_of self.now ≡ P.taken result.now ++ items self.now.held }
    {
        &self.below
    }

    // Takes the layer apart. Where it is settled the printer below has taken all that the layer has.
    pub fn into_below(self) -> P
        ensures below { result ≡ self.below }
        ensures whole { settled_of self ≡ true → Whole self result }
    {
        let Lines { below, held: _ } = self;
        below
    }

    // Hands the held bytes down.
    fn hand_down(&mut self)
        ensures { Down self.old self.new (taken_of self.old) }
    {
        print(&mut self.below, self.held.as_slice()).unwrap();
        self.held.clear();
    }
}

impl<P: Printer> Printer for Lines<P> {
    ghost use Rattle.std.specs.Prelude.{◌≡◌, true, false, [], ◌∷◌, ◌++◌, if◌then◌else◌, Err};
    ghost use Rattle.std.proofs.Common.{rules};
    ghost use Rattle.std.proofs.lemmas.Grind.{common_steps};
    ghost use Rattle.arrays.specs.Items.{items};
    ghost use Rattle.refusals.specs.Refusals.{Guarded};
    ghost use Rattle.refusals.specs.declared.Refusal.TheVariants.{PaperFull};
    ghost use Rattle.lines.specs.Layers.{taken_of, capacity_of, settled_of, room_of, hands_down, held_next, Down};

    ghost taken = { taken_of };

    ghost capacity = { capacity_of };

    ghost settled = { settled_of };

    ghost within = { λ s. Prim.search (rules, common_steps) };

    ghost lawful = { λ s. P.lawful s.below };

    // Holds the byte, where below there is room for all that is held and for it; at the end of a line what is held goes down.
    fn put(&mut self, byte: u8) -> Result<(), Refusal>
        ensures taken { Guarded (room_of self.old) (taken_of self.old) (taken_of self.old ++ byte ∷ []) (taken_of self.new) PaperFull result }
        ensures capacity { capacity_of self.new ≡ capacity_of self.old }
        ensures kept { result ≡ Err PaperFull → settled_of self.new ≡ settled_of self.old }
        ensures held { items self.new.held ≡ (if room_of self.old then held_next (items self.old.held) byte else items self.old.held) }
        ensures below { hands_down self.old byte ≡ false → self.new.below ≡ self.old.below }
    {
        if self.len() >= self.capacity() {
            return Err(Refusal::PaperFull);
        }
        if self.held.len() == MOST_HELD {
            self.hand_down();
        }
        self.held.push(byte).unwrap();
        if byte == LINE_END {
            self.hand_down();
        }
        Ok(())
    }

    // Nothing is held then, and the printer below has all the bytes.
    fn settle(&mut self)
        ensures down { Down self.old self.new (taken_of self.old) }
        ensures settled { settled_of self.new ≡ true }
    {
        self.hand_down();
        self.below.settle();
    }

    // Drops what is held too.
    fn tear(&mut self)
        ensures down { Down self.old self.new [] }
        ensures settled { settled_of self.new ≡ true }
    {
        self.held.clear();
        self.below.tear();
    }

    // The bytes below, and those held.
    fn len(&self) -> usize {
        self.below.len() + self.held.len()
    }

    fn capacity(&self) -> usize {
        self.below.capacity()
    }
}
