// A strip of N bytes.
ghost use Rattle.std.specs.Prelude.{◌≡◌, ◌≤◌, true, [], nat_le};
ghost use Rattle.arrays.specs.Items.{items, few};
ghost use Rattle.refusals.specs.Refusals.{answered, meant};
ghost use Rattle.refusals.specs.declared.Refusal.TheVariants.{OutOfRange};

use arrays::ArrayVec;
use printer::{MOST_BYTES, Printer};
use refusals::Refusal;

// No model: the laws of `Printer` would have to hold of every list of bytes, however long.
#[derive(Drop)]
pub struct Roll<const N: usize> {
    strip: ArrayVec<u8, N>,
    ghost lawful: { N ≤ 16384 },
}

impl<const N: usize> Roll<N> {
    // An empty roll; refused with 1 exactly where N is over 16,384.
    pub fn new() -> Result<Self, Refusal>
        ensures { meant (λ s. items s.strip) result ≡ answered (nat_le N 16384) [] OutOfRange }
    {
        if N > MOST_BYTES {
            return Err(Refusal::OutOfRange);
        }
        Ok(Roll {
            strip: ArrayVec::new(0),
        })
    }

    // The bytes taken.
    pub fn bytes(&self) -> &[u8]
        ensures { result.now ≡ items self.now.strip }
    {
        self.strip.as_slice()
    }
}

impl<const N: usize> Printer for Roll<N> {
    ghost taken = { λ s. items s.strip };

    ghost capacity = { λ _. N };

    ghost settled = { λ _. true };

    ghost within = { λ s. few s.strip };

    ghost lawful = { λ s. s.lawful };

    fn put(&mut self, byte: u8) -> Result<(), Refusal> {
        self.strip.push(byte).map_err(|_| Refusal::PaperFull)
    }

    fn settle(&mut self) {}

    fn tear(&mut self) {
        self.strip.clear();
    }

    fn len(&self) -> usize {
        self.strip.len()
    }

    fn capacity(&self) -> usize {
        N
    }
}
