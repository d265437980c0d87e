// Byte strings, in the order of a dictionary.
ghost use Rattle.std.specs.Prelude.{ℕ, List};
ghost use Rattle.std.proofs.Common.{rules};
ghost use Rattle.order.specs.Made.{bytes_order};

use super::{Ordered, Ranked, Row};
use std::cmp::Ordering;

#[derive(Clone, Copy, PartialEq, Eq, PartialOrd, Ord, Debug)]
pub struct Word<'a> {
    pub bytes: &'a [u8],
}

impl<'a> Ordered for Word<'a> {
    ghost Means = { List ℕ };

    ghost means = { λ w. w.bytes.now };

    ghost order = { bytes_order };

    fn compare(&self, other: &Word<'a>) -> Ordering {
        self.cmp(other)
    }
}

impl<'a> Ranked for Word<'a> {
    ghost ranks = { Prim.search rules };
}

// A word is its own key, so that a sorted list of words can be searched.
impl<'a> Row for Word<'a> {
    type Key = Word<'a>;

    ghost keyed = { λ w. w };

    fn key(&self) -> &Word<'a> {
        self
    }
}
