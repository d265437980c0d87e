// A name, plain or with one number as subscript.
ghost use Rattle.std.proofs.Common.{rules};
ghost use Rattle.keys.specs.KeyMeans.{key_means};
ghost use Rattle.keys.specs.KeyOrder.{KeyName, key_order};

use super::name::Name;
use order::{Ordered, Ranked};
use std::cmp::Ordering;

#[derive(Clone, Copy, PartialEq, Eq, PartialOrd, Ord)]
pub struct Key {
    pub name: Name,
    pub subscript: Option<i64>,
}

impl Ordered for Key {
    ghost Means = { KeyName };

    ghost means = { key_means };

    ghost order = { key_order };

    fn compare(&self, other: &Key) -> Ordering {
        self.cmp(other)
    }
}

impl Ranked for Key {
    ghost ranks = { Prim.search rules };
}
