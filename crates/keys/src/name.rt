// The name of a variable: always lawful.
ghost use Rattle.std.specs.Prelude.{◌≡◌, true};
ghost use Rattle.arrays.specs.Items.{items};
ghost use Rattle.keys.specs.NameBytes.{lawful_name};

use arrays::ArrayVec;

pub mod judge;

// No model, as of its `ArrayVec`: a name is `Copy`, and the bytes behind its length are forgotten.
#[derive(Clone, Copy, PartialEq, Eq, PartialOrd, Ord)]
pub struct Name {
    bytes: ArrayVec<u8, 24>,
    ghost lawful: { lawful_name (items bytes) ≡ true },
}
