// A text of at most 32 bytes.
use arrays::ArrayVec;

pub mod bytes;

// No model, as of its `ArrayVec`: a text is `Copy`, and the bytes behind its length are forgotten.
#[derive(Clone, Copy, PartialEq, Eq)]
pub struct Text {
    bytes: ArrayVec<u8, 32>,
}
