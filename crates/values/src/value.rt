// A value of at most 16 elements.
use super::element::Element;
use arrays::ArrayVec;

pub mod elements;

// No model, as of its `ArrayVec`: a value is `Copy`, and the slots behind its length are forgotten.
#[derive(Clone, Copy, PartialEq, Eq)]
pub struct Value {
    elements: ArrayVec<Element, 16>,
}
