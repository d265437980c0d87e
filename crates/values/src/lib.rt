// Values: lists of elements, each with a number, a text or both.
#![tactic(auto)]

pub mod element;
pub mod given;
pub mod judge;
pub mod text;
pub mod value;
