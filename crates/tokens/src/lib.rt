// Operators and signs of the template language, and what a byte is at each kind of place.
#![tactic(auto)]

pub mod byte;
pub mod operator;
