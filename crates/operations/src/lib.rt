// Operators, signs, functions and sequences: what they give of values, or why they give nothing.
#![tactic(auto)]

pub mod calls;
pub mod lists;
pub mod operators;
