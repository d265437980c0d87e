// A customer's card: lines that set names, read and filed in a store.
#![tactic(auto)]

pub mod cut;
pub mod file;
pub mod line;
