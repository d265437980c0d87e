// Names of variables, and keys with their order.
#![tactic(auto)]

pub mod key;
pub mod name;
