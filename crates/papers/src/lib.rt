// Papers: printers in fixed memory.
#![tactic(auto)]

pub mod board;
pub mod roll;
