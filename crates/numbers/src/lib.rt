// Numbers in base ten, written and read.
#![tactic(auto)]

ghost use Rattle.std.specs.Prelude.{ℕ, ◌≤◌, List, drop};

use std::marker::Model;

pub mod read;
pub mod write;

// A number as it is written, at the end of `bytes`; a clause sees what is written.
// A start beside the bytes: the digits are written from the last to the first, in fixed memory.
#[derive(Drop)]
pub struct Numeral {
    bytes: [u8; 20],
    start: usize,
}

impl Model for Numeral {
    ghost Value = { List ℕ };

    ghost view = { λ n. drop n.start n.bytes };

    ghost invariant = { λ n. n.start ≤ 20 };
}
