// A refusal with its place.
ghost use Rattle.std.specs.Prelude.{Some};
ghost use Rattle.refusals.specs.Faults.{placed_report};

use super::Refusal;
use std::error::Error;
use std::fmt;

// Why a template is refused, and at which of its bytes, from 0.
#[derive(Clone, Copy, PartialEq, Eq, Debug)]
pub struct Fault {
    pub refusal: Refusal,
    pub place: usize,
}

// What a program reports.
impl fmt::Display for Fault {
    ghost output = { λ f. Some (placed_report f) };

    fn fmt<W: fmt::Write>(&self, f: &mut fmt::Formatter<W>) -> fmt::Result {
        write!(
            f,
            "refused {} at {} in {}",
            self.refusal.number(),
            self.place,
            self.refusal.layer()
        )
    }
}

impl Error for Fault {}
