// Why a vector is not changed.
ghost use Rattle.std.specs.Prelude.{Some, codes};
ghost use Rattle.arrays.specs.Errors.{insert_error_text};

use std::error::Error;
use std::fmt;

// There is no room for what is to be added.
#[derive(Clone, Copy, PartialEq, Eq, Debug)]
pub struct CapacityError;

// Why an element is not put at a place.
#[derive(Clone, Copy, PartialEq, Eq, Debug)]
pub enum InsertError {
    // the place is behind the end
    OutOfBounds,
    // there is no room
    Full,
}

impl fmt::Display for CapacityError {
    ghost output = { λ _. Some (codes "no room is left") };

    fn fmt<W: fmt::Write>(&self, f: &mut fmt::Formatter<W>) -> fmt::Result {
        f.write_str("no room is left")
    }
}

impl Error for CapacityError {}

impl fmt::Display for InsertError {
    ghost output = { λ e. Some (insert_error_text e) };

    fn fmt<W: fmt::Write>(&self, f: &mut fmt::Formatter<W>) -> fmt::Result {
        f.write_str(match self {
            InsertError::OutOfBounds => "the place is behind the end",
            InsertError::Full => "no room is left",
        })
    }
}

impl Error for InsertError {}
