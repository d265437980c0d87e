// What the part refuses: one enum for all layers, with a number and a layer for each case.
#![tactic(auto)]

ghost use Rattle.std.specs.Prelude.{◌≡◌, Some};
ghost use Rattle.refusals.specs.Refusals.{number_of, layer_of, word_of, report_of, OwnNumbers};

use std::error::Error;
use std::fmt;

pub mod fault;

// The layer that refuses.
#[derive(Clone, Copy, PartialEq, Eq, Debug)]
pub enum Layer {
    Reader,
    Evaluator,
    Store,
    Printer,
}

impl Layer {
    // The layer's word in reports.
    pub fn word(self) -> &'static str
        ensures { result.now ≡ word_of self }
    {
        match self {
            Layer::Reader => "reader",
            Layer::Evaluator => "evaluator",
            Layer::Store => "store",
            Layer::Printer => "printer",
        }
    }
}

impl fmt::Display for Layer {
    ghost output = { λ l. Some (word_of l) };

    fn fmt<W: fmt::Write>(&self, f: &mut fmt::Formatter<W>) -> fmt::Result {
        f.write_str(self.word())
    }
}

// Why a call is refused.
#[derive(Clone, Copy, PartialEq, Eq, Debug)]
pub enum Refusal {
    // a limit or a capacity is outside its range
    OutOfRange = 1,
    // the template has more than 4,096 bytes
    TemplateTooLong = 2,
    // a byte with which no template goes on, or an end where none can be
    UnexpectedByte = 3,
    // a block is unmatched, unclosed or nested too deep
    UnmatchedBlock = 4,
    // a number constant is too large, or a sequence does not arrive
    BadNumber = 5,
    // a name or a constant is too long
    TooLong = 6,
    // a thirteenth parenthesis, subscript, call or list inside one another
    NestedTooDeep = 7,
    // an unknown function, or a wrong number of arguments
    BadCall = 8,
    // a print before any template is held
    NothingLoaded = 9,
    // what has to be one element with a number is not
    NotANumber = 10,
    // a number is outside 64 bits
    Overflow = 11,
    DivisionByZero = 12,
    // a shift by less than 0 or more than 63, or of a negative number to the left
    BadShift = 13,
    // a value would have more than 16 elements
    TooManyElements = 14,
    // a text would have more than 32 bytes
    TextTooLong = 15,
    // a print form that has to be a sign and digits is not
    NotDigits = 16,
    // a name that no template could write
    BadName = 17,
    // a value with too many elements, too long a text or an element with nothing in it
    BadValue = 18,
    // a key that is not set
    UnsetKey = 19,
    // the template needs more nodes than the limit
    TooManyNodes = 20,
    // the template needs more stack than the limit
    StackTooSmall = 21,
    // the step limit is reached
    OutOfSteps = 22,
    // a new key in a full store
    StoreFull = 23,
    // a byte for a full printer
    PaperFull = 24,
}

impl Refusal {
    // The number by which reports name it. No two refusals share one.
    #[tactic(auto, using(crate::proofs::Numbers::own_numbers))]
    pub fn number(self) -> u8
        ensures answer { result ≡ number_of self }
        ensures own { OwnNumbers }
    {
        self as u8
    }

    // The layer that refuses so.
    pub fn layer(self) -> Layer
        ensures { result ≡ layer_of self }
    {
        match self {
            Refusal::OutOfRange
            | Refusal::TemplateTooLong
            | Refusal::UnexpectedByte
            | Refusal::UnmatchedBlock
            | Refusal::BadNumber
            | Refusal::TooLong
            | Refusal::NestedTooDeep
            | Refusal::BadCall
            | Refusal::TooManyNodes
            | Refusal::StackTooSmall => Layer::Reader,
            Refusal::NothingLoaded
            | Refusal::NotANumber
            | Refusal::Overflow
            | Refusal::DivisionByZero
            | Refusal::BadShift
            | Refusal::TooManyElements
            | Refusal::TextTooLong
            | Refusal::NotDigits
            | Refusal::OutOfSteps => Layer::Evaluator,
            Refusal::BadName | Refusal::BadValue | Refusal::UnsetKey | Refusal::StoreFull => {
                Layer::Store
            }
            Refusal::PaperFull => Layer::Printer,
        }
    }
}

// What a program reports.
impl fmt::Display for Refusal {
    ghost output = { λ f. Some (report_of f) };

    fn fmt<W: fmt::Write>(&self, f: &mut fmt::Formatter<W>) -> fmt::Result {
        write!(f, "refused {} in {}", self.number(), self.layer())
    }
}

impl Error for Refusal {}
