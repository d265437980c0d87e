// What a byte is, where an operand is expected, after an operand, and to the machine of eight states.
ghost use Rattle.std.specs.Prelude.{◌≡◌, ◌<◌, SomeIff};
ghost use Rattle.tokens.specs.Bytes.{start, after, class, blank, word, digit_value};

use crate::operator::{Half, Op, Sign};

// What parts the items of a list and arguments.
#[derive(Clone, Copy, PartialEq, Eq, Debug)]
pub enum Separator {
    Comma,
    Semicolon,
}

// The kinds of brackets.
#[derive(Clone, Copy, PartialEq, Eq, Debug)]
pub enum Shape {
    Round,
    Square,
    Curly,
}

// A byte where an operand is expected.
#[derive(Clone, Copy, PartialEq, Eq, Debug)]
pub enum Start {
    Blank,
    Digit,
    Letter,
    Quote,
    Sign(Sign),
    Round,
    Curly,
    EndRound,
    EndCurly,
    Dot,
    Other,
}

// A byte after an operand: `Single` is a whole operator, `Double` may need a second byte.
#[derive(Clone, Copy, PartialEq, Eq, Debug)]
pub enum After {
    Blank,
    Single(Op),
    Double(Half),
    Separator(Separator),
    Round,
    Square,
    End(Shape),
    Dollar,
    Quote,
    Other,
}

// What the machine of eight states sees of a byte.
#[derive(Clone, Copy, PartialEq, Eq, Debug)]
pub enum Class {
    Newline,
    Return,
    Blank,
    Dollar,
    Quote,
    Backslash,
    Escaped,
    Other,
}

impl From<u8> for Start {
    ghost from_gives = { λ b s. s ≡ start b };

    fn from(b: u8) -> Start {
        match b {
            b' ' | b'\t' => Start::Blank,
            b'0'..=b'9' => Start::Digit,
            b'A'..=b'Z' | b'a'..=b'z' | b'_' => Start::Letter,
            b'"' => Start::Quote,
            b'+' => Start::Sign(Sign::Plus),
            b'-' => Start::Sign(Sign::Minus),
            b'~' => Start::Sign(Sign::Tilde),
            b'!' => Start::Sign(Sign::Bang),
            b'(' => Start::Round,
            b'{' => Start::Curly,
            b')' => Start::EndRound,
            b'}' => Start::EndCurly,
            b'.' => Start::Dot,
            _ => Start::Other,
        }
    }
}

impl From<u8> for After {
    ghost from_gives = { λ b a. a ≡ after b };

    fn from(b: u8) -> After {
        match b {
            b' ' | b'\t' => After::Blank,
            b'^' => After::Single(Op::BitXor),
            b'+' => After::Single(Op::Add),
            b'-' => After::Single(Op::Subtract),
            b'*' => After::Single(Op::Multiply),
            b'/' => After::Single(Op::Divide),
            b'%' => After::Single(Op::Remainder),
            b'|' => After::Double(Half::Bar),
            b'&' => After::Double(Half::Ampersand),
            b'=' => After::Double(Half::Equals),
            b'!' => After::Double(Half::Bang),
            b'<' => After::Double(Half::Less),
            b'>' => After::Double(Half::Greater),
            b',' => After::Separator(Separator::Comma),
            b';' => After::Separator(Separator::Semicolon),
            b'(' => After::Round,
            b'[' => After::Square,
            b')' => After::End(Shape::Round),
            b']' => After::End(Shape::Square),
            b'}' => After::End(Shape::Curly),
            b'$' => After::Dollar,
            b'"' => After::Quote,
            _ => After::Other,
        }
    }
}

impl From<u8> for Class {
    ghost from_gives = { λ b c. c ≡ class b };

    fn from(b: u8) -> Class {
        match b {
            b'\n' => Class::Newline,
            b'\r' => Class::Return,
            b' ' | b'\t' => Class::Blank,
            b'$' => Class::Dollar,
            b'"' => Class::Quote,
            b'\\' => Class::Backslash,
            b'n' | b't' => Class::Escaped,
            _ => Class::Other,
        }
    }
}

pub fn is_blank(b: u8) -> bool
    ensures { result ≡ blank b }
{
    matches!(b, b' ' | b'\t')
}

// A byte that goes on a name.
pub fn is_word(b: u8) -> bool
    ensures { result ≡ word b }
{
    b.is_ascii_alphanumeric() || matches!(b, b'_' | b'.')
}

// The value of a digit in bases up to sixteen.
pub fn digit_value(b: u8) -> Option<u8>
    ensures { SomeIff result (digit_value b < 16) (digit_value b) }
{
    char::from(b).to_digit(16).map(|digit| digit as u8)
}
