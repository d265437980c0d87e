// Operators, and the signs that stand before an operand.
ghost use Rattle.std.specs.Prelude.{◌≡◌};
ghost use Rattle.tokens.specs.Operators.{level, is_short, is_wide, doubled, alone};

// An operator between two operands.
#[derive(Clone, Copy, PartialEq, Eq, Debug)]
pub enum Op {
    Or,
    And,
    BitOr,
    BitXor,
    BitAnd,
    Equal,
    Unequal,
    Less,
    Greater,
    LessEqual,
    GreaterEqual,
    ShiftLeft,
    ShiftRight,
    Add,
    Subtract,
    Multiply,
    Divide,
    Remainder,
}

// A sign before an operand.
#[derive(Clone, Copy, PartialEq, Eq, Debug)]
pub enum Sign {
    Plus,
    Minus,
    Tilde,
    Bang,
}

// The first byte of an operator that a second byte may make longer: `|`, `&`, `=`, `!`, `<`, `>`.
#[derive(Clone, Copy, PartialEq, Eq, Debug)]
pub enum Half {
    Bar,
    Ampersand,
    Equals,
    Bang,
    Less,
    Greater,
}

impl Op {
    // How tight an operator binds, from 1 (loosest) to 10.
    pub fn level(self) -> u8
        ensures { result ≡ level self }
    {
        match self {
            Op::Or => 1,
            Op::And => 2,
            Op::BitOr => 3,
            Op::BitXor => 4,
            Op::BitAnd => 5,
            Op::Equal | Op::Unequal => 6,
            Op::Less | Op::Greater | Op::LessEqual | Op::GreaterEqual => 7,
            Op::ShiftLeft | Op::ShiftRight => 8,
            Op::Add | Op::Subtract => 9,
            Op::Multiply | Op::Divide | Op::Remainder => 10,
        }
    }

    // Whether the left side may decide, so that the right one is not worked out.
    pub fn is_short(self) -> bool
        ensures { result ≡ is_short self }
    {
        matches!(self, Op::Or | Op::And)
    }

    // Whether it has two bytes.
    pub fn is_wide(self) -> bool
        ensures { result ≡ is_wide self }
    {
        matches!(
            self,
            Op::Or
                | Op::And
                | Op::Equal
                | Op::Unequal
                | Op::LessEqual
                | Op::GreaterEqual
                | Op::ShiftLeft
                | Op::ShiftRight
        )
    }
}

impl Half {
    // The operator of two bytes, if the second is `b`.
    pub fn doubled(self, b: u8) -> Option<Op>
        ensures { result ≡ doubled self b }
    {
        match (self, b) {
            (Half::Bar, b'|') => Some(Op::Or),
            (Half::Ampersand, b'&') => Some(Op::And),
            (Half::Equals, b'=') => Some(Op::Equal),
            (Half::Bang, b'=') => Some(Op::Unequal),
            (Half::Less, b'=') => Some(Op::LessEqual),
            (Half::Less, b'<') => Some(Op::ShiftLeft),
            (Half::Greater, b'=') => Some(Op::GreaterEqual),
            (Half::Greater, b'>') => Some(Op::ShiftRight),
            _ => None,
        }
    }

    // The operator of the first byte alone.
    pub fn alone(self) -> Option<Op>
        ensures { result ≡ alone self }
    {
        match self {
            Half::Bar => Some(Op::BitOr),
            Half::Ampersand => Some(Op::BitAnd),
            Half::Less => Some(Op::Less),
            Half::Greater => Some(Op::Greater),
            Half::Equals | Half::Bang => None,
        }
    }
}
