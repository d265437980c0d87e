// Operators and signs on numbers, and operands.
ghost use Rattle.std.specs.Prelude.{◌≡◌};
ghost use Rattle.refusals.specs.Errors.{refused_by};
ghost use Rattle.values.specs.Means.{value_means};
ghost use Rattle.operations.specs.Operators.{binary, signed, quotient, remainder, shifted_left, shifted_right, operand, value_of};
ghost use Rattle.operations.specs.Laws.{DividesTowardsZero, DividesAll};

use refusals::Refusal;
use tokens::operator::{Op, Sign};
use values::element::Element;
use values::value::Value;

// The number of an operand, which has to be one element that has one; else 10.
pub fn operand(value: &Value) -> Result<i64, Refusal>
    ensures { result ≡ refused_by (operand (value_means value.now)) }
{
    let [element] = value.elements() else {
        return Err(Refusal::NotANumber);
    };
    match *element {
        Element::Number(n) | Element::Both(n, _) => Ok(n),
        Element::Text(_) => Err(Refusal::NotANumber),
    }
}

// The value of a number without text.
pub fn number(n: i64) -> Value
    ensures { value_means result ≡ value_of n }
{
    Value::from(Element::Number(n))
}

// What an operator gives of its operands. What is promised beyond that are the laws of division.
#[tactic(auto, using(crate::proofs::Divisions::divides_towards_zero, crate::proofs::Divisions::divides_all))]
pub fn binary(op: Op, left: i64, right: i64) -> Result<i64, Refusal>
    ensures answer { result ≡ refused_by (binary op left right) }
    ensures division { DividesTowardsZero }
    ensures divided { DividesAll }
{
    match op {
        Op::Or => Ok(i64::from(left != 0 || right != 0)),
        Op::And => Ok(i64::from(left != 0 && right != 0)),
        Op::BitOr => Ok(left | right),
        Op::BitXor => Ok(left ^ right),
        Op::BitAnd => Ok(left & right),
        Op::Equal => Ok(i64::from(left == right)),
        Op::Unequal => Ok(i64::from(left != right)),
        Op::Less => Ok(i64::from(left < right)),
        Op::Greater => Ok(i64::from(left > right)),
        Op::LessEqual => Ok(i64::from(left <= right)),
        Op::GreaterEqual => Ok(i64::from(left >= right)),
        Op::ShiftLeft => shift_left(left, right),
        Op::ShiftRight => shift_right(left, right),
        Op::Add => left.checked_add(right).ok_or(Refusal::Overflow),
        Op::Subtract => left.checked_sub(right).ok_or(Refusal::Overflow),
        Op::Multiply => left.checked_mul(right).ok_or(Refusal::Overflow),
        Op::Divide => divide(left, right),
        Op::Remainder => remainder(left, right),
    }
}

fn divide(left: i64, right: i64) -> Result<i64, Refusal>
    ensures { result ≡ refused_by (quotient left right) }
{
    if right == 0 {
        return Err(Refusal::DivisionByZero);
    }
    left.checked_div(right).ok_or(Refusal::Overflow)
}

fn remainder(left: i64, right: i64) -> Result<i64, Refusal>
    ensures { result ≡ refused_by (remainder left right) }
{
    if right == 0 {
        return Err(Refusal::DivisionByZero);
    }
    left.checked_rem(right).ok_or(Refusal::Overflow)
}

// 13 for a shift by less than 0 or more than 63, or of a negative number; 11 where the product is out of 64 bits.
fn shift_left(left: i64, right: i64) -> Result<i64, Refusal>
    ensures { result ≡ refused_by (shifted_left left right) }
{
    if right < 0 || right > 63 || left < 0 {
        return Err(Refusal::BadShift);
    }
    let product = left.unsigned_abs().checked_mul(1 << right.unsigned_abs());
    product
        .and_then(|n| i64::try_from(n).ok())
        .ok_or(Refusal::Overflow)
}

// The top bit is copied.
fn shift_right(left: i64, right: i64) -> Result<i64, Refusal>
    ensures { result ≡ refused_by (shifted_right left right) }
{
    if right < 0 || right > 63 {
        return Err(Refusal::BadShift);
    }
    Ok(left >> right)
}

// What a sign before an operand gives.
pub fn signed(sign: Sign, operand: i64) -> Result<i64, Refusal>
    ensures { result ≡ refused_by (signed sign operand) }
{
    match sign {
        Sign::Plus => Ok(operand),
        Sign::Minus => operand.checked_neg().ok_or(Refusal::Overflow),
        Sign::Tilde => Ok(!operand),
        Sign::Bang => Ok(i64::from(operand == 0)),
    }
}
