// Calls of the functions of the language.
ghost use Rattle.std.specs.Prelude.{◌≡◌, map};
ghost use Rattle.refusals.specs.Errors.{refused_by};
ghost use Rattle.refusals.specs.Refusals.{meant};
ghost use Rattle.values.specs.Means.{text_means, element_means, value_means};
ghost use Rattle.values.specs.Forms.{form};
ghost use Rattle.operations.specs.Functions.{argument, text_with_number, element_at, range, all_elements, at_most_16, call};

use super::operators::{number, operand};
use forms::{concat, element_form, read_form, same_form};
use functions::Function;
use refusals::Refusal;
use values::element::Element;
use values::text::Text;
use values::value::Value;

// What a function gives of its arguments; one that is missing is the value of no elements.
pub fn call(function: Function, arguments: &[Value]) -> Result<Value, Refusal>
    ensures { meant value_means result ≡ refused_by (call function (map value_means arguments.now)) }
{
    let first = argument(arguments, 0);
    let second = argument(arguments, 1);
    match function {
        Function::Length => Ok(number(first.elements().len() as i64)),
        Function::Atoi => Ok(number(read_form(&first)?)),
        Function::Eq => Ok(number(i64::from(same_form(&first, &second)))),
        Function::Value => join(&first, &second),
        Function::Concat => Ok(Value::from(Element::Text(concat(&first, &second)?))),
        Function::At => Ok(element_at(&first, operand(&second)?)),
        Function::Range => range(operand(&first)?, operand(&second)?),
        Function::Append => append(arguments),
    }
}

fn argument(arguments: &[Value], i: usize) -> Value
    ensures { value_means result ≡ argument i (map value_means arguments.now) }
{
    arguments.get(i).copied().unwrap_or_default()
}

// VALUE: the print form of the first with the number of the second; an empty one adds nothing.
fn join(first: &Value, second: &Value) -> Result<Value, Refusal>
    ensures { meant value_means result ≡ refused_by (text_with_number (value_means first.now) (value_means second.now)) }
{
    let text = match first.elements() {
        [] => None,
        [element] => Some(form_text(element)),
        _ => return Err(Refusal::NotANumber),
    };
    let number = match second.elements() {
        [] => None,
        _ => Some(operand(second)?),
    };
    Ok(match (text, number) {
        (None, None) => Value::new(),
        (Some(text), None) => Value::from(Element::Text(text)),
        (None, Some(n)) => Value::from(Element::Number(n)),
        (Some(text), Some(n)) => Value::from(Element::Both(n, text)),
    })
}

fn form_text(element: &Element) -> Text
    ensures { text_means result ≡ form (element_means element.now) }
{
    Text::from(element_form(element))
}

// AT: the element at an index from 0; where there is none, the value of no elements.
fn element_at(value: &Value, index: i64) -> Value
    ensures { value_means result ≡ element_at (value_means value.now) index }
{
    let Ok(i) = usize::try_from(index) else {
        return Value::new();
    };
    match value.elements().get(i) {
        Some(element) => Value::from(*element),
        None => Value::new(),
    }
}

// RANGE: the numbers from a to b.
fn range(a: i64, b: i64) -> Result<Value, Refusal>
    ensures { meant value_means result ≡ refused_by (range a b) }
{
    let mut value = Value::new();
    for n in a..=b {
        value.push(Element::Number(n))?;
    }
    Ok(value)
}

// APPEND: the elements of all arguments.
fn append(arguments: &[Value]) -> Result<Value, Refusal>
    ensures { meant value_means result ≡ refused_by (at_most_16 (all_elements (map value_means arguments.now))) }
{
    let mut value = Value::new();
    for argument in arguments {
        value.append(argument)?;
    }
    Ok(value)
}
