// Print forms of elements and values.
#![tactic(auto)]

ghost use Rattle.std.specs.Prelude.{◌≡◌, ◌++◌, length, nat_le};
ghost use Rattle.std.specs.Str.{bytes_eq};
ghost use Rattle.arrays.specs.Items.{items};
ghost use Rattle.numbers.specs.Numbers.{read_number};
ghost use Rattle.printer.specs.Printing.{Prints};
ghost use Rattle.refusals.specs.Refusals.{answered, meant};
ghost use Rattle.refusals.specs.declared.Refusal.TheVariants.{TextTooLong};
ghost use Rattle.values.specs.Forms.{form, value_form};
ghost use Rattle.values.specs.Means.{text_means, element_means, value_means};

use arrays::ArrayVec;
use numbers::Numeral;
use numbers::read::read_number;
use printer::Printer;
use printer::print::print;
use refusals::Refusal;
use values::element::Element;
use values::text::Text;
use values::value::Value;

// The longest print form of a value: 16 texts of 32 bytes, and the commas between.
pub const LONGEST: usize = 527;

// An element's print form: its text if any, else its number.
pub fn element_form(element: &Element) -> ArrayVec<u8, 32>
    ensures { items result ≡ form (element_means element.now) }
{
    // a number has at most 20 bytes and a text 32, so there is room
    match element {
        Element::Number(n) => ArrayVec::from_slice(0, Numeral::from(*n).as_bytes()),
        Element::Text(text) | Element::Both(_, text) => ArrayVec::from_slice(0, text.as_bytes()),
    }
    .unwrap()
}

// A value's print form: those of its elements in order, with commas between.
pub fn value_form(value: &Value) -> ArrayVec<u8, LONGEST>
    ensures { items result ≡ value_form (value_means value.now) }
{
    let mut bytes = ArrayVec::new(0);
    for (i, element) in value.elements().iter().enumerate() {
        if i > 0 {
            bytes.push(b',').unwrap();
        }
        bytes.append(element_form(element).as_slice()).unwrap();
    }
    bytes
}

// Prints a value.
pub fn print_value<P: Printer>(printer: &mut P, value: &Value) -> Result<(), Refusal>
    ensures { Prints P.Printer printer.old printer.new (value_form (value_means value.now)) result }
{
    print(printer, value_form(value).as_slice())
}

// Whether two values print alike.
pub fn same_form(a: &Value, b: &Value) -> bool
    ensures { result ≡ bytes_eq (value_form (value_means a.now)) (value_form (value_means b.now)) }
{
    value_form(a).as_slice() == value_form(b).as_slice()
}

// Reads a number from a value's print form, which has to be an optional sign and digits.
pub fn read_form(value: &Value) -> Result<i64, Refusal>
    ensures { result ≡ read_number (value_form (value_means value.now)) }
{
    read_number(value_form(value).as_slice())
}

// The print forms of two values in one text; over 32 bytes it is refused.
pub fn concat(a: &Value, b: &Value) -> Result<Text, Refusal>
    ensures { meant text_means result ≡ answered (nat_le (length (value_form (value_means a.now) ++ value_form (value_means b.now))) 32) (value_form (value_means a.now) ++ value_form (value_means b.now)) TextTooLong }
{
    let mut both: ArrayVec<u8, 32> = ArrayVec::new(0);
    both.append(value_form(a).as_slice())
        .map_err(|_| Refusal::TextTooLong)?;
    both.append(value_form(b).as_slice())
        .map_err(|_| Refusal::TextTooLong)?;
    Ok(Text::from(both))
}
