// A line of a card: a key, a space and a value.
// By functions: keys, values and elements are types of other crates, so their `TryFrom` cannot stand here.
ghost use Rattle.std.specs.Prelude.{◌≡◌, ◌&&◌, [], ◌∷◌, ◌++◌, length, if◌then◌else◌, Some, None, nat_lt};
ghost use Rattle.refusals.specs.Refusals.{Guarded, answered, meant};
ghost use Rattle.refusals.specs.declared.Refusal.TheVariants.{BadName, BadValue};
ghost use Rattle.keys.specs.KeyMeans.{key_means};
ghost use Rattle.values.specs.Means.{element_means, value_means};
ghost use Rattle.cards.specs.Cuts.{before};
ghost use Rattle.cards.specs.Lines.{written, fits, number, subscripts, key_in, lawful_piece, element, value_in};

use super::cut::split_once;
use keys::key::Key;
use keys::name::Name;
use numbers::read::{is_numeral, read_number};
use refusals::Refusal;
use values::element::Element;
use values::text::Text;
use values::value::Value;

// Whether the bytes are digits with an optional `-`.
fn is_written(bytes: &[u8]) -> bool
    ensures { result ≡ written bytes.now }
{
    !bytes.starts_with(b"+") && is_numeral(bytes)
}

// The number that digits with an optional `-` write, if it has 64 bits.
fn written_number(bytes: &[u8]) -> Option<i64>
    ensures { result ≡ (if written bytes.now && fits bytes.now then Some (number bytes.now) else None) }
{
    if is_written(bytes) {
        read_number(bytes).ok()
    } else {
        None
    }
}

// One element: digits are a number with that text, anything else is a text.
fn read_element(piece: &[u8]) -> Result<Element, Refusal>
    ensures { meant element_means result ≡ answered (lawful_piece piece.now) (element piece.now) BadValue }
{
    let text = Text::try_from(piece).map_err(|_| Refusal::BadValue)?;
    if !is_written(piece) {
        return Ok(Element::Text(text));
    }
    let n = read_number(piece).map_err(|_| Refusal::BadValue)?;
    Ok(Element::Both(n, text))
}

// The number in `NUMBER]`, with nothing behind it.
fn read_subscript(bytes: &[u8]) -> Option<i64>
    ensures { result ≡ (if subscripts bytes.now then Some (number (before 93 bytes.now)) else None) }
{
    match split_once(bytes, b']')? {
        (number, []) => written_number(number),
        _ => None,
    }
}

// A key: `NAME` or `NAME[NUMBER]`.
pub(crate) fn read_key(bytes: &[u8]) -> Result<Key, Refusal>
    ensures { meant key_means result ≡ key_in bytes.now }
{
    let Some((name, rest)) = split_once(bytes, b'[') else {
        let name = Name::try_from(bytes)?;
        return Ok(Key {
            name,
            subscript: None,
        });
    };
    let name = Name::try_from(name)?;
    let subscript = Some(read_subscript(rest).ok_or(Refusal::BadName)?);
    Ok(Key { name, subscript })
}

// One element more, last.
fn add(value: &mut Value, piece: &[u8]) -> Result<(), Refusal>
    ensures { Guarded (lawful_piece piece.now && nat_lt (length (value_means value.old)) 16) (value_means value.old) (value_means value.old ++ element piece.now ∷ []) (value_means value.new) BadValue result }
{
    let element = read_element(piece)?;
    value.push(element).map_err(|_| Refusal::BadValue)
}

// A value: elements parted by commas.
pub(crate) fn read_value(bytes: &[u8]) -> Result<Value, Refusal>
    ensures { meant value_means result ≡ value_in bytes.now }
{
    let mut value = Value::new();
    if bytes.is_empty() {
        return Ok(value);
    }
    let mut rest = bytes;
    while let Some((piece, behind)) = split_once(rest, b',') {
        add(&mut value, piece)?;
        rest = behind;
    }
    add(&mut value, rest)?;
    Ok(value)
}
