// What number constants, text constants and names stand for. The nodes of a template that was read are lawful; of others nothing is said here.
ghost use Rattle.std.specs.Prelude.{◌≡◌, false, length, nat_le};
ghost use Rattle.keys.specs.KeyMeans.{name_means};
ghost use Rattle.meaning.specs.Constants.{part_of, escaped, unescaped, quoted, number_constant};
ghost use Rattle.meaning.specs.Lawful.{Inside, Named, Quoted, Lawful};
ghost use Rattle.refusals.specs.Refusals.{answered, meant};
ghost use Rattle.refusals.specs.declared.Refusal.TheVariants.{TextTooLong};
ghost use Rattle.trees.specs.declared.Node.TheVariants.{Number};
ghost use Rattle.values.specs.Means.{text_means, value_means};

use arrays::ArrayVec;
use keys::name::Name;
use refusals::Refusal;
use trees::Span;
use values::element::Element;
use values::text::Text;
use values::value::Value;

// A part of the text.
pub(crate) fn part(text: &[u8], span: Span<u16>) -> &[u8]
    ensures { Inside text.now span → result.now ≡ part_of text.now span }
{
    text.get(usize::from(span.from)..usize::from(span.to))
        .unwrap_or_default()
}

pub(crate) fn name(text: &[u8], span: Span<u16>) -> Name
    ensures { Named text.now span → name_means result ≡ part_of text.now span }
{
    Name::try_from(part(text, span)).unwrap_or(Name::placeholder())
}

// A number constant, with its text as written.
pub(crate) fn number(text: &[u8], span: Span<u16>, value: u64) -> Value
    ensures { Lawful text.now (Number span value) → value_means result ≡ number_constant text.now span value }
{
    let number = i64::try_from(value).unwrap_or(i64::MAX);
    let written = Text::try_from(part(text, span)).unwrap_or_default();
    Value::from(Element::Both(number, written))
}

// The text of a text constant.
pub(crate) fn quoted(text: &[u8], span: Span<u16>) -> Text
    ensures { Quoted text.now span → text_means result ≡ quoted text.now span }
{
    let inner = Span {
        from: span.from.saturating_add(1),
        to: span.to.saturating_sub(1),
    };
    unescape(part(text, inner)).unwrap_or_default()
}

// What the bytes between quotes stand for.
fn unescape(bytes: &[u8]) -> Result<Text, Refusal>
    ensures { meant text_means result ≡ answered (nat_le (length (unescaped false bytes.now)) 32) (unescaped false bytes.now) TextTooLong }
{
    let mut text: ArrayVec<u8, 32> = ArrayVec::new(0);
    let mut escape = false;
    for b in bytes {
        if !escape && *b == b'\\' {
            escape = true;
            continue;
        }
        let b = if escape { escaped(*b) } else { *b };
        text.push(b).map_err(|_| Refusal::TextTooLong)?;
        escape = false;
    }
    Ok(Text::from(text))
}

// What the byte behind a `\` stands for.
fn escaped(b: u8) -> u8
    ensures { result ≡ escaped b }
{
    match b {
        b'n' => b'\n',
        b't' => b'\t',
        _ => b,
    }
}
