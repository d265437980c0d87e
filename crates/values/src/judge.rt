// Values that come from outside, judged.
ghost use Rattle.std.specs.Prelude.{◌≡◌};
ghost use Rattle.refusals.specs.Refusals.{answered, meant};
ghost use Rattle.refusals.specs.declared.Refusal.TheVariants.{BadValue};
ghost use Rattle.values.specs.Given.{lawful_element, element_of, lawful_value, elements_of};
ghost use Rattle.values.specs.Means.{element_means, value_means};

use super::element::Element;
use super::given::Given;
use super::text::Text;
use super::value::Value;
use refusals::Refusal;

// An element with a number, a text of at most 32 bytes or both; any other is refused.
impl TryFrom<&Given<'_>> for Element {
    type Error = Refusal;

    ghost try_from_gives = { λ g r. meant element_means r ≡ answered (lawful_element g.now.number g.now.text) (element_of g.now.number g.now.text) BadValue };

    fn try_from(given: &Given<'_>) -> Result<Element, Refusal> {
        let Some(bytes) = given.text else {
            return given.number.map(Element::Number).ok_or(Refusal::BadValue);
        };
        let text = Text::try_from(bytes).map_err(|_| Refusal::BadValue)?;
        Ok(match given.number {
            Some(n) => Element::Both(n, text),
            None => Element::Text(text),
        })
    }
}

// A value of at most 16 lawful elements; any other is refused.
impl TryFrom<&[Given<'_>]> for Value {
    type Error = Refusal;

    ghost try_from_gives = { λ gs r. meant value_means r ≡ answered (lawful_value gs.now) (elements_of gs.now) BadValue };

    fn try_from(given: &[Given<'_>]) -> Result<Value, Refusal> {
        let mut value = Value::new();
        for g in given {
            value
                .push(Element::try_from(g)?)
                .map_err(|_| Refusal::BadValue)?;
        }
        Ok(value)
    }
}
