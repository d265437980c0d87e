// Values from elements, and back.
ghost use Rattle.std.specs.Prelude.{◌≡◌, [], ◌∷◌, ◌++◌, map, length, nat_le, nat_lt};
ghost use Rattle.refusals.specs.Refusals.{Guarded};
ghost use Rattle.refusals.specs.declared.Refusal.TheVariants.{TooManyElements};
ghost use Rattle.values.specs.Means.{element_means, value_means};

use super::super::element::Element;
use super::Value;
use arrays::ArrayVec;
use refusals::Refusal;

impl Default for Value {
    ghost is_default = { λ v. value_means v ≡ [] };

    fn default() -> Value {
        Value::new()
    }
}

// The value of one element.
impl From<Element> for Value {
    ghost from_gives = { λ e v. value_means v ≡ element_means e ∷ [] };

    fn from(element: Element) -> Value {
        let mut value = Value::new();
        // there is room for 16
        value.push(element).unwrap();
        value
    }
}

impl Value {
    // The value of no elements.
    pub fn new() -> Value
        ensures { value_means result ≡ [] }
    {
        Value {
            elements: ArrayVec::new(Element::Number(0)),
        }
    }

    pub fn elements(&self) -> &[Element]
        ensures { map element_means result.now ≡ value_means self.now }
    {
        self.elements.as_slice()
    }

    // One element more, last; a seventeenth is refused, and the value stays.
    pub fn push(&mut self, element: Element) -> Result<(), Refusal>
        ensures { Guarded (nat_lt (length (value_means self.old)) 16) (value_means self.old) (value_means self.old ++ element_means element ∷ []) (value_means self.new) TooManyElements result }
    {
        self.elements
            .push(element)
            .map_err(|_| Refusal::TooManyElements)
    }

    // The elements of another value behind its own; where they are more than 16 together it is refused, and the value stays.
    pub fn append(&mut self, other: &Value) -> Result<(), Refusal>
        ensures { Guarded (nat_le (length (value_means self.old ++ value_means other.now)) 16) (value_means self.old) (value_means self.old ++ value_means other.now) (value_means self.new) TooManyElements result }
    {
        self.elements
            .append(other.elements())
            .map_err(|_| Refusal::TooManyElements)
    }
}
