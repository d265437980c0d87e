// Numbers, texts and values at their bounds.
use forms::{concat, same_form, value_form};
use numbers::Numeral;
use numbers::read::read_number;
use refusals::Refusal;
use std::test::Fail;
use values::element::Element;
use values::given::Given;
use values::text::Text;
use values::value::Value;

#[test]
fn lowest_and_highest(rt: HostRuntime) {
    assert!(rt; Numeral::from(i64::MIN).as_bytes() == b"-9223372036854775808".as_slice());
    assert!(rt; Numeral::from(i64::MAX).as_bytes() == b"9223372036854775807".as_slice());
    assert!(rt; Numeral::from(0).as_bytes() == b"0".as_slice());
    assert!(rt; matches!(read_number(b"-9223372036854775808"), Ok(i64::MIN)));
    assert!(rt; matches!(read_number(b"+9223372036854775807"), Ok(i64::MAX)));
    assert!(rt; matches!(read_number(b"9223372036854775808"), Err(Refusal::Overflow)));
    assert!(rt; matches!(read_number(b"-9223372036854775809"), Err(Refusal::Overflow)));
    assert!(rt; matches!(read_number(b"-000"), Ok(0)));
}

#[test]
fn texts_of_32_bytes(rt: HostRuntime) -> Result<(), Fail> {
    assert!(rt; Text::try_from([65; 32].as_slice()).is_ok());
    assert!(rt; Text::try_from([65; 33].as_slice()).is_err());
    let mut one = Value::new();
    one.push(Element::Text(Text::try_from([65; 31].as_slice())?))?;
    let mut digit = Value::new();
    digit.push(Element::Number(7))?;
    assert!(rt; concat(&one, &digit).is_ok());
    digit.push(Element::Number(7))?;
    assert!(rt; concat(&one, &digit).is_err());
    assert!(rt; !same_form(&one, &digit));
    Ok(())
}

#[test]
fn sixteen_elements(rt: HostRuntime) -> Result<(), Fail> {
    let text = Text::try_from([65; 32].as_slice())?;
    let mut value = Value::new();
    for _ in 0..16 {
        value.push(Element::Both(1, text))?;
    }
    assert!(rt;
        matches!(
            value.push(Element::Number(1)),
            Err(Refusal::TooManyElements)
        )
    );
    assert_eq!(rt; value.elements().len(), 16);
    assert_eq!(rt; value_form(&value).len(), 527);
    let mut twice = value;
    assert!(rt; matches!(twice.append(&value), Err(Refusal::TooManyElements)));
    assert!(rt; matches!(twice.append(&Value::new()), Ok(())));
    assert!(rt; same_form(&twice, &value));
    Ok(())
}

#[test]
fn judged_values(rt: HostRuntime) -> Result<(), Fail> {
    let lawful = [
        Given {
            number: Some(-3),
            text: None,
        },
        Given {
            number: Some(1),
            text: Some(b"one"),
        },
    ];
    let value = Value::try_from(lawful.as_slice())?;
    assert!(rt; value_form(&value).as_slice() == b"-3,one".as_slice());
    let neither = [Given {
        number: None,
        text: None,
    }];
    assert!(rt; Value::try_from(neither.as_slice()).is_err());
    let too_many = [Given {
        number: Some(1),
        text: None,
    }; 17];
    assert!(rt; Value::try_from(too_many.as_slice()).is_err());
    Ok(())
}
