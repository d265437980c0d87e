// Stores that are filled to their capacity.
use forms::value_form;
use index::Index;
use keys::key::Key;
use keys::name::Name;
use refusals::Refusal;
use sheet::Sheet;
use std::process::Abort;
use std::test::Fail;
use store::{Store, read};
use values::element::Element;
use values::value::Value;

fn number(n: i64) -> Value {
    let mut value = Value::new();
    let _ = value.push(Element::Number(n));
    value
}

fn plain(name: &[u8]) -> Result<Key, Refusal> {
    Ok(Key {
        name: Name::try_from(name)?,
        subscript: None,
    })
}

// Whether a key reads so.
fn reads<S: Store>(store: &S, key: &Key, form: &[u8]) -> bool {
    value_form(&read(store, key)).as_slice() == form
}

// Fills a store of two keys that is empty at first: `A` and `A[0]` are two keys, and a full store takes a present key.
fn fill<S: Store>(store: &mut S) -> Result<(), Refusal> {
    let a = plain(b"A")?;
    let zero = Key {
        name: a.name,
        subscript: Some(0),
    };
    store.put(&zero, &number(1))?;
    store.put(&a, &number(2))?;
    store.put(&a, &number(4))
}

// Takes one key out again, so that another finds room.
fn change<S: Store>(store: &mut S) -> Result<(), Refusal> {
    store.remove(&plain(b"A")?)?;
    store.put(&plain(b"B")?, &number(5))
}

fn check_store<S: Store>(rt: &impl Abort, store: &mut S) -> Result<(), Fail> {
    fill(store)?;
    assert!(rt;
        matches!(
            store.put(&plain(b"B")?, &number(3)),
            Err(Refusal::StoreFull)
        )
    );
    assert!(rt; reads(store, &plain(b"A")?, b"4"));
    change(store)?;
    assert!(rt; matches!(store.remove(&plain(b"A")?), Err(Refusal::UnsetKey)));
    assert!(rt; reads(store, &plain(b"A")?, b""));
    assert_eq!(rt; store.len(), 2);
    Ok(())
}

#[test]
fn sheet_fills(rt: HostRuntime) -> Result<(), Fail> {
    let mut sheet = Sheet::<2>::new()?;
    check_store(&rt, &mut sheet)
}

#[test]
fn index_fills(rt: HostRuntime) -> Result<(), Fail> {
    let mut index = Index::<2>::new()?;
    check_store(&rt, &mut index)?;
    let first = index.rows().first().ok_or("no rows")?;
    assert!(rt; first.key.name.as_bytes() == b"A".as_slice());
    Ok(())
}
