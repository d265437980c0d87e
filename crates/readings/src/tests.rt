// How often a line of the table says that what follows is repeated.
use super::times_of;
use std::test::Fail;

#[test]
fn digits_alone_say_how_often(rt: HostRuntime) -> Result<(), Fail> {
    assert_eq!(rt; times_of(b"1"), Some(1));
    assert_eq!(rt; times_of(b"007"), Some(7));
    assert_eq!(rt; times_of(b"10000"), Some(10_000));
    assert_eq!(rt; times_of(b"0"), None);
    assert_eq!(rt; times_of(b"10001"), None);
    assert_eq!(rt; times_of(b""), None);
    assert_eq!(rt; times_of(b"+2"), None);
    assert_eq!(rt; times_of(b"-2"), None);
    assert_eq!(rt; times_of(b"2 "), None);
    Ok(())
}
