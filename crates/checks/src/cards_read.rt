// Names and the lines of a card.
use cards::file::{file_line, read_line};
use index::Index;
use keys::name::Name;
use listings::print_card;
use papers::roll::Roll;
use refusals::Refusal;
use std::test::Fail;

#[test]
fn lawful_names(rt: HostRuntime) {
    let lawful: [&[u8]; 6] = [
        b"a",
        b"_",
        b"END.1",
        b"if",
        b"LENGTH",
        b"a23456789012345678901234",
    ];
    for name in lawful {
        assert!(rt; Name::try_from(name).is_ok());
    }
    let unlawful: [&[u8]; 7] = [
        b"",
        b"9a",
        b".a",
        b"a-b",
        b"END",
        b"JOINEACH",
        b"a234567890123456789012345",
    ];
    for name in unlawful {
        assert!(rt; Name::try_from(name).is_err());
    }
}

#[test]
fn refused_lines(rt: HostRuntime) {
    let names: [&[u8]; 7] = [
        b" 1",
        b"9a 1",
        b"IF 1",
        b"a[ 1",
        b"a[1]x 1",
        b"a[+1] 1",
        b"a[9223372036854775808] 1",
    ];
    for line in names {
        assert!(rt; matches!(read_line(line), Err(Refusal::BadName)));
    }
    let values: [&[u8]; 4] = [
        b"a",
        b"a 9223372036854775808",
        b"a 123456789012345678901234567890123",
        b"a 1,2,3,4,5,6,7,8,9,10,11,12,13,14,15,16,17",
    ];
    for line in values {
        assert!(rt; matches!(read_line(line), Err(Refusal::BadValue)));
    }
    assert!(rt;
        read_line(b"a[-9223372036854775808] 1,2,3,4,5,6,7,8,9,10,11,12,13,14,15,16").is_ok()
    );
}

// A card of three lines on a store of two keys and a paper of eleven bytes.
#[test]
fn short_till(rt: HostRuntime) -> Result<(), Fail> {
    let mut index = Index::<2>::new()?;
    file_line(&mut index, b"b 1,two")?;
    file_line(&mut index, b"a[-1] 3")?;
    assert!(rt; matches!(file_line(&mut index, b"c 4"), Err(Refusal::StoreFull)));
    let mut roll = Roll::<11>::new()?;
    assert!(rt;
        matches!(
            print_card(&index, index.rows(), &mut roll),
            Err(Refusal::PaperFull)
        )
    );
    assert!(rt; roll.bytes() == b"a[-1]=3\nb=1".as_slice());
    Ok(())
}
