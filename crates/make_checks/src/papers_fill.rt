// Papers that are filled to the byte, also through the line layer.
use lines::Lines;
use papers::board::Board;
use papers::roll::Roll;
use printer::Printer;
use printer::print::print;
use refusals::Refusal;
use std::process::Abort;
use std::test::Fail;

// A printer of 64 bytes, empty at first, is filled and refuses one byte more.
fn fill<P: Printer>(rt: &impl Abort, printer: &mut P) -> Result<(), Fail> {
    assert_eq!(rt; printer.capacity(), 64);
    print(printer, &[65; 40])?;
    print(printer, b"a line\n")?;
    assert!(rt; matches!(print(printer, &[66; 40]), Err(Refusal::PaperFull)));
    assert_eq!(rt; printer.len(), 64);
    assert!(rt; matches!(printer.put(67), Err(Refusal::PaperFull)));
    printer.settle();
    assert_eq!(rt; printer.len(), 64);
    Ok(())
}

#[test]
fn layered_roll_fills(rt: HostRuntime) -> Result<(), Fail> {
    let mut lines = Lines::new(Roll::<64>::new()?);
    print(&mut lines, b"held")?;
    assert_eq!(rt; lines.below().len(), 0);
    lines.tear();
    fill(&rt, &mut lines)?;
    let roll = lines.into_below();
    assert!(rt; roll.bytes().len() == 64);
    assert!(rt; &roll.bytes()[38..50] == b"AAa line\nBBB".as_slice());
    Ok(())
}

#[test]
fn board_fills(rt: HostRuntime) -> Result<(), Fail> {
    let mut board = Board::<2>::new()?;
    fill(&rt, &mut board)?;
    assert_eq!(rt; board.row(1).ok_or("no row")?.len(), 32);
    assert!(rt; board.row(2).is_none());
    board.tear();
    print(&mut board, &[7; 33])?;
    assert_eq!(rt; board.row(0).ok_or("no row")?.len(), 32);
    assert_eq!(rt; board.row(1).ok_or("no row")?, [7].as_slice());
    Ok(())
}
