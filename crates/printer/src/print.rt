// Printing of bytes.
ghost use Rattle.printer.specs.Printing.{Prints};

use super::Printer;
use refusals::Refusal;

// Prints bytes one by one, and stops at the first that is refused; those before it stand.
pub fn print<P: Printer>(printer: &mut P, bytes: &[u8]) -> Result<(), Refusal>
    ensures { Prints P.Printer printer.old printer.new bytes.now result }
{
    for b in bytes {
        printer.put(*b)?;
    }
    Ok(())
}
