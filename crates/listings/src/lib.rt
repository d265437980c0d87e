// What a store holds, printed: a line for each key.
#![tactic(auto)]

ghost use Rattle.printer.specs.Printing.{Prints};
ghost use Rattle.keys.specs.KeyMeans.{key_means};
ghost use Rattle.values.specs.Means.{value_means};
ghost use Rattle.listings.specs.Printed.{key_form, entry_form, card_form, keys_of};

use forms::print_value;
use keys::key::Key;
use numbers::Numeral;
use printer::Printer;
use printer::print::print;
use refusals::Refusal;
use store::entry::Entry;
use store::{Store, read};
use values::value::Value;

// Prints `NAME` or `NAME[NUMBER]`.
fn print_key<P: Printer>(printer: &mut P, key: &Key) -> Result<(), Refusal>
    ensures { Prints P.Printer printer.old printer.new (key_form (key_means key.now)) result }
{
    print(printer, key.name.as_bytes())?;
    let Some(n) = key.subscript else {
        return Ok(());
    };
    print(printer, b"[")?;
    print(printer, Numeral::from(n).as_bytes())?;
    print(printer, b"]")
}

// Prints `KEY=PRINTFORM` and ends the line.
fn print_entry<P: Printer>(printer: &mut P, key: &Key, value: &Value) -> Result<(), Refusal>
    ensures { Prints P.Printer printer.old printer.new (entry_form (key_means key.now) (value_means value.now)) result }
{
    print_key(printer, key)?;
    print(printer, b"=")?;
    print_value(printer, value)?;
    print(printer, b"\n")
}

// Prints a line for the key of each row, with the value that the store has at it.
pub fn print_card<S: Store, P: Printer>(
    store: &S,
    rows: &[Entry],
    printer: &mut P,
) -> Result<(), Refusal>
    ensures { Prints P.Printer printer.old printer.new (card_form (S.Store.names store.now) (keys_of rows.now)) result }
{
    for row in rows {
        print_entry(printer, &row.key, &read(store, &row.key))?;
    }
    Ok(())
}
