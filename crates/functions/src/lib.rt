// The functions of the language: which there are, and how many arguments each takes.
#![tactic(auto)]

ghost use Rattle.std.specs.Prelude.{◌≡◌};
ghost use Rattle.order.specs.Made.{bytes_order};
ghost use Rattle.order.specs.Names.{lookup};
ghost use Rattle.functions.specs.Table.{functions};

use order::table::{Named, Table};
use order::words::Word;

#[derive(Clone, Copy, PartialEq, Eq, Debug)]
pub enum Function {
    Append,
    At,
    Atoi,
    Concat,
    Eq,
    Length,
    Range,
    Value,
}

// A function, with the least and the greatest number of its arguments.
#[derive(Clone, Copy, PartialEq, Eq, Debug)]
pub struct Signature {
    pub function: Function,
    pub least: u8,
    pub most: u8,
}

// In the order of their names, for the search.
const FUNCTIONS: Table<'static, Signature> = Table {
    rows: &[
        Named {
            name: Word { bytes: b"APPEND" },
            value: Signature {
                function: Function::Append,
                least: 2,
                most: 4,
            },
        },
        Named {
            name: Word { bytes: b"AT" },
            value: Signature {
                function: Function::At,
                least: 2,
                most: 2,
            },
        },
        Named {
            name: Word { bytes: b"ATOI" },
            value: Signature {
                function: Function::Atoi,
                least: 1,
                most: 1,
            },
        },
        Named {
            name: Word { bytes: b"CONCAT" },
            value: Signature {
                function: Function::Concat,
                least: 2,
                most: 2,
            },
        },
        Named {
            name: Word { bytes: b"EQ" },
            value: Signature {
                function: Function::Eq,
                least: 2,
                most: 2,
            },
        },
        Named {
            name: Word { bytes: b"LENGTH" },
            value: Signature {
                function: Function::Length,
                least: 1,
                most: 1,
            },
        },
        Named {
            name: Word { bytes: b"RANGE" },
            value: Signature {
                function: Function::Range,
                least: 2,
                most: 2,
            },
        },
        Named {
            name: Word { bytes: b"VALUE" },
            value: Signature {
                function: Function::Value,
                least: 2,
                most: 2,
            },
        },
    ],
};

// The function of that name, or that there is none.
pub fn find(name: &[u8]) -> Option<Signature>
    ensures { result ≡ lookup bytes_order name.now functions }
{
    FUNCTIONS.find(name)
}
