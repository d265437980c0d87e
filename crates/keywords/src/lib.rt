// The words of instructions.
#![tactic(auto)]

ghost use Rattle.std.specs.Prelude.{◌≡◌};
ghost use Rattle.order.specs.Made.{bytes_order};
ghost use Rattle.order.specs.Names.{lookup};
ghost use Rattle.keywords.specs.Words.{keywords};

use order::table::{Named, Table};
use order::words::Word;

#[derive(Clone, Copy, PartialEq, Eq, Debug)]
pub enum Keyword {
    Elif,
    Else,
    End,
    Foreach,
    If,
    Joineach,
    While,
}

// In the order of their bytes, for the search.
const KEYWORDS: Table<'static, Keyword> = Table {
    rows: &[
        Named {
            name: Word { bytes: b"ELIF" },
            value: Keyword::Elif,
        },
        Named {
            name: Word { bytes: b"ELSE" },
            value: Keyword::Else,
        },
        Named {
            name: Word { bytes: b"END" },
            value: Keyword::End,
        },
        Named {
            name: Word { bytes: b"FOREACH" },
            value: Keyword::Foreach,
        },
        Named {
            name: Word { bytes: b"IF" },
            value: Keyword::If,
        },
        Named {
            name: Word { bytes: b"JOINEACH" },
            value: Keyword::Joineach,
        },
        Named {
            name: Word { bytes: b"WHILE" },
            value: Keyword::While,
        },
    ],
};

// The instruction that the bytes begin, or that they begin none.
pub fn find(name: &[u8]) -> Option<Keyword>
    ensures { result ≡ lookup bytes_order name.now keywords }
{
    KEYWORDS.find(name)
}
