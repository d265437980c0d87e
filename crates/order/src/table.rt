// Values by name: a table that is sorted by its names, which is searched by halving.
ghost use Rattle.std.specs.Prelude.{◌≡◌, true};
ghost use Rattle.order.specs.Made.{bytes_order};
ghost use Rattle.order.specs.Orders.{sorted};

use super::words::Word;
use super::{Row, search};

// A row of a table.
#[derive(Clone, Copy, PartialEq, Eq, Debug)]
pub struct Named<'a, T> {
    pub name: Word<'a>,
    pub value: T,
}

impl<'a, T> Row for Named<'a, T> {
    type Key = Word<'a>;

    ghost keyed = { λ n. n.name };

    fn key(&self) -> &Word<'a> {
        &self.name
    }
}

#[derive(Debug, Drop)]
pub struct Table<'a, T> {
    pub rows: &'a [Named<'a, T>],
    pub ghost in_order: { sorted bytes_order (λ n. n.name.bytes.now) rows.now ≡ true },
}

impl<'a, T: Copy> Table<'a, T> {
    ghost use Rattle.order.specs.Names.{lookup};
    ghost use Rattle.order.specs.Tables.{entries};

    // The value at a name.
    pub fn find(&self, name: &[u8]) -> Option<T>
        ensures { result ≡ lookup bytes_order name.now (entries self.now) }
    {
        let at = search(self.rows, &Word { bytes: name }).ok()?;
        Some(self.rows[at].value)
    }
}
