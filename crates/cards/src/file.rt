// Lines of a card, filed in a store.
ghost use Rattle.std.specs.Prelude.{◌≡◌};
ghost use Rattle.refusals.specs.Refusals.{meant};
ghost use Rattle.cards.specs.Filed.{Files, pair_means};
ghost use Rattle.cards.specs.Lines.{line_in};

use super::cut::split_once;
use super::line::{read_key, read_value};
use keys::key::Key;
use refusals::Refusal;
use store::Store;
use values::value::Value;

// A line: a key, a space and a value. The key is judged first.
// By a function: a pair of other crates' types cannot have a `TryFrom` here.
pub fn read_line(line: &[u8]) -> Result<(Key, Value), Refusal>
    ensures { meant pair_means result ≡ line_in line.now }
{
    let Some((key, value)) = split_once(line, b' ') else {
        let _ = read_key(line)?;
        return Err(Refusal::BadValue);
    };
    Ok((read_key(key)?, read_value(value)?))
}

// Sets in a store what a line says.
pub fn file_line<S: Store>(store: &mut S, line: &[u8]) -> Result<(), Refusal>
    ensures names { Files (S.Store.capacity store.old) (line_in line.now) (S.Store.names store.old) (S.Store.names store.new) result }
    ensures capacity { S.Store.capacity store.new ≡ S.Store.capacity store.old }
{
    let (key, value) = read_line(line)?;
    store.put(&key, &value)
}
