// The search over rows in any order.
ghost use Rattle.keys.specs.KeyMeans.{key_means};
ghost use Rattle.sheet.specs.FreeRows.{FirstAt};

use keys::key::Key;
use store::entry::Entry;

// The place of the first row that has the key, or that none has it.
pub fn find(rows: &[Entry], key: &Key) -> Option<usize>
    ensures { FirstAt rows.now (key_means key.now) result }
{
    rows.iter().position(|row| row.key == *key)
}
