// Keys with a total order, the one search by halving over rows that are sorted by key, and tables of names.
#![tactic(auto)]

ghost use Rattle.std.specs.Prelude.{◌≡◌};
ghost use Rattle.order.specs.Orders.{Order, Total, Located};

use std::cmp::Ordering;

pub mod table;
pub mod words;

// A key that can be compared: what the key means, and the total order of the meanings by which it compares.
pub trait Ordered {
    ghost Means: { Type 0 };

    ghost means: { Self → Means };

    ghost order: { Order Means };

    fn compare(&self, other: &Self) -> Ordering
        ensures { result ≡ order.rank (means self.now) (means other.now) };
}

// A key whose `Ord` is the order that is meant, so that it compares by `<`, `==` and `cmp` as by `compare`.
pub trait Ranked: Ordered + Ord {
    // What each `impl` must prove.
    ghost ranks: { (x y : Self) → Self.cmp x y ≡ Self.Ordered.order.rank (Self.Ordered.means x) (Self.Ordered.means y) };
}

// A row that is found by its key. A trait, since a closure that gives the key would ask something of the caller.
pub trait Row {
    type Key: Ordered;

    ghost keyed: { Self → Self.Key };

    fn key(&self) -> &Self::Key
        ensures { result.now ≡ keyed self.now };
}

// Halves the rows: `Ok` with the place of a row that has the key, or `Err` with the place where it would go.
// Of rows that are not sorted, an `Err` says only that its place is no further than the rows' end.
pub fn search<R: Row>(rows: &[R], key: &R::Key) -> Result<usize, usize>
    ensures { Located R.Key.Ordered.order (λ (x : R). R.Key.Ordered.means (R.Row.keyed x)) rows.now (R.Key.Ordered.means key.now) result }
{
    // not the library's search, which compares on after it has met the key
    let mut low = 0;
    let mut high = rows.len();
    while low < high {
        let mid = low + (high - low) / 2;
        let found = rows[mid].key().compare(key);
        if found.is_eq() {
            return Ok(mid);
        }
        // a choice and no branch: which half it is cannot be foretold
        (low, high) = if found.is_lt() {
            (mid + 1, high)
        } else {
            (low, mid)
        };
    }
    Err(low)
}

// Compares two keys. What is promised beyond the answer is why every such order is total.
pub fn compare_total<K: Ordered>(a: &K, b: &K) -> Ordering
    ensures answer { result ≡ K.Ordered.order.rank (K.Ordered.means a.now) (K.Ordered.means b.now) }
    ensures total { Total K.Ordered.order }
{
    a.compare(b)
}
