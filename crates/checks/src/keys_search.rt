// The search over keys that compare by `Ordered` alone, without the library's `Ord`.
ghost use Rattle.std.specs.Prelude.{ℕ};
ghost use Rattle.std.specs.Cmp.{nat_cmp_total};
ghost use Rattle.order.specs.Made.{from_total, unsigned_apart};

use order::{Ordered, Row, compare_total, search};
use std::cmp::Ordering;
use std::test::Fail;

// A price in cents, which is its own key.
#[derive(Drop)]
struct Price {
    cents: u64,
}

impl Ordered for Price {
    ghost Means = { ℕ };

    ghost means = { λ price. price.cents };

    ghost order = { from_total nat_cmp_total unsigned_apart };

    fn compare(&self, other: &Price) -> Ordering {
        self.cents.cmp(&other.cents)
    }
}

impl Row for Price {
    type Key = Price;

    ghost keyed = { λ price. price };

    fn key(&self) -> &Price {
        self
    }
}

#[test]
fn prices_are_searched(rt: HostRuntime) -> Result<(), Fail> {
    let rows = [
        Price { cents: 110 },
        Price { cents: 220 },
        Price { cents: 345 },
        Price { cents: 900 },
        Price { cents: 1250 },
    ];
    for (at, row) in rows.iter().enumerate() {
        assert_eq!(rt; search(&rows, row), Ok(at));
    }
    assert_eq!(rt; search(&rows, &Price { cents: 0 }), Err(0));
    assert_eq!(rt; search(&rows, &Price { cents: 344 }), Err(2));
    assert_eq!(rt; search(&rows, &Price { cents: 1251 }), Err(5));
    assert_eq!(rt; compare_total(&rows[0], &rows[1]), Ordering::Less);
    Ok(())
}
