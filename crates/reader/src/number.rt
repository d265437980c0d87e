// The value of a number constant.
ghost use Rattle.std.specs.Prelude.{◌≡◌, ℕ, ◌+◌, ◌*◌, ◌<◌, ◌≤◌};
ghost use Rattle.reader.specs.Scans.{capped};

// The largest number constant, 2^63 - 1.
const MOST: u64 = i64::MAX as u64;

// The number with one digit more, unless it is past the limit.
pub(crate) fn appended(value: Option<u64>, base: u8, digit: u8) -> Option<u64>
    requires { (digit < base) × (base ≤ 16) }
    ensures { (v : ℕ) → value ≡ capped v → result ≡ capped (base * v + digit) }
{
    u64::from(base)
        .checked_mul(value?)?
        .checked_add(u64::from(digit))
        .filter(|next| *next <= MOST)
}
