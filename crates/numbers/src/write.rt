// Numbers in base ten, written.
ghost use Rattle.std.specs.Prelude.{◌≡◌, ◌≤◌, length};
ghost use Rattle.std.specs.Fmt.{signed_decimal};

use super::Numeral;
use itoa::write_digits;

// A number with a minus sign where it is negative.
impl From<i64> for Numeral {
    ghost from_gives = { λ n r. r ≡ signed_decimal n };

    // Inlined, since a caller would copy what a call has just written, and wait longer for it than for a few digits.
    #[inline]
    fn from(n: i64) -> Self {
        let mut bytes = [0; 20];
        let mut start = write_digits(n.unsigned_abs(), &mut bytes, 20);
        if n < 0 {
            start -= 1;
            bytes[start] = b'-';
        }
        Numeral { bytes, start }
    }
}

impl Numeral {
    pub fn as_bytes(&self) -> &[u8]
        ensures value { result.now ≡ self.now }
        ensures short { length result.now ≤ 20 }
    {
        &self.bytes[self.start..]
    }
}
