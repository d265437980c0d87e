// Numbers in base ten, read.
ghost use Rattle.std.specs.Prelude.{◌≡◌, ◌^◌, ◌<◌, true, SomeIff};
ghost use Rattle.numbers.specs.Numbers.{digits, read_on, unsigned, numeral, read_number, ReadsWhatIsWritten};

use refusals::Refusal;

// What stands behind a sign, if there is one.
fn after_sign(bytes: &[u8]) -> &[u8]
    ensures { result.now ≡ unsigned bytes.now }
{
    match bytes {
        [b'-' | b'+', behind @ ..] => behind,
        _ => bytes,
    }
}

// Whether the bytes are an optional sign and at least one decimal digit.
pub fn is_numeral(bytes: &[u8]) -> bool
    ensures { result ≡ numeral bytes.now }
{
    let digits = after_sign(bytes);
    !digits.is_empty() && digits.iter().all(u8::is_ascii_digit)
}

// The number that digits write, if it has 64 bits.
fn magnitude(bytes: &[u8]) -> Option<u64>
    requires { digits bytes.now ≡ true }
    ensures { SomeIff result (read_on 0 bytes.now < 2 ^ 64) (read_on 0 bytes.now) }
{
    let mut n: u64 = 0;
    for b in bytes {
        n = n.checked_mul(10)?.checked_add(u64::from(*b - b'0'))?;
    }
    Some(n)
}

// Reads a number from an optional sign and decimal digits; other bytes are 16, and a number outside 64 bits is 11.
// By a function: an i64 cannot have a `TryFrom` of bytes here.
// Not by `parse`: it wants text, and to see that bytes are text takes as long as to read their digits.
#[tactic(auto, using(crate::proofs::Digits::reads_back))]
pub fn read_number(bytes: &[u8]) -> Result<i64, Refusal>
    ensures answer { result ≡ read_number bytes.now }
    ensures back { ReadsWhatIsWritten }
{
    if !is_numeral(bytes) {
        return Err(Refusal::NotDigits);
    }
    let n = magnitude(after_sign(bytes)).ok_or(Refusal::Overflow)?;
    let signed = if bytes.starts_with(b"-") {
        0i64.checked_sub_unsigned(n)
    } else {
        i64::try_from(n).ok()
    };
    signed.ok_or(Refusal::Overflow)
}
