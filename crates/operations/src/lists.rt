// Sequences.
ghost use Rattle.std.specs.Prelude.{◌≡◌, ◌+◌, ◌-◌, ◌*◌, ◌/◌, ◌<◌, ◌≤◌, ◌≢◌, ◌^◌, min, pos};
ghost use Rattle.std.specs.Int.{abs_diff};
ghost use Rattle.operations.specs.Functions.{SequenceIfOnwards};
ghost use Rattle.operations.specs.Laws.{SequenceArrives};

use refusals::Refusal;
use values::element::Element;
use values::value::Value;

// The elements of a sequence first,second,...,last. (Nothing is said of numbers that reading lets through in no template.) What is promised
// beyond that is the law of sequences.
#[tactic(auto, using(crate::proofs::Sequences::sequence_arrives))]
pub fn sequence(first: u64, second: u64, last: u64) -> Result<Value, Refusal>
    ensures answer { SequenceIfOnwards first second last result }
    ensures arrives { SequenceArrives }
{
    let mut value = Value::new();
    for i in 0..sequence_length(first, second, last) {
        value.push(Element::Number(sequence_number(first, second, i)))?;
    }
    Ok(value)
}

// How many elements a sequence has.
fn sequence_length(first: u64, second: u64, last: u64) -> u64
    ensures { first ≢ second → result ≡ min (2 + abs_diff second last / abs_diff first second) (2 ^ 64 - 1) }
{
    let times = second.abs_diff(last).checked_div(first.abs_diff(second));
    times.map_or(0, |k| k.saturating_add(2))
}

// Its number at an index from 0. Where numbers are too high for a sequence, they stop at the highest.
fn sequence_number(first: u64, second: u64, i: u64) -> i64
    ensures up { first < second → result ≡ pos (min (first + i * (second - first)) (2 ^ 63 - 1)) }
    ensures down { second ≤ first → result ≡ pos (min (first - i * (first - second)) (2 ^ 63 - 1)) }
{
    let n = if first < second {
        first.saturating_add(i.saturating_mul(second - first))
    } else {
        first.saturating_sub(i.saturating_mul(first - second))
    };
    i64::try_from(n).unwrap_or(i64::MAX)
}
