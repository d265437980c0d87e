// Where bytes are cut.
ghost use Rattle.std.specs.Option.{MatchOption};
ghost use Rattle.cards.specs.Cuts.{NotThere, Cut, Parts};

// The place of the first byte of a kind.
pub fn find(bytes: &[u8], b: u8) -> Option<usize>
    ensures { MatchOption result (NotThere b bytes.now) (λ i. Cut b bytes.now i) }
{
    bytes.iter().position(|x| *x == b)
}

// What stands before and behind the first byte of a kind.
pub(crate) fn split_once(bytes: &[u8], b: u8) -> Option<(&[u8], &[u8])>
    ensures { MatchOption result (NotThere b bytes.now) (λ p. Parts b bytes.now p.0.now p.1.now) }
{
    let at = find(bytes, b)?;
    Some((&bytes[..at], &bytes[at + 1..]))
}
