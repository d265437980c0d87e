// A board of ROWS rows of 32 bytes, filled row by row.
ghost use Rattle.std.specs.Prelude.{◌≡◌, ◌*◌, ◌<◌, ◌≤◌, true, [], length, MatchOption, nat_le};
ghost use Rattle.refusals.specs.Refusals.{answered, meant};
ghost use Rattle.refusals.specs.declared.Refusal.TheVariants.{OutOfRange};
ghost use Rattle.std.proofs.Props.{props};
ghost use Rattle.papers.specs.Rows.{Wide, written, row_of, short};

use printer::{MOST_BYTES, Printer};
use refusals::Refusal;

// How many bytes a row has.
const ROW: usize = 32;

// The bytes taken are the first `len`; the others hold anything.
// No model, as of a roll. A length beside the rows: the memory is fixed, and no length of an array is computed from ROWS.
#[derive(Drop)]
pub struct Board<const ROWS: usize> {
    rows: [[u8; ROW]; ROWS],
    len: usize,
    ghost wide: { Wide rows } by { Prim.hlevel props },
    ghost sized: { length rows ≡ ROWS },
    ghost within: { len ≤ 32 * ROWS },
    ghost lawful: { 32 * ROWS ≤ 16384 },
}

impl<const ROWS: usize> Board<ROWS> {
    // An empty board; refused with 1 exactly where its rows have over 16,384 bytes.
    pub fn new() -> Result<Self, Refusal>
        ensures { meant (λ s. written s.len s.rows) result ≡ answered (nat_le (32 * ROWS) 16384) [] OutOfRange }
    {
        if ROWS > MOST_BYTES / ROW {
            return Err(Refusal::OutOfRange);
        }
        Ok(Board {
            rows: [[0; ROW]; ROWS],
            len: 0,
        })
    }

    // The bytes taken that stand in a row; nothing where there is no such row.
    #[tactic(auto, using(crate::proofs::Flat::row_at))]
    pub fn row(&self, at: usize) -> Option<&[u8]>
        ensures { MatchOption result (ROWS ≤ at) (λ s. (at < ROWS) × (s.now ≡ row_of (written self.now.len self.now.rows) at)) }
    {
        let row = self.rows.get(at)?;
        let used = self.len.saturating_sub(ROW * at).min(ROW);
        Some(&row[..used])
    }
}

#[tactic(auto, using(crate::proofs::Flat::length_written, crate::proofs::Flat::written_more))]
impl<const ROWS: usize> Printer for Board<ROWS> {
    ghost taken = { λ s. written s.len s.rows };

    ghost capacity = { λ _. 32 * ROWS };

    ghost settled = { λ _. true };

    ghost within = { λ s. short (32 * ROWS) s.rows s.within };

    ghost lawful = { λ s. s.lawful };

    fn put(&mut self, byte: u8) -> Result<(), Refusal> {
        if self.len == self.capacity() {
            return Err(Refusal::PaperFull);
        }
        self.rows[self.len / ROW][self.len % ROW] = byte;
        self.len += 1;
        Ok(())
    }

    fn settle(&mut self) {}

    fn tear(&mut self) {
        self.len = 0;
    }

    fn len(&self) -> usize {
        self.len
    }

    fn capacity(&self) -> usize {
        ROW * ROWS
    }
}
