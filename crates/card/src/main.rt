// Prints a customer's card: reads `NAME VALUE` lines, files them, and prints them in key order.
#![tactic(auto)]

ghost use Rattle.std.specs.Prelude.{◌++◌, Some, codes, decimal};
ghost use Rattle.refusals.specs.Refusals.{report_of};

use anyhow::ensure;
use cards::file::file_line;
use index::Index;
use lines::Lines;
use listings::print_card;
use papers::board::Board;
use papers::roll::Roll;
use printer::Printer;
use refusals::Refusal;
use sheet::Sheet;
use std::alloc::{AllocError, Global};
use std::fmt;
use std::io::Read;
use store::{Store, count_names};

// A line that was refused.
#[derive(Clone, Copy)]
struct Bad {
    line: u64,
    refusal: Refusal,
}

impl fmt::Display for Bad {
    ghost output = { λ b. Some (codes "line " ++ decimal b.line ++ codes ": " ++ report_of b.refusal) };

    fn fmt<W: fmt::Write>(&self, f: &mut fmt::Formatter<W>) -> fmt::Result {
        write!(f, "line {}: {}", self.line, self.refusal)
    }
}

// Files a whole card, and answers the lines that were refused. The byte 13 that may end a line is no part of it.
// An empty line says nothing, and a refused one changes nothing.
fn take_card<S: Store>(heap: Global, store: &mut S, card: &[u8]) -> Result<Vec<Bad>, AllocError> {
    let mut bad = Vec::new(heap);
    for (i, line) in card.split(|b| *b == b'\n').enumerate() {
        let line = line.strip_suffix(b"\r").unwrap_or(line);
        if line.is_empty() {
            continue;
        }
        if let Err(refusal) = file_line(store, line) {
            let line = (i as u64).saturating_add(1);
            bad.push(Bad { line, refusal })?;
        }
    }
    Ok(bad)
}

// Whether a board shows just those bytes.
fn shows(board: &Board<128>, bytes: &[u8]) -> bool {
    (0..128)
        .filter_map(|at| board.row(at))
        .flatten()
        .eq(bytes.iter())
}

fn run(rt: &HostRuntime) -> anyhow::Result<()> {
    let mut card = Vec::new(rt.alloc());
    rt.stdin().read_to_end(&mut card)?;

    // the customer's copy: from an index, through the line layer, on a roll
    let mut index = Index::<32>::new()?;
    let bad = take_card(rt.alloc(), &mut index, &card)?;
    let mut paper = Lines::new(Roll::<4096>::new()?);
    let printed = print_card(&index, index.rows(), &mut paper);
    paper.settle();

    // the shop's copy: from a sheet, on a board
    let mut sheet = Sheet::<32>::new()?;
    let _ = take_card(rt.alloc(), &mut sheet, &card)?;
    let mut board = Board::<128>::new()?;
    let _ = print_card(&sheet, index.rows(), &mut board);

    for line in &bad {
        println!(rt; "{line}")?;
    }
    let roll = paper.into_below();
    rt.write_all(roll.bytes())?;
    if let Err(refusal) = printed {
        println!(rt; "\n{refusal}")?;
    }
    ensure!(shows(&board, roll.bytes()), "the shop's copy differs");
    let names = count_names(&index);
    let length = roll.len();
    println!(rt; "done names={names} paper={length}")?;
    Ok(())
}

fn main(rt: HostRuntime) -> anyhow::Result<()> {
    run(&rt)
}
