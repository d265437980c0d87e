// Tries the templates of a table, with the paper and the report that have to come of each, and tells where another comes.
//
// A line of the table is TEMPLATE, a tab, PAPER, a tab, REPORT, the first two with the escapes of the crate `escapes`. Empty lines and
// lines that begin with # are passed over. A line `@steps N` gives the next template N steps in place of 10,000.
#![tactic(auto)]

use bench::{Counts, try_on};
use index::Index;
use lines::Lines;
use papers::board::Board;
use papers::roll::Roll;
use refusals::fault::Fault;
use sheet::Sheet;
use std::alloc::{AllocError, Global};
use std::io::Read;

// The most steps of a print, where no line says otherwise.
const STEPS: u32 = 10_000;

// What comes of a template, as a line of the table has it: the bytes of the paper, a tab and the report.
fn written(
    heap: Global,
    paper: &[u8],
    answer: Result<Counts, Fault>,
) -> Result<Vec<u8>, AllocError> {
    let mut line = Vec::new(heap);
    for b in paper {
        line.extend_from_slice(escapes::write(*b).as_slice())?;
    }
    let report = match answer {
        Ok(counts) => format!(in heap; "\t{counts}")?,
        Err(fault) => format!(in heap; "\t{fault}")?,
    };
    line.extend_from_slice(report.as_bytes())?;
    Ok(line)
}

// What comes of a template with an index and, through the line layer, a roll.
fn try_on_roll(heap: Global, text: &[u8], steps: u32) -> anyhow::Result<Vec<u8>> {
    let mut index = Index::<32>::new()?;
    let mut paper = Lines::new(Roll::<4096>::new()?);
    let answer = try_on(text, steps, &mut index, &mut paper);
    Ok(written(heap, paper.into_below().bytes(), answer)?)
}

// What comes of a template with a sheet and a board.
fn try_on_board(heap: Global, text: &[u8], steps: u32) -> anyhow::Result<Vec<u8>> {
    let mut sheet = Sheet::<32>::new()?;
    let mut board = Board::<128>::new()?;
    let answer = try_on(text, steps, &mut sheet, &mut board);
    let mut bytes = Vec::new(heap);
    for row in (0..128).filter_map(|at| board.row(at)) {
        bytes.extend_from_slice(row)?;
    }
    Ok(written(heap, &bytes, answer)?)
}

// A line of the table.
#[derive(Clone, Copy)]
enum Line<'a> {
    Nothing,
    Steps(&'a [u8]),
    Case(&'a [u8]),
}

fn line_of(line: &[u8]) -> Line<'_> {
    if let Some(digits) = line.strip_prefix(b"@steps ") {
        return Line::Steps(digits);
    }
    match line {
        [] | [b'#', ..] => Line::Nothing,
        _ => Line::Case(line),
    }
}

// The number that a `@steps` line gives.
fn steps_of(digits: &[u8]) -> Option<u32> {
    str::from_utf8(digits).ok()?.parse().ok()
}

// What a case of the table says: a template, as it is written, and what has to come of it.
fn parts_of(case: &[u8]) -> Option<(&[u8], &[u8])> {
    let mut parts = case.splitn(2, |b| *b == b'\t');
    Some((parts.next()?, parts.next()?))
}

// The template that is written with escapes.
fn template_of(heap: Global, written: &[u8]) -> Result<Option<Vec<u8>>, AllocError> {
    let mut text = Vec::from_slice(heap, written)?;
    let Ok(len) = escapes::read(&mut text) else {
        return Ok(None);
    };
    text.truncate(len);
    Ok(Some(text))
}

// Writes a line: what it is called, and the bytes.
fn tell(rt: &HostRuntime, name: &[u8], line: &[u8]) -> anyhow::Result<()> {
    rt.write_all(name)?;
    rt.write_all(line)?;
    rt.write_all(b"\n")?;
    Ok(())
}

// What a line before says of the next template's steps, and what is counted so far.
#[derive(Drop)]
struct Tally {
    steps: Option<u32>,
    templates: u64,
    differ: u64,
}

impl Tally {
    // Counts a line that differs or cannot be read, and tells of it by its number.
    fn report(&mut self, rt: &HostRuntime, number: u64, what: &[u8]) -> anyhow::Result<()> {
        self.differ = self.differ.saturating_add(1);
        print!(rt; "line {number}: ")?;
        tell(rt, b"", what)
    }

    // Tries the template of a case on both makes, and tells where it differs.
    fn judge(&mut self, rt: &HostRuntime, number: u64, case: &[u8]) -> anyhow::Result<()> {
        let steps = self.steps.take().unwrap_or(STEPS);
        let Some((template, expected)) = parts_of(case) else {
            return self.report(rt, number, b"no tab");
        };
        let Some(text) = template_of(rt.alloc(), template)? else {
            return self.report(rt, number, b"bad escape");
        };
        let on_roll = try_on_roll(rt.alloc(), &text, steps)?;
        let on_board = try_on_board(rt.alloc(), &text, steps)?;
        if on_roll.as_slice() != expected || on_board.as_slice() != expected {
            self.report(rt, number, template)?;
            tell(rt, b"  expected        ", expected)?;
            tell(rt, b"  index and roll  ", &on_roll)?;
            tell(rt, b"  sheet and board ", &on_board)?;
        }
        Ok(())
    }

    // Takes a line of the table.
    fn take_line(&mut self, rt: &HostRuntime, number: u64, line: &[u8]) -> anyhow::Result<()> {
        match line_of(line) {
            Line::Nothing => {}
            Line::Steps(digits) => {
                self.steps = steps_of(digits);
                if self.steps.is_none() {
                    self.report(rt, number, b"bad steps")?;
                }
            }
            Line::Case(case) => {
                self.templates = self.templates.saturating_add(1);
                self.judge(rt, number, case)?;
            }
        }
        Ok(())
    }
}

fn run(rt: &HostRuntime) -> anyhow::Result<()> {
    let mut table = Vec::new(rt.alloc());
    rt.stdin().read_to_end(&mut table)?;
    let mut tally = Tally {
        steps: None,
        templates: 0,
        differ: 0,
    };
    for (i, line) in table.split(|b| *b == b'\n').enumerate() {
        tally.take_line(rt, (i as u64).saturating_add(1), line)?;
    }
    let templates = tally.templates;
    let differ = tally.differ;
    println!(rt; "{templates} templates, {differ} differ")?;
    Ok(())
}

fn main(rt: HostRuntime) -> anyhow::Result<()> {
    run(&rt)
}
