// Reads a table of templates with what the reader has to answer to each, and tells where its answer differs.
//
// A line of the table is TEMPLATE, a tab, EXPECTED. In TEMPLATE stand \n \t \r \\ for bytes 10, 9, 13 and 92, and \xHH for
// any byte. Empty lines and lines that begin with # are passed over. A line `@repeat N` says that in the next template what
// stands between the first \( and the \) behind it stands there N times.
#![tactic(auto)]

use reader::read;
use std::alloc::{AllocError, AllocFailed, Global};
use std::error::Error;
use std::fmt;
use std::io::Read;
use tokens::byte::digit_value;

#[cfg(test)]
mod tests;

// Why a line of the table cannot be read.
#[derive(Clone, Copy, PartialEq, Eq, Debug)]
enum Trouble {
    Memory,
    Escape,
    Repeat,
    NoTab,
}

impl From<AllocError> for Trouble {
    fn from(_: AllocError) -> Trouble {
        Trouble::Memory
    }
}

impl<T: Drop> From<AllocFailed<T>> for Trouble {
    fn from(_: AllocFailed<T>) -> Trouble {
        Trouble::Memory
    }
}

impl fmt::Display for Trouble {
    fn fmt<W: fmt::Write>(&self, f: &mut fmt::Formatter<W>) -> fmt::Result {
        f.write_str(match self {
            Trouble::Memory => "no memory",
            Trouble::Escape => "bad escape",
            Trouble::Repeat => "bad repeat",
            Trouble::NoTab => "no tab",
        })
    }
}

impl Error for Trouble {}

// Where within an escape the next byte of a line stands.
#[derive(Clone, Copy, PartialEq, Eq, Debug)]
enum Within {
    Outside,
    Backslash,
    Hex,
    SecondHex(u8),
}

// What of a template is repeated: nothing yet, what is written from a place on, or it is done.
#[derive(Clone, Copy, PartialEq, Eq, Debug)]
enum Group {
    Before,
    From(usize),
    Done,
}

// Writes what stands from a place on again, until it stands there as often as asked.
fn repeat(heap: Global, out: &mut Vec<u8>, from: usize, times: u64) -> Result<(), Trouble> {
    let tail = out.get(from..).ok_or(Trouble::Repeat)?;
    let part = Vec::from_slice(heap, tail)?;
    for _ in 1..times {
        out.extend_from_slice(&part)?;
    }
    Ok(())
}

// The template that is written in a line of the table. `times` is what a `@repeat` before it says.
fn template_of(heap: Global, written: &[u8], times: Option<u64>) -> Result<Vec<u8>, Trouble> {
    let mut out = Vec::new(heap);
    let mut within = Within::Outside;
    let mut group = Group::Before;
    for b in written {
        within = match (within, *b) {
            (Within::Outside, b'\\') => Within::Backslash,
            (Within::Outside, byte) => {
                out.push(byte)?;
                Within::Outside
            }
            (Within::Backslash, b'x') => Within::Hex,
            (Within::Backslash, b'(') => {
                let (Group::Before, Some(_)) = (group, times) else {
                    return Err(Trouble::Repeat);
                };
                group = Group::From(out.len());
                Within::Outside
            }
            (Within::Backslash, b')') => {
                let (Group::From(from), Some(n)) = (group, times) else {
                    return Err(Trouble::Repeat);
                };
                repeat(heap, &mut out, from, n)?;
                group = Group::Done;
                Within::Outside
            }
            (Within::Backslash, byte) => {
                let meant = match byte {
                    b'n' => b'\n',
                    b't' => b'\t',
                    b'r' => b'\r',
                    b'\\' => b'\\',
                    _ => return Err(Trouble::Escape),
                };
                out.push(meant)?;
                Within::Outside
            }
            (Within::Hex, byte) => Within::SecondHex(digit_value(byte).ok_or(Trouble::Escape)?),
            (Within::SecondHex(high), byte) => {
                let low = digit_value(byte).ok_or(Trouble::Escape)?;
                out.push(high.wrapping_mul(16).wrapping_add(low))?;
                Within::Outside
            }
        };
    }
    if within != Within::Outside {
        return Err(Trouble::Escape);
    }
    match (group, times) {
        (Group::Before, None) | (Group::Done, Some(_)) => Ok(out),
        _ => Err(Trouble::Repeat),
    }
}

// What the reader answers to a template, as a line without its end.
fn answer(heap: Global, template: &[u8]) -> Result<String, AllocError> {
    match read(template) {
        Ok(reading) => format!(in heap; "{reading}"),
        Err(fault) => format!(in heap; "{fault}"),
    }
}

// Runs a case of the table: nothing where the answer is the expected one, else what to say.
fn judge(heap: Global, line: &[u8], times: Option<u64>) -> Result<Option<Vec<u8>>, Trouble> {
    let mut parts = line.splitn(2, |b| *b == b'\t');
    let written = parts.next().ok_or(Trouble::NoTab)?;
    let expected = parts.next().ok_or(Trouble::NoTab)?;
    let template = template_of(heap, written, times)?;
    let got = answer(heap, &template)?.into_bytes();
    if got.as_slice() == expected {
        return Ok(None);
    }
    let mut message = Vec::from_slice(heap, b"expected ")?;
    message.extend_from_slice(expected)?;
    message.extend_from_slice(b" got ")?;
    message.extend_from_slice(&got)?;
    Ok(Some(message))
}

// How often a `@repeat` line says: a number from 1 to 10,000, in digits alone.
fn times_of(digits: &[u8]) -> Option<u64> {
    // `parse` would take it
    if digits.starts_with(b"+") {
        return None;
    }
    let n = str::from_utf8(digits).ok()?.parse().ok()?;
    Some(n).filter(|n| (1..=10_000).contains(n))
}

// A line of the table.
#[derive(Clone, Copy)]
enum Line<'a> {
    Nothing,
    Times(&'a [u8]),
    Case(&'a [u8]),
}

fn line_of(line: &[u8]) -> Line<'_> {
    if let Some(digits) = line.strip_prefix(b"@repeat ") {
        return Line::Times(digits);
    }
    match line {
        [] | [b'#', ..] => Line::Nothing,
        _ => Line::Case(line),
    }
}

// What a line before says, and what is counted so far.
#[derive(Drop)]
struct Tally {
    times: Option<u64>,
    templates: u64,
    differ: u64,
}

impl Tally {
    // Counts the line of the number among those that differ, and begins what is said of it.
    fn begin_report(&mut self, rt: &HostRuntime, number: u64) -> anyhow::Result<()> {
        self.differ = self.differ.saturating_add(1);
        print!(rt; "line {number}: ")?;
        Ok(())
    }

    // Says why the line cannot be read.
    fn report(&mut self, rt: &HostRuntime, number: u64, trouble: Trouble) -> anyhow::Result<()> {
        self.begin_report(rt, number)?;
        println!(rt; "{trouble}")?;
        Ok(())
    }

    // Takes a line of the table. One that cannot be read is reported and counts among those that differ.
    fn take_line(&mut self, rt: &HostRuntime, number: u64, line: &[u8]) -> anyhow::Result<()> {
        match line_of(line) {
            Line::Nothing => {}
            Line::Times(digits) => {
                self.times = times_of(digits);
                if self.times.is_none() {
                    self.report(rt, number, Trouble::Repeat)?;
                }
            }
            Line::Case(written) => {
                self.templates = self.templates.saturating_add(1);
                match judge(rt.alloc(), written, self.times.take()) {
                    Ok(None) => {}
                    Ok(Some(message)) => {
                        self.begin_report(rt, number)?;
                        rt.write_all(&message)?;
                        rt.write_all(b"\n")?;
                    }
                    Err(trouble) => self.report(rt, number, trouble)?,
                }
            }
        }
        Ok(())
    }
}

fn run(rt: &HostRuntime) -> anyhow::Result<()> {
    let mut table = Vec::new(rt.alloc());
    rt.stdin().read_to_end(&mut table)?;
    let mut tally = Tally {
        times: None,
        templates: 0,
        differ: 0,
    };
    for (i, line) in table.split(|b| *b == b'\n').enumerate() {
        tally.take_line(rt, (i as u64).saturating_add(1), line)?;
    }
    let templates = tally.templates;
    let differ = tally.differ;
    println!(rt; "{templates} templates, {differ} differ")?;
    Ok(())
}

fn main(rt: HostRuntime) -> anyhow::Result<()> {
    run(&rt)
}
