// Reads templates: from their bytes to a table of nodes, with the counts that a template needs.
#![tactic(auto)]

ghost use Rattle.std.specs.Prelude.{◌≡◌, min, take, Some};
ghost use Rattle.reader.specs.Reports.{told_of};
ghost use Rattle.grammar.specs.Laws.{OneReading, ArrivesInSteps};
ghost use Rattle.reader.specs.Answers.{Answered};
ghost use Rattle.reader.specs.Outside.{Fresh, Read};

use block::{DEEPEST, Kind, Open};
use cursor::Cursor;
use instruction::Reader;
use refusals::Refusal;
use refusals::fault::Fault;
use std::fmt;
use table::{ROOM, Table};
use trees::Node;

mod block;
mod cursor;
mod expression;
mod heads;
mod instruction;
mod number;
mod outside;
mod statement;
mod table;

// The longest template.
pub const LONGEST: usize = 4096;

// What the memory for open blocks holds before any is open.
const NO_BLOCK: Open = Open {
    kind: Kind::Repeat,
    place: 0,
    at: 0,
    head: Node::End,
    loops: 0,
};

// A template that is read.
// No model: its contracts speak of the table, which has one.
#[derive(Drop)]
pub struct Reading {
    table: Table,
    stack: usize,
}

impl Reading {
    // How many nodes the template needs.
    pub fn nodes(&self) -> usize
        ensures { result ≡ self.now.table.nodes }
    {
        self.table.nodes
    }

    // How much stack it needs.
    pub fn stack(&self) -> usize
        ensures { result ≡ self.now.stack }
    {
        self.stack
    }

    // Its nodes with the silent ones, as far as the table has room.
    pub fn slots(&self) -> &[Node]
        ensures { result.now ≡ take (min self.now.table.len 2048) self.now.table.slots }
    {
        &self.table.slots[..self.table.len.min(ROOM)]
    }
}

// What a program reports.
impl fmt::Display for Reading {
    ghost output = { λ r. Some (told_of r) };

    fn fmt<W: fmt::Write>(&self, f: &mut fmt::Formatter<W>) -> fmt::Result {
        write!(f, "nodes={} stack={}", self.nodes(), self.stack())
    }
}

// Reads a template: its nodes and what it needs, or why and where it is refused. Nothing depends on how large a till is.
// Beside the answer it promises that no text has two readings, and says when the sequences of its rules arrive.
pub fn read(text: &[u8]) -> Result<Reading, Fault>
    ensures answered { Answered text.now result }
    ensures one_reading { OneReading }
    ensures in_steps { ArrivesInSteps }
{
    if text.len() > LONGEST {
        return Err(Fault {
            refusal: Refusal::TemplateTooLong,
            place: LONGEST,
        });
    }
    let mut slots = [NO_BLOCK; DEEPEST];
    read_whole(Reader::new(text, &mut slots))
}

// The same from the beginning of a template on.
fn read_whole(mut reader: Reader<'_>) -> Result<Reading, Fault>
    requires { Fresh reader.cursor.text.now reader }
    ensures { Read reader.entry.cursor.text.now result }
{
    while reader.cursor.pos < reader.cursor.text.len() {
        reader.advance()?;
    }
    reader.finish()?;
    let Reader { cursor, stack, .. } = reader;
    let Cursor { table, .. } = cursor;
    Ok(Reading { table, stack })
}
