// Reads what stands outside of instructions, and whole templates.
ghost use Rattle.std.specs.Prelude.{◌≡◌, ◌+◌, ◌^◌, ◌<◌, ◌≤◌, length};
ghost use Rattle.reader.specs.Outside.{Fresh, pieced, Emitted, Outer, Advanced, Ended};
ghost use Rattle.reader.specs.Blocks.{WithTable};

use crate::block::Open;
use crate::cursor::{Cursor, State};
use crate::instruction::Reader;
use refusals::Refusal;
use refusals::fault::Fault;
use stacks::Stack;
use tokens::byte::Class;
use trees::{Node, Span};

impl<'a> Reader<'a> {
    // At the beginning of a template, with memory for the open blocks.
    pub(crate) fn new(text: &'a [u8], slots: &'a mut [Open]) -> Reader<'a>
        requires { (length text.now ≤ 4096) × (length slots.old ≡ 12) }
        ensures { Fresh text.now result }
    {
        Reader {
            cursor: Cursor::new(text),
            blocks: Stack::new(slots),
            from: 0,
            stack: 0,
            loops: 0,
        }
    }

    // The open piece of plain text ends here.
    fn end_piece(&mut self)
        requires { self.old.cursor.table.len + 1 < 2 ^ 64 }
        ensures { WithTable self.old (pieced self.old.cursor.table self.old.«from» self.old.cursor.pos) self.new }
    {
        let span = Span {
            from: self.from,
            to: self.cursor.pos,
        };
        if span.from < span.to {
            self.cursor.push(Node::Piece {
                span: span.narrow(),
            });
        }
    }

    // What a byte outside of instructions adds, before the machine takes it.
    fn emit(&mut self, class: Class)
        requires { (self.old.cursor.table.len + 1 < 2 ^ 64) × (self.old.«from» ≤ self.old.cursor.pos) }
        ensures { Emitted self.old class self.new }
    {
        match (self.cursor.state, class) {
            (State::Plain, Class::Newline | Class::Return) => {
                self.end_piece();
                self.from = self.cursor.pos + 1;
            }
            (State::Plain, Class::Dollar) => {
                self.end_piece();
                self.from = self.cursor.pos;
            }
            (State::Line, Class::Return) => self.from = self.cursor.pos + 1,
            (State::Line, _) => self.from = self.cursor.pos,
            (State::DollarAtLine | State::Dollar, Class::Dollar) => {
                let place = self.from as u16;
                self.cursor.push(Node::Dollar { place });
                self.from = self.cursor.pos + 1;
            }
            _ => {}
        }
    }

    // A byte outside of instructions, or a whole instruction. The machine sees an instruction's first byte twice: here it tells that an
    // instruction begins, and the instruction takes it as its own.
    pub(crate) fn advance(&mut self) -> Result<(), Fault>
        requires outer { Outer self.old self.old.blocks.items }
        requires within { self.old.cursor.pos < length self.old.cursor.text.now }
        ensures { Advanced self.old self.old.blocks.items result self.new self.new.blocks.items }
    {
        let class = Class::from(self.cursor.text[self.cursor.pos]);
        self.emit(class);
        self.cursor.step(class)?;
        if self.cursor.state == State::Instruction {
            self.instruction()?;
            self.from = self.cursor.pos;
        } else {
            self.cursor.pos += 1;
        }
        Ok(())
    }

    // The template's end.
    pub(crate) fn finish(&mut self) -> Result<(), Fault>
        requires { self.old.cursor.table.len + 1 < 2 ^ 64 }
        ensures { Ended self.old.blocks.items self.old result self.new }
    {
        match self.cursor.state {
            State::Line | State::Comment => {}
            State::Plain => self.end_piece(),
            _ => return Err(self.cursor.refuse()),
        }
        match self.blocks.peek() {
            Some(block) => Err(Fault {
                refusal: Refusal::UnmatchedBlock,
                place: block.place,
            }),
            None => Ok(()),
        }
    }
}
