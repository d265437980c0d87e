// Reads the instructions of blocks: their conditions, names and delimiters.
ghost use Rattle.std.specs.Prelude.{◌+◌, ◌≤◌};
ghost use Rattle.reader.specs.Scans.{Ready};
ghost use Rattle.reader.specs.Heads.{Named, Conditioned, Tested, Headed, Delimited, AtWord};

use crate::cursor::{Cursor, Follow, Inside};
use crate::expression::{Context, LONGEST_CONSTANT};
use refusals::fault::Fault;
use tokens::byte::{After, Start};
use trees::{Quote, Span};

// The expression of a block's instruction: where the instruction's own node is to stand, how many nodes the expression has, and the stack
// that it needs.
#[derive(Clone, Copy, PartialEq, Eq, Debug)]
pub struct Condition {
    pub at: usize,
    pub size: u16,
    pub need: usize,
}

impl Cursor<'_> {
    // The expression of an instruction up to what ends it. A node holds the place of the instruction's own.
    fn condition(&mut self, inside: Inside) -> Result<Condition, Fault>
        requires { (Ready self.old) × (self.old.table.len + 1 ≤ self.old.pos) }
        ensures { Conditioned self.old.text.now inside self.old result self.new }
    {
        let at = self.reserve();
        let operand = self.operators(Context::outermost(inside), 1)?;
        Ok(Condition {
            at,
            size: self.nodes_behind(at) as u16,
            need: operand.need,
        })
    }

    // The test of an IF, WHILE or ELIF, behind its word, with the `$` behind it.
    pub(crate) fn test(&mut self) -> Result<Condition, Fault>
        requires { (Ready self.old) × (self.old.table.len + 1 ≤ self.old.pos) }
        ensures { Tested self.old.text.now self.old result self.new }
    {
        let condition = self.condition(Inside::Top)?;
        self.finish()?;
        Ok(condition)
    }

    // The name of a FOREACH or JOINEACH and its expression, behind its word.
    pub(crate) fn loop_head(&mut self, inside: Inside) -> Result<(Span, Condition), Fault>
        requires { (Ready self.old) × ((AtWord self.old.text.now self.old.pos) × (self.old.table.len + 1 ≤ self.old.pos)) }
        ensures { Headed self.old.text.now inside self.old result self.new }
    {
        let name = self.loop_name()?;
        let list = self.condition(inside)?;
        Ok((name, list))
    }

    // The name of a loop, behind its word.
    fn loop_name(&mut self) -> Result<Span, Fault>
        requires { (Ready self.old) × (AtWord self.old.text.now self.old.pos) }
        ensures { Named self.old.text.now self.old result self.new }
    {
        self.blanks();
        let Start::Letter = self.start() else {
            return Err(self.refuse());
        };
        self.free_name(Follow::Begin)
    }

    // The delimiter of a JOINEACH behind its expression, up to the `$`.
    pub(crate) fn delimiter(&mut self) -> Result<Quote, Fault>
        requires { Ready self.old }
        ensures { Delimited self.old.text.now self.old result self.new }
    {
        let After::Quote = self.after() else {
            return Err(self.unexpected());
        };
        let quote = self.quote()?;
        self.check_length(
            Follow::Complete,
            quote.span.from,
            quote.bytes,
            LONGEST_CONSTANT,
        )?;
        self.complete()?;
        Ok(quote)
    }
}
