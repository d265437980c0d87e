// Reads instructions without a block: expressions that are shown, and assignments.
ghost use Rattle.std.specs.Prelude.{◌≡◌, ◌+◌, ◌-◌, ◌^◌, ◌<◌, ◌≤◌, ◌≢◌};
ghost use Rattle.reader.specs.Tables.{pushed};
ghost use Rattle.reader.specs.States.{Tabled};
ghost use Rattle.reader.specs.Scans.{start_at, after_at, Ready};
ghost use Rattle.reader.specs.Reads.{Solid};
ghost use Rattle.reader.specs.Statements.{assigns_at, Finished, Completed, Simply, shown_at, named_at, keyed_at, Continues, Shows, Assigns, AtName, AtNode, AtEquals, Nameable};

use crate::cursor::{Cursor, Follow, Inside};
use crate::expression::{Context, LONGEST_NAME, Operand};
use refusals::fault::Fault;
use tokens::byte::{After, Start};
use tokens::operator::Half;
use trees::{Node, Span};

// An instruction without a block: the place of its `$`, and where in the table its node is to stand.
#[derive(Clone, Copy, PartialEq, Eq, Debug)]
pub struct Statement {
    pub place: usize,
    pub at: usize,
}

impl Cursor<'_> {
    // A node that holds the place of an instruction's own: where it stands.
    pub(crate) fn reserve(&mut self) -> usize
        requires { self.old.table.len + 1 < 2 ^ 64 }
        ensures at { result ≡ self.old.table.len }
        ensures held { Tabled self.old (pushed self.old.table Node.End) self.new }
    {
        let at = self.table.len;
        self.table.push(Node::End);
        at
    }

    // How many nodes stand behind the one at `at`.
    pub(crate) fn nodes_behind(&self, at: usize) -> usize
        requires { at < self.now.table.len }
        ensures { result ≡ self.now.table.len - at - 1 }
    {
        self.table.len - at - 1
    }

    // An instruction begins, whose `$` is at `place`.
    fn begin(&mut self, place: usize) -> Statement
        requires { self.old.table.len + 1 < 2 ^ 64 }
        ensures begun { result ≡ record { place = place; at = self.old.table.len } }
        ensures held { Tabled self.old (pushed self.old.table Node.End) self.new }
    {
        let at = self.reserve();
        Statement { place, at }
    }

    // Passes the `$` that closes an instruction behind its expression.
    pub(crate) fn finish(&mut self) -> Result<(), Fault>
        requires { Ready self.old }
        ensures { Finished self.old.text.now self.old result self.new }
    {
        let After::Dollar = self.after() else {
            return Err(self.unexpected());
        };
        self.take()
    }

    // Passes blanks and the `$` that closes a complete instruction.
    pub(crate) fn complete(&mut self) -> Result<(), Fault>
        requires { Ready self.old }
        ensures { Completed self.old.text.now self.old result self.new }
    {
        self.blanks();
        let After::Dollar = self.after() else {
            return Err(self.refuse());
        };
        self.take()
    }

    // Whether the `=` of an assignment stands here.
    fn is_assignment(&self) -> bool
        ensures { result ≡ assigns_at self.now.text.now self.now.pos }
    {
        matches!(self.after(), After::Double(Half::Equals)) && !matches!(self.second(), Some(b'='))
    }

    // An expression that begins with no word, in the instruction whose `$` is at `place`: the stack that it needs.
    pub(crate) fn shown(&mut self, place: usize) -> Result<usize, Fault>
        requires { (Ready self.old) × ((self.old.table.len + 1 ≤ self.old.pos) × ((place < self.old.pos) × ((Solid self.old.text.now self.old.pos) × ((start_at self.old.text.now self.old.pos ≢ Start.Letter))))) }
        ensures { Simply self.old.text.now place (shown_at place) self.old result self.new }
    {
        let statement = self.begin(place);
        let operand = self.operators(Context::outermost(Inside::Top), 1)?;
        self.show(statement, operand.need)
    }

    // An instruction that begins with the name: a key, a target or a function.
    // No struct of `place` and `name`: the one is the instruction's, the other goes to the first operand or the target.
    pub(crate) fn keyed(&mut self, place: usize, name: Span) -> Result<usize, Fault>
        requires { (AtName place name.«from» name.to self.old) × ((name.to ≡ self.old.pos) × (Nameable self.old.text.now name.«from» name.to)) }
        ensures { Simply self.old.text.now place (keyed_at self.old.text.now place name.«from» name.to) self.old result self.new }
    {
        self.check_length(
            Follow::Name(Inside::Top),
            name.from,
            name.to - name.from,
            LONGEST_NAME,
        )?;
        self.blanks();
        match self.after() {
            After::Square => self.indexed(place, name),
            After::Round => self.called(place, name),
            _ => self.named(place, name),
        }
    }

    // An expression that begins with a call, at its `(`.
    fn called(&mut self, place: usize, name: Span) -> Result<usize, Fault>
        requires { (AtName place name.«from» name.to self.old) × (after_at self.old.text.now self.old.pos ≡ After.Round) }
        ensures { Simply self.old.text.now place (named_at self.old.text.now place name.«from» name.to) self.old result self.new }
    {
        let statement = self.begin(place);
        let operand = self.call(name, Context::outermost(Inside::Top))?;
        self.continued(statement, operand)
    }

    // A key without a subscript, or such a target.
    fn named(&mut self, place: usize, name: Span) -> Result<usize, Fault>
        requires { (AtName place name.«from» name.to self.old) × ((Solid self.old.text.now self.old.pos) × (((after_at self.old.text.now self.old.pos ≢ After.Round)) × ((after_at self.old.text.now self.old.pos ≢ After.Square)))) }
        ensures { Simply self.old.text.now place (named_at self.old.text.now place name.«from» name.to) self.old result self.new }
    {
        let statement = self.begin(place);
        if self.is_assignment() {
            return self.assigned(statement, name, 0);
        }
        self.table.push(Node::Name {
            span: name.narrow(),
        });
        self.continued(statement, Operand::computed(1))
    }

    // A key with a subscript, or such a target, at its `[`.
    fn indexed(&mut self, place: usize, name: Span) -> Result<usize, Fault>
        requires { (AtName place name.«from» name.to self.old) × (after_at self.old.text.now self.old.pos ≡ After.Square) }
        ensures { Simply self.old.text.now place (named_at self.old.text.now place name.«from» name.to) self.old result self.new }
    {
        let statement = self.begin(place);
        let need = self.subscript(Context::outermost(Inside::Top))?;
        self.blanks();
        if self.is_assignment() {
            let subscript = self.nodes_behind(statement.at);
            let right = self.assigned(statement, name, subscript)?;
            return Ok(right.max(need + 1));
        }
        self.table.push(Node::Index {
            span: name.narrow(),
        });
        self.continued(statement, Operand::computed(need))
    }

    // An expression whose first operand is read.
    fn continued(&mut self, statement: Statement, first: Operand) -> Result<usize, Fault>
        requires { AtNode statement self.old }
        ensures { Continues self.old.text.now statement first self.old result self.new }
    {
        self.blanks();
        let operand = self.tail(Context::outermost(Inside::Top), 1, first)?;
        self.show(statement, operand.need)
    }

    // The end of an expression that is to be shown: its node is put in.
    fn show(&mut self, statement: Statement, need: usize) -> Result<usize, Fault>
        requires { AtNode statement self.old }
        ensures { Shows self.old.text.now statement need self.old result self.new }
    {
        self.finish()?;
        let size = self.nodes_behind(statement.at) as u16;
        self.table.patch(
            statement.at,
            Node::Show {
                place: statement.place as u16,
                size,
            },
        );
        Ok(need)
    }

    // The right side of an assignment, at its `=`, behind `subscript` nodes of its target: the stack that the right side needs.
    fn assigned(
        &mut self,
        statement: Statement,
        name: Span,
        subscript: usize,
    ) -> Result<usize, Fault>
        requires { AtEquals statement name.«from» name.to subscript self.old }
        ensures { Assigns self.old.text.now statement name.«from» name.to subscript self.old result self.new }
    {
        self.pass();
        let operand = self.operators(Context::outermost(Inside::Top), 1)?;
        self.finish()?;
        let right = (self.nodes_behind(statement.at) - subscript) as u16;
        self.table.patch(
            statement.at,
            Node::Assign {
                place: statement.place as u16,
                name: name.narrow(),
                subscript: subscript as u16,
                right,
            },
        );
        Ok(operand.need)
    }
}
