// Reads expressions. The functions for operators, arguments, subscripts and lists call each other in a cycle; how many brackets are left
// to open falls at each.
ghost use Rattle.std.specs.Prelude.{◌≡◌, ◌+◌, ◌≤◌, true, false, Some, None, ◌≢◌};
ghost use Rattle.tokens.specs.Operators.{level, is_short};
ghost use Rattle.grammar.specs.Machine.{want};
ghost use Rattle.reader.specs.declared.cursor.State.TheVariants.{Instruction};
ghost use Rattle.reader.specs.declared.cursor.Inside.TheVariants.{Call, Curly};
ghost use Rattle.reader.specs.States.{MovedTo, fault};
ghost use Rattle.refusals.specs.declared.Refusal.TheVariants.{NestedTooDeep};
ghost use Rattle.grammar.specs.Rules.{arrives};
ghost use Rattle.reader.specs.Scans.{start_at, after_at, token_at, width_of, Ready, Worded};
ghost use Rattle.reader.specs.Reads.{Fitting, Wanting, Did, Solid, Stopped, Tailed, Joined, Primal, Closed, Subscribed, Called, Argued, Itemed, is_comma, GroupEnded, Ended, Continued, Ellipsed, Dotted, Arrived, EndedSequence, Sequenced, Placed, Measured, FreeName};

use crate::cursor::{Cursor, Follow, Inside, Numeral};
use functions::find;
use keywords::find as find_keyword;
use refusals::Refusal;
use refusals::fault::Fault;
use tokens::byte::{After, Separator, Shape, Start};
use tokens::operator::{Op, Sign};
use trees::{Constant, Node, Span};

// What is told of an expression: the stack that it needs, and the constant, if it is nothing but one.
#[derive(Clone, Copy, PartialEq, Eq, Debug)]
pub struct Operand {
    pub need: usize,
    pub constant: Option<Constant>,
}

// How many bytes a name may have, and how many a constant.
pub(crate) const LONGEST_NAME: usize = 24;

pub(crate) const LONGEST_CONSTANT: usize = 32;

// How many brackets may stand open inside one another.
const BRACKETS: u8 = 12;

// Where an expression stands: what it stands in, and how many brackets may still open inside one another.
#[derive(Clone, Copy, PartialEq, Eq, Debug)]
pub struct Context {
    pub inside: Inside,
    pub left: u8,
}

impl Context {
    ghost use Rattle.reader.specs.Reads.{inner_of};

    // Where no bracket is open.
    pub(crate) fn outermost(inside: Inside) -> Context
        ensures { result ≡ record { inside = inside; left = 12 } }
    {
        Context {
            inside,
            left: BRACKETS,
        }
    }

    // In one bracket more, if it may open.
    fn inner(self, inside: Inside) -> Option<Context>
        ensures { result ≡ inner_of inside self }
    {
        let left = self.left.checked_sub(1)?;
        Some(Context { inside, left })
    }
}

// The arguments of a call: how many, and the stack that they need.
#[derive(Clone, Copy, PartialEq, Eq, Debug)]
pub struct Arguments {
    pub count: usize,
    pub need: usize,
}

// A group of a list: the stack that the list needs for it, and whether another group follows.
#[derive(Clone, Copy, PartialEq, Eq, Debug)]
pub struct Group {
    pub need: usize,
    pub more: bool,
}

impl Operand {
    // One that is no constant.
    pub(crate) fn computed(need: usize) -> Operand
        ensures { result ≡ record { need = need; constant = None } }
    {
        Operand {
            need,
            constant: None,
        }
    }
}

// Whether a sequence from `first` and `second` on comes to `last`.
fn arrives_at(first: u64, second: u64, last: u64) -> bool
    ensures { result ≡ arrives first second last }
{
    if first < second {
        second <= last && (last - second) % (second - first) == 0
    } else if second < first {
        last <= second && (second - last) % (first - second) == 0
    } else {
        false
    }
}

impl Cursor<'_> {
    // Passes the operator that stands here.
    fn pass_operator(&mut self, op: Op)
        requires { (Ready self.old) × (token_at self.old.text.now self.old.pos ≡ Some op) }
        ensures { MovedTo self.old (self.old.pos + width_of op) self.new }
    {
        self.pass();
        if op.is_wide() {
            self.pass();
        }
    }

    // Passes the closing sign of a bracket behind an operand.
    fn close(&mut self, shape: Shape) -> Result<(), Fault>
        requires { Ready self.old }
        ensures { Closed self.old.text.now shape self.old result self.new }
    {
        if self.after() != After::End(shape) {
            return Err(self.unexpected());
        }
        self.pass();
        Ok(())
    }

    // The bracket here is one too many.
    fn too_deep(&self) -> Fault
        ensures { result ≡ fault NestedTooDeep self.now.pos }
    {
        Fault {
            refusal: Refusal::NestedTooDeep,
            place: self.pos,
        }
    }

    // What has been read from `from` on has so many bytes: if they are too many, that falls due here.
    pub(crate) fn check_length(
        &self,
        follow: Follow,
        from: usize,
        bytes: usize,
        most: usize,
    ) -> Result<(), Fault>
        ensures { Measured follow self.now from bytes most result }
    {
        if bytes > most {
            return Err(self.late(follow, Refusal::TooLong, from));
        }
        Ok(())
    }

    // A name that is no keyword, at its first letter.
    pub(crate) fn free_name(&mut self, follow: Follow) -> Result<Span, Fault>
        requires { (Ready self.old) × (start_at self.old.text.now self.old.pos ≡ Start.Letter) }
        ensures passed { Worded self.old self.new }
        ensures name { FreeName follow self.old.pos self.new result }
    {
        let name = self.word();
        if find_keyword(&self.text[name.from..name.to]).is_some() {
            return Err(self.refuse());
        }
        self.check_length(follow, name.from, name.to - name.from, LONGEST_NAME)?;
        Ok(name)
    }

    // A number constant, at its first digit.
    fn number(&mut self, context: Context) -> Result<Operand, Fault>
        requires { (Ready self.old) × (start_at self.old.text.now self.old.pos ≡ Start.Digit) }
        ensures { Did self.old.text.now (Fitting 12 context) want self.old result self.new }
    {
        let Numeral { span, value } = self.numeral()?;
        let Some(value) = value else {
            return Err(self.late(
                Follow::Operand(context.inside),
                Refusal::BadNumber,
                span.from,
            ));
        };
        self.check_length(
            Follow::Operand(context.inside),
            span.from,
            span.to - span.from,
            LONGEST_CONSTANT,
        )?;
        self.table.push(Node::Number {
            span: span.narrow(),
            value,
        });
        Ok(Operand {
            need: 1,
            constant: Some(Constant { span, value }),
        })
    }

    // A text constant, at its first quote.
    fn quoted(&mut self, context: Context) -> Result<Operand, Fault>
        requires { (Ready self.old) × (start_at self.old.text.now self.old.pos ≡ Start.Quote) }
        ensures { Did self.old.text.now (Fitting 12 context) want self.old result self.new }
    {
        let quote = self.quote()?;
        self.check_length(
            Follow::Operand(context.inside),
            quote.span.from,
            quote.bytes,
            LONGEST_CONSTANT,
        )?;
        self.table.push(Node::Text {
            span: quote.span.narrow(),
        });
        Ok(Operand::computed(1))
    }

    // Operands and operators of the level and tighter.
    #[cycle(expression)]
    pub(crate) fn operators(&mut self, context: Context, level: u8) -> Result<Operand, Fault>
        requires { (Ready self.old) × ((1 ≤ level) × (level ≤ 11)) }
        ensures did { Did self.old.text.now (Wanting self.old.text.now self.old.pos level context) want self.old result self.new }
        ensures stops { Stopped level self.old.text.now result self.new }
    {
        let first = self.operand(context)?;
        self.blanks();
        self.tail(context, level, first)
    }

    // The operators of the level and tighter that follow the first operand, with their right sides.
    #[cycle(expression)]
    pub(crate) fn tail(
        &mut self,
        context: Context,
        level: u8,
        first: Operand,
    ) -> Result<Operand, Fault>
        requires { (Ready self.old) × ((1 ≤ level) × ((level ≤ 11) × (Solid self.old.text.now self.old.pos))) }
        ensures did { Tailed self.old.text.now level context first self.old result self.new }
        ensures stops { Stopped level self.old.text.now result self.new }
    {
        let mut operand = first;
        while let Some(op) = self.operator(level) {
            let right = if op.is_short() {
                self.short(context, op)?
            } else {
                self.long(context, op)?
            };
            operand = Operand::computed(operand.need.max(right));
        }
        Ok(operand)
    }

    // `&&` or `||` and its right side: the stack that this needs beside the left one.
    #[cycle(expression)]
    fn short(&mut self, context: Context, op: Op) -> Result<usize, Fault>
        requires { (Ready self.old) × ((token_at self.old.text.now self.old.pos ≡ Some op) × (is_short op ≡ true)) }
        ensures did { Joined self.old.text.now op context self.old result self.new }
        ensures stops { Stopped (level op + 1) self.old.text.now result self.new }
    {
        let place = self.pos as u16;
        let at = self.table.len;
        self.pass_operator(op);
        self.table.push(Node::Short { place, op, skip: 0 });
        let right = self.operators(context, op.level() + 1)?;
        self.table.push(Node::Judged { place });
        let skip = self.nodes_behind(at) as u16;
        self.table.patch(at, Node::Short { place, op, skip });
        Ok(right.need)
    }

    // Any other operator and its right side.
    #[cycle(expression)]
    fn long(&mut self, context: Context, op: Op) -> Result<usize, Fault>
        requires { (Ready self.old) × ((token_at self.old.text.now self.old.pos ≡ Some op) × (is_short op ≡ false)) }
        ensures did { Joined self.old.text.now op context self.old result self.new }
        ensures stops { Stopped (level op + 1) self.old.text.now result self.new }
    {
        let place = self.pos as u16;
        self.pass_operator(op);
        let right = self.operators(context, op.level() + 1)?;
        self.table.push(Node::Binary { place, op });
        Ok(right.need + 1)
    }

    // A primary, with a sign or without.
    #[cycle(expression)]
    fn operand(&mut self, context: Context) -> Result<Operand, Fault>
        requires { Ready self.old }
        ensures { Did self.old.text.now (Wanting self.old.text.now self.old.pos 11 context) want self.old result self.new }
    {
        self.blanks();
        match self.start() {
            Start::Sign(sign) => self.signed(context, sign),
            _ => self.primary(context),
        }
    }

    #[cycle(expression)]
    fn signed(&mut self, context: Context, sign: Sign) -> Result<Operand, Fault>
        requires { (Ready self.old) × (start_at self.old.text.now self.old.pos ≡ Start.Sign sign) }
        ensures { Did self.old.text.now (Fitting 11 context) want self.old result self.new }
    {
        let place = self.pos as u16;
        self.pass();
        self.blanks();
        if matches!(self.start(), Start::Sign(_)) {
            return Err(self.refuse());
        }
        let operand = self.primary(context)?;
        self.table.push(Node::Signed { place, sign });
        Ok(Operand::computed(operand.need))
    }

    #[cycle(expression)]
    fn primary(&mut self, context: Context) -> Result<Operand, Fault>
        requires { (Ready self.old) × (Primal (start_at self.old.text.now self.old.pos)) }
        ensures { Did self.old.text.now (Wanting self.old.text.now self.old.pos 12 context) want self.old result self.new }
    {
        match self.start() {
            Start::Digit => self.number(context),
            Start::Letter => self.name(context),
            Start::Quote => self.quoted(context),
            Start::Round => self.round(context),
            Start::Curly => self.list(context),
            _ => Err(self.refuse()),
        }
    }

    // An expression in parentheses, at its `(`.
    #[cycle(expression)]
    fn round(&mut self, context: Context) -> Result<Operand, Fault>
        requires { (Ready self.old) × (start_at self.old.text.now self.old.pos ≡ Start.Round) }
        ensures { Did self.old.text.now (Fitting 12 context) want self.old result self.new }
    {
        let inner = context.inner(Inside::Round).ok_or(self.too_deep())?;
        self.pass();
        let held = self.operators(inner, 1)?;
        self.close(Shape::Round)?;
        Ok(Operand::computed(held.need))
    }

    // A name, with its subscript or its arguments if it has any.
    #[cycle(expression)]
    fn name(&mut self, context: Context) -> Result<Operand, Fault>
        requires { (Ready self.old) × (start_at self.old.text.now self.old.pos ≡ Start.Letter) }
        ensures { Did self.old.text.now (Wanting self.old.text.now self.old.pos 12 context) want self.old result self.new }
    {
        let name = self.free_name(Follow::Name(context.inside))?;
        self.blanks();
        match self.after() {
            After::Square => {
                let need = self.subscript(context)?;
                self.table.push(Node::Index {
                    span: name.narrow(),
                });
                Ok(Operand::computed(need))
            }
            After::Round => self.call(name, context),
            _ => {
                self.table.push(Node::Name {
                    span: name.narrow(),
                });
                Ok(Operand::computed(1))
            }
        }
    }

    // The subscript of a name, at its `[`: the stack that it needs.
    #[cycle(expression)]
    pub(crate) fn subscript(&mut self, context: Context) -> Result<usize, Fault>
        requires { (Ready self.old) × (after_at self.old.text.now self.old.pos ≡ After.Square) }
        ensures { Subscribed self.old.text.now context.left self.old result self.new }
    {
        let inner = context.inner(Inside::Square).ok_or(self.too_deep())?;
        self.pass();
        let held = self.operators(inner, 1)?;
        self.close(Shape::Square)?;
        Ok(held.need)
    }

    // The call of the function whose name stands there, at its `(`.
    #[cycle(expression)]
    pub(crate) fn call(&mut self, name: Span, context: Context) -> Result<Operand, Fault>
        requires { (Ready self.old) × ((after_at self.old.text.now self.old.pos ≡ After.Round) × ((name.«from» ≤ name.to) × (name.to ≤ self.old.pos))) }
        ensures { Called self.old.text.now name.«from» name.to context.left self.old result self.new }
    {
        let bad = Fault {
            refusal: Refusal::BadCall,
            place: name.from,
        };
        let inner = context.inner(Inside::Call).ok_or(self.too_deep())?;
        let signature = find(&self.text[name.from..name.to]).ok_or(bad)?;
        self.pass();
        self.blanks();
        let arguments = match self.start() {
            Start::EndRound => Arguments { count: 0, need: 0 },
            _ => self.arguments(inner)?,
        };
        if arguments.count < usize::from(signature.least)
            || arguments.count > usize::from(signature.most)
        {
            return Err(bad);
        }
        self.pass();
        self.table.push(Node::Call {
            place: name.from as u16,
            function: signature.function,
            arguments: arguments.count as u16,
        });
        Ok(Operand::computed(arguments.need))
    }

    // The arguments of a call, up to its `)`.
    #[cycle(expression)]
    fn arguments(&mut self, context: Context) -> Result<Arguments, Fault>
        requires { (Ready self.old) × (context.inside ≡ Call) }
        ensures { Argued self.old.text.now context.left self.old result self.new }
    {
        let mut count: usize = 0;
        let mut need: usize = 0;
        loop {
            let argument = self.operators(context, 1)?;
            need = need.max(count + argument.need);
            count += 1;
            match self.after() {
                After::Separator(Separator::Comma) => self.pass(),
                After::End(Shape::Round) => return Ok(Arguments { count, need }),
                _ => return Err(self.unexpected()),
            }
        }
    }

    // A list, at its `{`.
    #[cycle(expression)]
    fn list(&mut self, context: Context) -> Result<Operand, Fault>
        requires { (Ready self.old) × (start_at self.old.text.now self.old.pos ≡ Start.Curly) }
        ensures { Did self.old.text.now (Fitting 12 context) want self.old result self.new }
    {
        let place = self.pos as u16;
        let inner = context.inner(Inside::Curly).ok_or(self.too_deep())?;
        self.pass();
        self.blanks();
        if matches!(self.start(), Start::EndCurly) {
            self.pass();
            self.table.push(Node::Empty { place });
            return Ok(Operand::computed(1));
        }
        let mut need: usize = 1;
        let mut empty = true;
        loop {
            let group = self.group(inner, empty)?;
            need = need.max(group.need);
            empty = false;
            if !group.more {
                break;
            }
        }
        self.table.push(Node::List { place });
        Ok(Operand::computed(need))
    }

    // A group of a list, with the `;` or `}` behind it. `empty` tells that no item stands before it.
    #[cycle(expression)]
    fn group(&mut self, context: Context, empty: bool) -> Result<Group, Fault>
        requires { (Ready self.old) × (context.inside ≡ Curly) }
        ensures { Continued self.old.text.now context.left empty 0 0 self.old result self.new }
    {
        // By hand: a table is too large to be kept whole, and a struct of its two counts would be made and taken apart here alone.
        let len = self.table.len;
        let nodes = self.table.nodes;
        let first = self.item(context, empty)?;
        if !self.is_comma() {
            return self.end_group(first.need);
        }
        self.pass();
        let second = self.item(context, false)?;
        let need = first.need.max(second.need);
        if !self.is_comma() {
            return self.end_group(need);
        }
        self.pass();
        self.blanks();
        let Start::Dot = self.start() else {
            return self.items(context, need);
        };
        self.table.restore(len, nodes);
        self.sequence(first.constant, second.constant, empty)
    }

    // An item of a list, joined to those before it; its need is counted with the list's own.
    #[cycle(expression)]
    fn item(&mut self, context: Context, empty: bool) -> Result<Operand, Fault>
        requires { Ready self.old }
        ensures did { Itemed self.old.text.now context empty self.old result self.new }
        ensures stops { Stopped 1 self.old.text.now result self.new }
    {
        let item = self.operators(context, 1)?;
        if !empty {
            self.table.push(Node::Joined);
        }
        Ok(Operand {
            need: item.need + 1,
            constant: item.constant,
        })
    }

    // Further items of a group, behind the second one and its comma, with the `;` or `}` behind them.
    #[cycle(expression)]
    fn items(&mut self, context: Context, need: usize) -> Result<Group, Fault>
        requires { (Ready self.old) × ((context.inside ≡ Curly) × ((need ≤ self.old.pos) × ((Solid self.old.text.now self.old.pos) × ((start_at self.old.text.now self.old.pos ≢ Start.Dot))))) }
        ensures { Continued self.old.text.now context.left false need 2 self.old result self.new }
    {
        let mut need = need;
        loop {
            let item = self.item(context, false)?;
            need = need.max(item.need);
            if !self.is_comma() {
                return self.end_group(need);
            }
            self.pass();
        }
    }

    fn is_comma(&self) -> bool
        ensures { result ≡ is_comma (after_at self.now.text.now self.now.pos) }
    {
        matches!(self.after(), After::Separator(Separator::Comma))
    }

    // Passes the `;` or `}` behind a group, if it stands here: whether another group follows.
    fn group_end(&mut self) -> Option<bool>
        requires { self.old.state ≡ Instruction }
        ensures { GroupEnded self.old.text.now self.old result self.new }
    {
        let more = match self.after() {
            After::Separator(Separator::Semicolon) => true,
            After::End(Shape::Curly) => false,
            _ => return None,
        };
        self.pass();
        Some(more)
    }

    // Passes the `;` or `}` behind the last item of a group.
    fn end_group(&mut self, need: usize) -> Result<Group, Fault>
        requires { self.old.state ≡ Instruction }
        ensures { Ended self.old.text.now need self.old result self.new }
    {
        let more = self.group_end().ok_or(self.unexpected())?;
        Ok(Group { need, more })
    }

    // The rest of a sequence, at the first dot, with the `;` or `}` behind it.
    fn sequence(
        &mut self,
        first: Option<Constant>,
        second: Option<Constant>,
        empty: bool,
    ) -> Result<Group, Fault>
        requires { (Ready self.old) × ((start_at self.old.text.now self.old.pos ≡ Start.Dot) × (Placed first self.old.pos)) }
        ensures { Sequenced self.old.text.now first second empty self.old result self.new }
    {
        let (Some(first), Some(second)) = (first, second) else {
            return Err(self.refuse());
        };
        self.ellipsis()?;
        let last = self.numeral()?;
        let last = self.arrived(first, second, last)?;
        self.table.push(Node::Sequence {
            place: first.span.from as u16,
            first: first.value,
            second: second.value,
            last: last.value,
        });
        if !empty {
            self.table.push(Node::Joined);
        }
        self.blanks();
        self.end_sequence()
    }

    // The dots of a sequence and the comma behind them, at the first dot, up to the first digit of the last constant.
    fn ellipsis(&mut self) -> Result<(), Fault>
        requires { (Ready self.old) × (start_at self.old.text.now self.old.pos ≡ Start.Dot) }
        ensures { Ellipsed self.old.text.now self.old result self.new }
    {
        self.pass();
        self.dot()?;
        self.dot()?;
        self.blanks();
        if !self.is_comma() {
            return Err(self.refuse());
        }
        self.pass();
        self.blanks();
        let Start::Digit = self.start() else {
            return Err(self.refuse());
        };
        Ok(())
    }

    fn dot(&mut self) -> Result<(), Fault>
        requires { self.old.state ≡ Instruction }
        ensures { Dotted self.old.text.now self.old result self.new }
    {
        let Start::Dot = self.start() else {
            return Err(self.refuse());
        };
        self.pass();
        Ok(())
    }

    // Judges the last constant of a sequence, behind which the cursor stands.
    fn arrived(&self, first: Constant, second: Constant, last: Numeral) -> Result<Constant, Fault>
        requires { last.span.«from» ≤ last.span.to }
        ensures { Arrived first second last self.now result }
    {
        let Numeral { span, value } = last;
        let Some(value) = value else {
            return Err(self.late(Follow::Last, Refusal::BadNumber, span.from));
        };
        if !arrives_at(first.value, second.value, value) {
            return Err(self.late(Follow::Last, Refusal::BadNumber, first.span.from));
        }
        self.check_length(
            Follow::Last,
            span.from,
            span.to - span.from,
            LONGEST_CONSTANT,
        )?;
        Ok(Constant { span, value })
    }

    // Passes the `;` or `}` behind a sequence.
    fn end_sequence(&mut self) -> Result<Group, Fault>
        requires { self.old.state ≡ Instruction }
        ensures { EndedSequence self.old.text.now self.old result self.new }
    {
        let more = self.group_end().ok_or(self.refuse())?;
        Ok(Group { need: 2, more })
    }
}
