// Goes through a template byte by byte: the machine of eight states, and the tokens of instructions.
ghost use Rattle.std.specs.Prelude.{◌≡◌, ◌+◌, ◌^◌, ◌<◌, ◌≤◌, true, length, slice_get, slice_index, SomeIff};

use crate::number::appended;
use crate::table::Table;
use refusals::Refusal;
use refusals::fault::Fault;
use tokens::byte::{After, Class, Separator, Shape, Start, digit_value, is_blank, is_word};
use tokens::operator::{Half, Op};
use trees::{Node, Quote, Span};

// Where the reader is.
#[derive(Clone, Copy, PartialEq, Eq, Debug)]
pub enum State {
    // at a line's start
    Line,
    // in plain text
    Plain,
    Comment,
    Instruction,
    // in a text constant
    Text,
    // after a `$` at a line's start
    DollarAtLine,
    // after a `$` elsewhere outside instructions
    Dollar,
    // after `\`
    Escape,
}

// What the innermost open bracket is, or at the top what ends the expression: `$`, or the quote of a delimiter.
#[derive(Clone, Copy, PartialEq, Eq, Debug)]
pub enum Inside {
    Top,
    Join,
    Round,
    Square,
    Call,
    Curly,
}

// What has just been read, and so what may come next.
#[derive(Clone, Copy, PartialEq, Eq, Debug)]
pub enum Follow {
    // an operand
    Operand(Inside),
    // a name, which may have a subscript or arguments
    Name(Inside),
    // the last constant of a sequence
    Last,
    // what an expression stands behind
    Begin,
    // a complete instruction
    Complete,
    // the word of a loop
    Loop,
}

// A number constant, with no value where that is too large.
#[derive(Clone, Copy, PartialEq, Eq, Debug)]
pub struct Numeral {
    pub span: Span,
    pub value: Option<u64>,
}

// A template, the place in it, the state there, and the nodes read so far.
#[derive(Drop)]
pub struct Cursor<'a> {
    pub(crate) text: &'a [u8],
    pub(crate) state: State,
    pub(crate) pos: usize,
    pub(crate) table: Table,
    pub ghost within: { pos ≤ length text.now },
    pub ghost short: { length text.now ≤ 4096 },
}

impl Inside {
    ghost use Rattle.reader.specs.Scans.{operand_end, name_end};

    // Whether the byte may stand after an operand.
    fn ends_operand(self, after: After) -> bool
        ensures { result ≡ operand_end self after }
    {
        matches!(
            (self, after),
            (_, After::Blank | After::Single(_) | After::Double(_))
                | (Inside::Top, After::Dollar)
                | (Inside::Join, After::Quote)
                | (Inside::Round | Inside::Call, After::End(Shape::Round))
                | (Inside::Square, After::End(Shape::Square))
                | (
                    Inside::Curly,
                    After::End(Shape::Curly) | After::Separator(_)
                )
                | (Inside::Call, After::Separator(Separator::Comma))
        )
    }

    // Whether it may stand after a name.
    fn ends_name(self, after: After) -> bool
        ensures { result ≡ name_end self after }
    {
        matches!(after, After::Round | After::Square) || self.ends_operand(after)
    }
}

impl Follow {
    ghost use Rattle.reader.specs.Scans.{follows};

    // Whether the byte may come next.
    fn allows(self, b: u8) -> bool
        ensures { result ≡ follows self b }
    {
        match self {
            Follow::Operand(inside) => inside.ends_operand(After::from(b)),
            Follow::Name(inside) => inside.ends_name(After::from(b)),
            Follow::Last => matches!(
                After::from(b),
                After::Blank | After::Separator(Separator::Semicolon) | After::End(Shape::Curly)
            ),
            Follow::Begin => !matches!(
                Start::from(b),
                Start::EndRound | Start::EndCurly | Start::Dot | Start::Other
            ),
            Follow::Complete => is_blank(b) || b == b'$',
            Follow::Loop => is_blank(b),
        }
    }
}

impl<'a> Cursor<'a> {
    ghost use Rattle.reader.specs.Tables.{blank, pushed, patched};
    ghost use Rattle.trees.specs.Tree.{from_to};
    ghost use Rattle.refusals.specs.declared.Refusal.TheVariants.{UnexpectedByte};
    ghost use Rattle.reader.specs.declared.cursor.State.TheVariants.{Line, Instruction};
    ghost use Rattle.reader.specs.States.{fault, Stepped, Taken, MovedTo, Tabled, Inner};
    ghost use Rattle.reader.specs.Scans.{unexpected_at, Spaced, Worded, start_at, after_at, digit_at, token_at, tight_at, Limited, prefixed_at, Ready, Digited, Numeraled, Quoted, Skipped};

    // At the beginning of a template.
    pub(crate) fn new(text: &'a [u8]) -> Cursor<'a>
        requires { length text.now ≤ 4096 }
        ensures text { result.text.now ≡ text.now }
        ensures state { result.state ≡ Line }
        ensures pos { result.pos ≡ 0 }
        ensures table { result.table ≡ blank }
    {
        Cursor {
            text,
            state: State::Line,
            pos: 0,
            table: Table::new(),
        }
    }

    // One node more.
    pub(crate) fn push(&mut self, node: Node)
        requires { self.old.table.len + 1 < 2 ^ 64 }
        ensures { Tabled self.old (pushed self.old.table node) self.new }
    {
        self.table.push(node);
    }

    // Another node in the place of one.
    pub(crate) fn patch(&mut self, at: usize, node: Node)
        ensures { Tabled self.old (patched self.old.table at node) self.new }
    {
        self.table.patch(at, node);
    }

    // The machine: matches on its state and the byte's class together, and changes the state in place.
    pub(crate) fn step(&mut self, class: Class) -> Result<(), Fault>
        ensures { Stepped self.old class result self.new }
    {
        match (self.state, class) {
            (State::Line | State::Plain | State::Comment, Class::Newline) => self.state =
                State::Line,
            (State::Line, Class::Blank) => {}
            (State::Line, Class::Dollar) => self.state = State::DollarAtLine,
            (State::Line, _) => self.state = State::Plain,
            (State::Plain, Class::Dollar) => self.state = State::Dollar,
            (State::Plain | State::Comment, _) => {}
            (State::DollarAtLine, Class::Blank) => self.state = State::Comment,
            (State::DollarAtLine | State::Dollar | State::Instruction, Class::Dollar) => {
                self.state = State::Plain
            }
            (State::Instruction, Class::Quote) => self.state = State::Text,
            (State::Text, Class::Quote) => self.state = State::Instruction,
            (State::Text, Class::Backslash) => self.state = State::Escape,
            (State::Text, Class::Newline) => return Err(self.refuse()),
            (State::Text, _) => {}
            (State::Escape, Class::Quote | Class::Backslash | Class::Escaped) => self.state =
                State::Text,
            (State::Escape, _) => return Err(self.refuse()),
            (_, Class::Newline | Class::Return | Class::Backslash) => return Err(self.refuse()),
            (State::Instruction, _) => {}
            (State::DollarAtLine | State::Dollar, _) => self.state = State::Instruction,
        }
        Ok(())
    }

    // The byte here cannot stand.
    pub(crate) fn refuse(&self) -> Fault
        ensures { result ≡ fault UnexpectedByte self.now.pos }
    {
        Fault {
            refusal: Refusal::UnexpectedByte,
            place: self.pos,
        }
    }

    // The byte here, if the text goes on.
    fn peek(&self) -> Option<u8>
        ensures { result ≡ slice_get self.now.text.now self.now.pos }
    {
        self.text.get(self.pos).copied()
    }

    // The byte behind that.
    pub(crate) fn second(&self) -> Option<u8>
        ensures { result ≡ slice_get self.now.text.now (self.now.pos + 1) }
    {
        self.text.get(self.pos + 1).copied()
    }

    pub(crate) fn start(&self) -> Start
        ensures { result ≡ start_at self.now.text.now self.now.pos }
    {
        self.peek().map_or(Start::Other, Start::from)
    }

    pub(crate) fn after(&self) -> After
        ensures { result ≡ after_at self.now.text.now self.now.pos }
    {
        self.peek().map_or(After::Other, After::from)
    }

    // The digit of the base that stands here.
    fn digit(&self, base: u8) -> Option<u8>
        requires { base ≤ 16 }
        ensures { let value = digit_at self.now.text.now self.now.pos in SomeIff result (value < base) value }
    {
        self.peek()
            .and_then(digit_value)
            .filter(|digit| *digit < base)
    }

    // Passes a byte by way of the machine.
    pub(crate) fn take(&mut self) -> Result<(), Fault>
        ensures { Taken self.old result self.new }
    {
        let b = self.peek().ok_or(self.refuse())?;
        self.step(Class::from(b))?;
        self.pos += 1;
        Ok(())
    }

    // Passes a byte inside an instruction that stays there.
    pub(crate) fn pass(&mut self)
        requires { (self.old.pos < length self.old.text.now) × ((self.old.state ≡ Instruction) × Inner (slice_index self.old.text.now self.old.pos)) }
        ensures { MovedTo self.old (self.old.pos + 1) self.new }
    {
        self.take().unwrap();
    }

    // Passes the bytes, as many as there are, of which the test holds.
    // A loop, here and below, and no search of the slice: each byte goes through the machine.
    fn skip<F: Fn(u8) -> bool>(&mut self, test: F)
        requires callable { F.IsAlwaysCallable test }
        requires inward { self.old.state ≡ Instruction }
        requires inner { (b : _) → b < 2 ^ 8 → F.post test b true → Inner b }
        ensures { Skipped (F.post test) self.old self.new }
    {
        while let Some(b) = self.peek()
            && test(b)
        {
            self.pass();
        }
    }

    // Passes blanks.
    #[tactic(auto, using(crate::proofs::Leaves::ran))]
    pub(crate) fn blanks(&mut self)
        requires { self.old.state ≡ Instruction }
        ensures { Spaced self.old self.new }
    {
        self.skip(is_blank);
    }

    // Passes the bytes of a word, and tells where they stand.
    #[tactic(auto, using(crate::proofs::Leaves::ran))]
    pub(crate) fn word(&mut self) -> Span
        requires { self.old.state ≡ Instruction }
        ensures passed { Worded self.old self.new }
        ensures span { result ≡ from_to self.old.pos self.new.pos }
    {
        let from = self.pos;
        self.skip(is_word);
        Span { from, to: self.pos }
    }

    // The operator here.
    fn token(&self) -> Option<Op>
        ensures { result ≡ token_at self.now.text.now self.now.pos }
    {
        match self.after() {
            After::Single(op) => Some(op),
            After::Double(half) => self.second().and_then(|b| half.doubled(b)).or(half.alone()),
            _ => None,
        }
    }

    // The operator here, if it is of the level or tighter.
    pub(crate) fn operator(&self, level: u8) -> Option<Op>
        ensures { result ≡ tight_at self.now.text.now level self.now.pos }
    {
        self.token().filter(|op| op.level() >= level)
    }

    // A rule that what was just read breaks falls due here: 3 if the byte cannot stand here.
    pub(crate) fn late(&self, follow: Follow, refusal: Refusal, place: usize) -> Fault
        ensures { Limited follow self.now refusal place result }
    {
        match self.peek() {
            Some(b) if follow.allows(b) => Fault { refusal, place },
            _ => self.refuse(),
        }
    }

    // What stands after an operand cannot stand there, or after `=` or `!` the byte behind that.
    pub(crate) fn unexpected(&self) -> Fault
        ensures { result ≡ fault UnexpectedByte (unexpected_at self.now.text.now self.now.pos) }
    {
        match self.after() {
            After::Double(Half::Equals | Half::Bang) => Fault {
                refusal: Refusal::UnexpectedByte,
                place: self.pos + 1,
            },
            _ => self.refuse(),
        }
    }

    // Digits in the base behind the value `first`: the value with them.
    fn digits(&mut self, base: u8, first: u8) -> Option<u64>
        requires { (base ≤ 16) × (self.old.state ≡ Instruction) }
        ensures { Digited base first self.old result self.new }
    {
        let mut value = Some(u64::from(first));
        while let Some(digit) = self.digit(base) {
            value = appended(value, base, digit);
            self.pass();
        }
        value
    }

    // A number constant, at its first digit.
    pub(crate) fn numeral(&mut self) -> Result<Numeral, Fault>
        requires { (Ready self.old) × (start_at self.old.text.now self.old.pos ≡ Start.Digit) }
        ensures { Numeraled self.old result self.new }
    {
        let from = self.pos;
        let first = self.text[self.pos];
        self.pass();
        let value = if first != b'0' {
            self.digits(10, first - b'0')
        } else if self.is_prefixed() {
            self.pass();
            if self.digit(16).is_none() {
                return Err(self.refuse());
            }
            self.digits(16, 0)
        } else {
            self.digits(8, 0)
        };
        let span = Span { from, to: self.pos };
        Ok(Numeral { span, value })
    }

    // Whether the `x` of a hexadecimal constant stands here.
    fn is_prefixed(&self) -> bool
        ensures { result ≡ prefixed_at self.now.text.now self.now.pos }
    {
        matches!(self.peek(), Some(b'x' | b'X'))
    }

    // A text constant, at its first quote.
    pub(crate) fn quote(&mut self) -> Result<Quote, Fault>
        requires { (Ready self.old) × (start_at self.old.text.now self.old.pos ≡ Start.Quote) }
        ensures { Quoted self.old result self.new }
    {
        let from = self.pos;
        let mut bytes: usize = 0;
        self.take()?;
        loop {
            self.take()?;
            match self.state {
                State::Text => bytes += 1,
                State::Escape => {}
                _ => break,
            }
        }
        let span = Span { from, to: self.pos };
        Ok(Quote { span, bytes })
    }
}
