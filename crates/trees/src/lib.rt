// What a template is read into: a tree in the specs, and its nodes in the order in which a print runs them.
#![tactic(auto)]

ghost use Rattle.std.specs.Prelude.{◌≡◌, min};
ghost use Rattle.trees.specs.Tree.{from_to};
ghost use Rattle.trees.specs.Laid.{weight, place_of, head_size, with_body};

use functions::Function;
use tokens::operator::{Op, Sign};

// Where a part of a template stands: its first byte, and the byte after its last.
#[derive(Clone, Copy, PartialEq, Eq, Debug)]
pub struct Span<T = usize> {
    pub from: T,
    pub to: T,
}

// A number constant.
#[derive(Clone, Copy, PartialEq, Eq, Debug)]
pub struct Constant {
    pub span: Span,
    pub value: u64,
}

// A text constant with its quotes, and how many bytes it has after escapes.
#[derive(Clone, Copy, PartialEq, Eq, Debug)]
pub struct Quote {
    pub span: Span,
    pub bytes: usize,
}

// A node. Places are byte offsets in the template: `place` names the node in a fault. A span is a part of the
// template, sizes count the nodes of a part that follows.
//
// An expression's nodes stand in the order in which they work on a stack of values: what an operator, call, list or subscript
// holds stands before it. `Joined` and `Judged` are silent: they count as no node.
#[derive(Clone, Copy, PartialEq, Eq, Debug)]
pub enum Node {
    // plain text
    Piece {
        span: Span<u16>,
    },
    // `$$`
    Dollar {
        place: u16,
    },
    // `$expression$`: the expression follows
    Show {
        place: u16,
        size: u16,
    },
    // `$key = expression$`: the subscript follows (0 nodes if there is none), then the right side
    Assign {
        place: u16,
        name: Span<u16>,
        subscript: u16,
        right: u16,
    },
    // `$IF c$` and `$ELIF c$`: the condition follows, then the block; then the next arm or `End`
    If {
        place: u16,
        condition: u16,
        body: u16,
    },
    Elif {
        place: u16,
        condition: u16,
        body: u16,
    },
    // `$ELSE$`: the block follows, then `End`
    Else {
        body: u16,
    },
    End,
    // `$WHILE c$`: the condition follows, then the block, then `End`
    While {
        place: u16,
        condition: u16,
        body: u16,
    },
    // `$FOREACH name e$`: the expression follows, then the block, then `End`
    Foreach {
        place: u16,
        name: Span<u16>,
        list: u16,
        body: u16,
    },
    // `$JOINEACH name e "d"$`: as `Foreach`; the delimiter stands with its quotes
    Joineach {
        place: u16,
        name: Span<u16>,
        list: u16,
        delimiter: Span<u16>,
        body: u16,
    },
    // a number constant with its text as written
    Number {
        span: Span<u16>,
        value: u64,
    },
    // a text constant with its quotes
    Text {
        span: Span<u16>,
    },
    // a key without a subscript
    Name {
        span: Span<u16>,
    },
    // a key whose subscript is the value on top
    Index {
        span: Span<u16>,
    },
    // a call with so many values on top
    Call {
        place: u16,
        function: Function,
        arguments: u16,
    },
    // `{}`
    Empty {
        place: u16,
    },
    // a list whose elements are the value on top
    List {
        place: u16,
    },
    // a,b,...,c
    Sequence {
        place: u16,
        first: u64,
        second: u64,
        last: u64,
    },
    // silent: the value on top is joined to the one below, as the next item of a list
    Joined,
    // a sign before the value on top
    Signed {
        place: u16,
        sign: Sign,
    },
    // an operator on the two values on top
    Binary {
        place: u16,
        op: Op,
    },
    // `&&` or `||` after its left side: its right side follows, with its `Judged`
    Short {
        place: u16,
        op: Op,
        skip: u16,
    },
    // silent: the right side of `&&` or `||` is judged, and becomes 1 or 0; `place` is the operator's
    Judged {
        place: u16,
    },
}

impl Span {
    // The same in 16 bits, as nodes keep it. A place past 65,535, which no template has, becomes that one.
    pub fn narrow(self) -> Span<u16>
        ensures { result ≡ from_to (min self.«from» 65535) (min self.to 65535) }
    {
        Span {
            from: self.from.min(65535) as u16,
            to: self.to.min(65535) as u16,
        }
    }
}

impl Node {
    // Whether it counts: 1, or 0 for a silent one.
    pub fn weight(self) -> usize
        ensures { result ≡ weight self }
    {
        match self {
            Node::Joined | Node::Judged { .. } => 0,
            _ => 1,
        }
    }

    // The place that names it in a refusal; 0 of a node that is never named.
    pub fn place(self) -> usize
        ensures { result ≡ place_of self }
    {
        usize::from(match self {
            Node::Piece { span }
            | Node::Number { span, .. }
            | Node::Text { span }
            | Node::Name { span }
            | Node::Index { span } => span.from,
            Node::Dollar { place }
            | Node::Show { place, .. }
            | Node::Assign { place, .. }
            | Node::If { place, .. }
            | Node::Elif { place, .. }
            | Node::While { place, .. }
            | Node::Foreach { place, .. }
            | Node::Joineach { place, .. }
            | Node::Call { place, .. }
            | Node::Empty { place }
            | Node::List { place }
            | Node::Sequence { place, .. }
            | Node::Signed { place, .. }
            | Node::Binary { place, .. }
            | Node::Short { place, .. }
            | Node::Judged { place } => place,
            Node::Else { .. } | Node::End | Node::Joined => 0,
        })
    }

    // How many nodes stand between an instruction's node and its block.
    pub fn head_size(self) -> u16
        ensures { result ≡ head_size self }
    {
        match self {
            Node::If {
                condition: size,
                ..
            }
            | Node::Elif {
                condition: size,
                ..
            }
            | Node::While {
                condition: size,
                ..
            }
            | Node::Foreach { list: size, .. }
            | Node::Joineach { list: size, .. } => size,
            _ => 0,
        }
    }

    // An instruction's node with the size of its block.
    // An arm each: of one arm for all six, the proof doesn't learn what it leaves in `self`.
    pub fn with_body(mut self, size: u16) -> Node
        ensures { result ≡ with_body self size }
    {
        match &mut self {
            Node::If { body, .. } => *body = size,
            Node::Elif { body, .. } => *body = size,
            Node::Else { body } => *body = size,
            Node::While { body, .. } => *body = size,
            Node::Foreach { body, .. } => *body = size,
            Node::Joineach { body, .. } => *body = size,
            _ => {}
        }
        self
    }
}
