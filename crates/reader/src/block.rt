// The blocks that stand open.
use trees::Node;

// How many blocks may stand open inside one another.
pub const DEEPEST: usize = 12;

// An IF before its ELSE and after it, a WHILE, a FOREACH or JOINEACH.
#[derive(Clone, Copy, PartialEq, Eq, Debug)]
pub enum Kind {
    Choice,
    Chosen,
    Repeat,
    Each,
}

// An open block: the `$` of the instruction that opened it; where the node of its last instruction (of an IF the last of IF, ELIF and
// ELSE) stands in the table, and that node; and how many FOREACH and JOINEACH blocks stand around it.
#[derive(Clone, Copy, PartialEq, Eq, Debug)]
pub struct Open {
    pub kind: Kind,
    pub place: usize,
    pub at: usize,
    pub head: Node,
    pub loops: usize,
}
