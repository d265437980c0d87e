// The table of nodes.
ghost use Rattle.std.specs.Prelude.{◌≡◌, ◌+◌, ◌^◌, ◌<◌, ◌≤◌};
ghost use Rattle.reader.specs.Tables.{blank, pushed, patched, restored};

use std::marker::Model;
use trees::Node;

// How many nodes are kept. A template that a till may hold has at most 1,024 nodes, and no more than as many silent ones.
pub const ROOM: usize = 2048;

// The first ROOM nodes, how many there are in all, and how many of these count.
// By hand: the memory is fixed, and `len` counts the nodes past its room too. No more nodes count than there are.
#[derive(Drop)]
pub struct Table {
    pub(crate) slots: [Node; ROOM],
    pub(crate) len: usize,
    pub(crate) nodes: usize,
}

impl Model for Table {
    ghost use Rattle.std.specs.Prelude.{◌≤◌};
    ghost use Rattle.reader.specs.Tables.{Table as Tabled};

    ghost Value = { Tabled };

    ghost view = { λ t. record { slots = t.slots; len = t.len; nodes = t.nodes } };

    ghost invariant = { λ t. t.nodes ≤ t.len };
}

impl Table {
    pub(crate) fn new() -> Table
        ensures { result ≡ blank }
    {
        Table {
            slots: [Node::End; ROOM],
            len: 0,
            nodes: 0,
        }
    }

    // One node more; past the room it is only counted.
    // By hand, as in `patch`: of `get_mut` at an array the proof doesn't learn what the array becomes.
    pub(crate) fn push(&mut self, node: Node)
        requires { self.old.len + 1 < 2 ^ 64 }
        ensures { self.new ≡ pushed self.old node }
    {
        if self.len < ROOM {
            self.slots[self.len] = node;
        }
        self.len += 1;
        self.nodes += node.weight();
    }

    // Another node in the place of one.
    pub(crate) fn patch(&mut self, at: usize, node: Node)
        ensures { self.new ≡ patched self.old at node }
    {
        if at < ROOM {
            self.slots[at] = node;
        }
    }

    // Only the first `len` nodes, of which `nodes` count.
    pub(crate) fn restore(&mut self, len: usize, nodes: usize)
        requires { nodes ≤ len }
        ensures { self.new ≡ restored self.old len nodes }
    {
        self.len = len;
        self.nodes = nodes;
    }
}
