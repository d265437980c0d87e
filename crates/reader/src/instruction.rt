// Reads instructions.
ghost use Rattle.std.specs.Prelude.{◌≡◌, ◌+◌, ◌<◌, ◌≤◌, length};

use crate::block::{DEEPEST, Kind, Open};
use crate::cursor::{Cursor, Follow, Inside};
use crate::heads::Condition;
use keywords::{Keyword, find};
use refusals::Refusal;
use refusals::fault::Fault;
use stacks::Stack;
use tokens::byte::Start;
use trees::Node;

// A template half read: the cursor; the blocks that stand open; where the open piece of plain text begins, or where the `$` of the
// instruction stands; the greatest stack need so far; and how many FOREACH and JOINEACH blocks stand open.
#[derive(Drop)]
pub struct Reader<'a> {
    pub(crate) cursor: Cursor<'a>,
    pub(crate) blocks: Stack<'a, Open>,
    pub(crate) from: usize,
    pub(crate) stack: usize,
    pub(crate) loops: usize,
    pub ghost room: { blocks.capacity ≡ 12 },
}

impl Reader<'_> {
    ghost use Rattle.keywords.specs.declared.Keyword.TheVariants.{If, While, Elif, Else, End, Foreach, Joineach};
    ghost use Rattle.refusals.specs.declared.Refusal.TheVariants.{UnmatchedBlock};
    ghost use Rattle.trees.specs.Laid.{head_size};
    ghost use Rattle.reader.specs.Scans.{start_at, Limited};
    ghost use Rattle.reader.specs.Heads.{AtWord};
    ghost use Rattle.reader.specs.Blocks.{Entered, Instructed, Roomed, Chosen, command_out, opening_out, WithTable, Needs, Stood, Opens, arm_closed};

    // An instruction, behind its `$`, with the `$` that closes it.
    pub(crate) fn instruction(&mut self) -> Result<(), Fault>
        requires { Entered self.old self.old.blocks.items }
        ensures { Instructed (opening_out self.old.cursor.text.now self.old.cursor.pos) self.old self.old.blocks.items result self.new self.new.blocks.items }
    {
        self.cursor.blanks();
        if self.cursor.start() == Start::Letter {
            return self.worded();
        }
        let need = self.cursor.shown(self.from)?;
        self.needs(need);
        Ok(())
    }

    // An instruction that begins with a word.
    fn worded(&mut self) -> Result<(), Fault>
        requires entered { Entered self.old self.old.blocks.items }
        requires letter { start_at self.old.cursor.text.now self.old.cursor.pos ≡ Start.Letter }
        ensures { Instructed (opening_out self.old.cursor.text.now self.old.cursor.pos) self.old self.old.blocks.items result self.new self.new.blocks.items }
    {
        let word = self.cursor.word();
        match find(&self.cursor.text[word.from..word.to]) {
            Some(keyword) => self.commanded(keyword),
            None => {
                let need = self.cursor.keyed(self.from, word)?;
                self.needs(need);
                Ok(())
            }
        }
    }

    // An instruction of a block, behind its word.
    fn commanded(&mut self, keyword: Keyword) -> Result<(), Fault>
        requires entered { Entered self.old self.old.blocks.items }
        requires word { AtWord self.old.cursor.text.now self.old.cursor.pos }
        ensures { Instructed (command_out self.old.cursor.text.now keyword self.old.cursor.pos) self.old self.old.blocks.items result self.new self.new.blocks.items }
    {
        match keyword {
            Keyword::If => self.choose(),
            Keyword::While => self.repeat(),
            Keyword::Foreach => self.foreach(),
            Keyword::Joineach => self.joineach(),
            Keyword::Elif => self.elif(),
            Keyword::Else => self.otherwise(),
            Keyword::End => self.end(),
        }
    }

    // So much stack is needed here, beside what the loops around hold.
    fn needs(&mut self, need: usize)
        requires { (need ≤ 4096) × (self.old.loops ≤ 12) }
        ensures { Needs self.old need self.new }
    {
        self.stack = self.stack.max(need + self.loops);
    }

    // A rule about blocks is broken by the instruction whose word has just been read.
    fn unmatched(&self, follow: Follow) -> Fault
        ensures { Limited follow self.now.cursor UnmatchedBlock self.now.«from» result }
    {
        self.cursor.late(follow, Refusal::UnmatchedBlock, self.from)
    }

    // Whether another block may open.
    fn check_room(&self, follow: Follow) -> Result<(), Fault>
        ensures { Roomed follow self.now result }
    {
        if self.blocks.len() >= DEEPEST {
            return Err(self.unmatched(follow));
        }
        Ok(())
    }

    // The innermost open block, if it is an IF without an ELSE.
    fn choice(&self, follow: Follow) -> Result<Open, Fault>
        ensures { Chosen follow self.now result }
    {
        self.blocks
            .peek()
            .filter(|block| block.kind == Kind::Choice)
            .ok_or(self.unmatched(follow))
    }

    // `IF` and `WHILE`, `FOREACH` and `JOINEACH`, behind the word: a function each, since each makes a node of its own.
    fn choose(&mut self) -> Result<(), Fault>
        requires entered { Entered self.old self.old.blocks.items }
        requires word { AtWord self.old.cursor.text.now self.old.cursor.pos }
        ensures { Instructed (command_out self.old.cursor.text.now If self.old.cursor.pos) self.old self.old.blocks.items result self.new self.new.blocks.items }
    {
        self.check_room(Follow::Begin)?;
        let condition = self.cursor.test()?;
        let head = Node::If {
            place: self.from as u16,
            condition: condition.size,
            body: 0,
        };
        self.open(Kind::Choice, head, condition);
        Ok(())
    }

    fn repeat(&mut self) -> Result<(), Fault>
        requires entered { Entered self.old self.old.blocks.items }
        requires word { AtWord self.old.cursor.text.now self.old.cursor.pos }
        ensures { Instructed (command_out self.old.cursor.text.now While self.old.cursor.pos) self.old self.old.blocks.items result self.new self.new.blocks.items }
    {
        self.check_room(Follow::Begin)?;
        let condition = self.cursor.test()?;
        let head = Node::While {
            place: self.from as u16,
            condition: condition.size,
            body: 0,
        };
        self.open(Kind::Repeat, head, condition);
        Ok(())
    }

    fn foreach(&mut self) -> Result<(), Fault>
        requires entered { Entered self.old self.old.blocks.items }
        requires word { AtWord self.old.cursor.text.now self.old.cursor.pos }
        ensures { Instructed (command_out self.old.cursor.text.now Foreach self.old.cursor.pos) self.old self.old.blocks.items result self.new self.new.blocks.items }
    {
        self.check_room(Follow::Loop)?;
        let (name, list) = self.cursor.loop_head(Inside::Top)?;
        self.cursor.finish()?;
        let head = Node::Foreach {
            place: self.from as u16,
            name: name.narrow(),
            list: list.size,
            body: 0,
        };
        self.open(Kind::Each, head, list);
        Ok(())
    }

    fn joineach(&mut self) -> Result<(), Fault>
        requires entered { Entered self.old self.old.blocks.items }
        requires word { AtWord self.old.cursor.text.now self.old.cursor.pos }
        ensures { Instructed (command_out self.old.cursor.text.now Joineach self.old.cursor.pos) self.old self.old.blocks.items result self.new self.new.blocks.items }
    {
        self.check_room(Follow::Loop)?;
        let (name, list) = self.cursor.loop_head(Inside::Join)?;
        let delimiter = self.cursor.delimiter()?;
        let head = Node::Joineach {
            place: self.from as u16,
            name: name.narrow(),
            list: list.size,
            delimiter: delimiter.span.narrow(),
            body: 0,
        };
        self.open(Kind::Each, head, list);
        Ok(())
    }

    // A block opens: the node of its instruction is put in before its condition.
    fn open(&mut self, kind: Kind, head: Node, condition: Condition)
        requires { (condition.need ≤ 4096) × ((self.old.loops ≤ 12) × (length self.old.blocks.items < 12)) }
        ensures { Opens self.old kind head condition self.new }
    {
        self.cursor.patch(condition.at, head);
        self.needs(condition.need);
        self.stand(Open {
            kind,
            place: self.from,
            at: condition.at,
            head,
            loops: self.loops,
        });
        if kind == Kind::Each {
            self.loops += 1;
        }
    }

    // A block more stands open.
    fn stand(&mut self, block: Open)
        requires { length self.old.blocks.items < 12 }
        ensures { Stood self.old block self.new }
    {
        self.blocks.push(block).unwrap();
    }

    // The size of the block that ends here goes into the node of its instruction.
    fn close_arm(&mut self, block: Open)
        requires { (block.at + 1 + head_size block.head ≤ self.old.cursor.table.len) × (self.old.cursor.table.len ≤ 8192) }
        ensures { WithTable self.old (arm_closed self.old.cursor.table block) self.new }
    {
        let size = self.cursor.nodes_behind(block.at) - usize::from(block.head.head_size());
        self.cursor
            .patch(block.at, block.head.with_body(size as u16));
    }

    fn elif(&mut self) -> Result<(), Fault>
        requires entered { Entered self.old self.old.blocks.items }
        requires word { AtWord self.old.cursor.text.now self.old.cursor.pos }
        ensures { Instructed (command_out self.old.cursor.text.now Elif self.old.cursor.pos) self.old self.old.blocks.items result self.new self.new.blocks.items }
    {
        let block = self.choice(Follow::Begin)?;
        self.close_arm(block);
        let condition = self.cursor.test()?;
        let head = Node::Elif {
            place: self.from as u16,
            condition: condition.size,
            body: 0,
        };
        self.cursor.patch(condition.at, head);
        self.needs(condition.need);
        self.blocks.pop();
        self.stand(Open {
            at: condition.at,
            head,
            ..block
        });
        Ok(())
    }

    fn otherwise(&mut self) -> Result<(), Fault>
        requires entered { Entered self.old self.old.blocks.items }
        requires word { AtWord self.old.cursor.text.now self.old.cursor.pos }
        ensures { Instructed (command_out self.old.cursor.text.now Else self.old.cursor.pos) self.old self.old.blocks.items result self.new self.new.blocks.items }
    {
        let block = self.choice(Follow::Complete)?;
        self.cursor.complete()?;
        self.close_arm(block);
        let at = self.cursor.table.len;
        let head = Node::Else { body: 0 };
        self.cursor.push(head);
        self.blocks.pop();
        self.stand(Open {
            kind: Kind::Chosen,
            at,
            head,
            ..block
        });
        Ok(())
    }

    fn end(&mut self) -> Result<(), Fault>
        requires entered { Entered self.old self.old.blocks.items }
        requires word { AtWord self.old.cursor.text.now self.old.cursor.pos }
        ensures { Instructed (command_out self.old.cursor.text.now End self.old.cursor.pos) self.old self.old.blocks.items result self.new self.new.blocks.items }
    {
        let block = self.blocks.peek().ok_or(self.unmatched(Follow::Complete))?;
        self.cursor.complete()?;
        self.close_arm(block);
        self.cursor.push(Node::End);
        self.blocks.pop();
        self.loops = block.loops;
        Ok(())
    }
}
