// Blocks, and the instructions that have one.
ghost use Rattle.std.specs.Prelude.{◌≡◌, ◌∷◌, [], ◌++◌, ◌≤◌, length, List, IfOk, slice_get};
ghost use Rattle.std.specs.Option.{option_map};
ghost use Rattle.keys.specs.KeyMeans.{name_means};
ghost use Rattle.meaning.specs.Meaning.{block};
ghost use Rattle.trees.specs.declared.Node.{Node};
ghost use Rattle.trees.specs.declared.Node.TheVariants.{Else, While};
ghost use Rattle.trees.specs.Flat.{flatten_arms};
ghost use Rattle.trees.specs.Tree.{Arms, Block};
ghost use Rattle.values.specs.Means.{element_means};
ghost use Rattle.evaluator.specs.Turns.{top_value};

use super::constants;
use super::instructions::Loop;
use super::parts::{behind, front};
use super::run::Run;
use printer::Printer;
use refusals::fault::Fault;
use store::Store;
use trees::Node;
use values::element::Element;

// The most elements of a value.
const ELEMENTS: usize = 16;

// What stands behind the arms of an IF that are left, up to its END.
fn past_arms(nodes: &[Node]) -> &[Node]
    ensures past { (r : Arms) (ns : List Node) → nodes.now ≡ flatten_arms r ++ ns → result.now ≡ ns }
    ensures shorter { length result.now ≤ length nodes.now }
{
    let mut left = nodes;
    while let Some((node, more)) = left.split_first() {
        let size = match node {
            Node::Elif {
                condition,
                body,
                ..
            } => usize::from(*condition) + usize::from(*body),
            Node::Else { body } => usize::from(*body),
            _ => return more,
        };
        left = behind(more, size);
    }
    left
}

impl Run<'_> {
    ghost use Rattle.evaluator.specs.Runs.{slots, Still, Level};
    ghost use Rattle.evaluator.specs.Blocks.{Left, rest, Leaves, Ran, Advanced, Tests, Loops};

    // Runs the nodes of a block, instruction by instruction.
    #[cycle(block)]
    pub(crate) fn block<S: Store, P: Printer>(
        &mut self,
        nodes: &[Node],
        store: &mut S,
        printer: &mut P,
    ) -> Result<(), Fault>
        ensures ran { (b : Block) → Leaves self.old nodes.now (rest b) → Ran S.Store P.Printer (block self.old.text.now b) self.old self.new store.old store.new printer.old printer.new result × Level self.old self.new result }
        ensures still { Still self.old self.new }
    {
        let mut left = nodes;
        while let Some((node, more)) = left.split_first() {
            left = self.statement(*node, more, store, printer)?;
        }
        Ok(())
    }

    // Runs an instruction, whose other nodes stand behind its own; answers the nodes behind them all.
    #[cycle(block)]
    fn statement<'n, S: Store, P: Printer>(
        &mut self,
        node: Node,
        more: &'n [Node],
        store: &mut S,
        printer: &mut P,
    ) -> Result<&'n [Node], Fault>
        ensures advanced { (x : Left) → Leaves self.old (node ∷ more.now) x → Advanced S.Store P.Printer x self.old self.new store.old store.new printer.old printer.new result }
        ensures shorter { IfOk result (λ ns. length ns.now ≤ length more.now) }
        ensures still { Still self.old self.new }
    {
        let place = node.place();
        match node {
            Node::If {
                condition,
                body,
                ..
            }
            | Node::Elif {
                condition,
                body,
                ..
            } => self.choose(
                place,
                usize::from(condition),
                usize::from(body),
                more,
                store,
                printer,
            ),
            Node::Else { body } => self.otherwise(usize::from(body), more, store, printer),
            Node::While {
                condition,
                body,
                ..
            } => self.repeat(
                place,
                usize::from(condition),
                usize::from(body),
                more,
                store,
                printer,
            ),
            Node::Foreach {
                name,
                list,
                body,
                ..
            } => {
                let name = constants::name(self.text, name);
                let head = Loop {
                    place,
                    name,
                    delimiter: b"",
                };
                self.each(
                    head,
                    usize::from(list),
                    usize::from(body),
                    more,
                    store,
                    printer,
                )
            }
            Node::Joineach {
                name,
                list,
                delimiter,
                body,
                ..
            } => {
                let name = constants::name(self.text, name);
                let delimiter = constants::quoted(self.text, delimiter);
                let head = Loop {
                    place,
                    name,
                    delimiter: delimiter.as_bytes(),
                };
                self.each(
                    head,
                    usize::from(list),
                    usize::from(body),
                    more,
                    store,
                    printer,
                )
            }
            _ => self.simple(node, more, store, printer),
        }
    }

    // An IF or ELIF: where its condition holds its block, and no later arm; else what follows its block is next.
    #[cycle(block)]
    fn choose<'n, S: Store, P: Printer>(
        &mut self,
        place: usize,
        condition: usize,
        body: usize,
        more: &'n [Node],
        store: &mut S,
        printer: &mut P,
    ) -> Result<&'n [Node], Fault>
        ensures advanced { (n : Node) (x : Left) → Tests n place condition body → Leaves self.old (n ∷ more.now) x → Advanced S.Store P.Printer x self.old self.new store.old store.new printer.old printer.new result }
        ensures shorter { IfOk result (λ ns. length ns.now ≤ length more.now) }
        ensures still { Still self.old self.new }
    {
        let block = behind(more, condition);
        let next = behind(block, body);
        if !self.test(place, front(more, condition), store)? {
            return Ok(next);
        }
        self.block(front(block, body), store, printer)?;
        Ok(past_arms(next))
    }

    // An ELSE that is reached.
    #[cycle(block)]
    fn otherwise<'n, S: Store, P: Printer>(
        &mut self,
        body: usize,
        more: &'n [Node],
        store: &mut S,
        printer: &mut P,
    ) -> Result<&'n [Node], Fault>
        ensures advanced { (x : Left) → Leaves self.old (Else body ∷ more.now) x → Advanced S.Store P.Printer x self.old self.new store.old store.new printer.old printer.new result }
        ensures shorter { IfOk result (λ ns. length ns.now ≤ length more.now) }
        ensures still { Still self.old self.new }
    {
        self.block(front(more, body), store, printer)?;
        Ok(behind(more, body))
    }

    // A WHILE.
    #[cycle(block)]
    fn repeat<'n, S: Store, P: Printer>(
        &mut self,
        place: usize,
        condition: usize,
        body: usize,
        more: &'n [Node],
        store: &mut S,
        printer: &mut P,
    ) -> Result<&'n [Node], Fault>
        ensures advanced { (x : Left) → Leaves self.old (While place condition body ∷ more.now) x → Advanced S.Store P.Printer x self.old self.new store.old store.new printer.old printer.new result }
        ensures shorter { IfOk result (λ ns. length ns.now ≤ length more.now) }
        ensures still { Still self.old self.new }
    {
        let block = behind(more, condition);
        while self.test(place, front(more, condition), store)? {
            self.block(front(block, body), store, printer)?;
        }
        Ok(behind(block, body))
    }

    // A FOREACH or JOINEACH: its list waits on the stack while its block runs.
    #[cycle(block)]
    fn each<'n, S: Store, P: Printer>(
        &mut self,
        head: Loop<'_>,
        list: usize,
        body: usize,
        more: &'n [Node],
        store: &mut S,
        printer: &mut P,
    ) -> Result<&'n [Node], Fault>
        ensures advanced { (n : Node) (x : Left) → Loops self.old.text.now n head.entry.place (name_means head.entry.name) head.entry.delimiter.now list body → Leaves self.old (n ∷ more.now) x → Advanced S.Store P.Printer x self.old self.new store.old store.new printer.old printer.new result }
        ensures shorter { IfOk result (λ ns. length ns.now ≤ length more.now) }
        ensures still { Still self.old self.new }
    {
        let block = behind(more, list);
        self.visit(head.place)?;
        self.expression(front(more, list), store)?;
        for i in 0..ELEMENTS {
            let Some(element) = self.element(i) else {
                break;
            };
            self.round(head, i == 0, element, store, printer)?;
            self.block(front(block, body), store, printer)?;
        }
        self.pop();
        Ok(behind(block, body))
    }

    // An element of the value on top.
    fn element(&self, i: usize) -> Option<Element>
        ensures { option_map element_means result ≡ slice_get (top_value (slots self.now)) i }
    {
        let value = self.values.peek()??;
        value.elements().get(i).copied()
    }
}
