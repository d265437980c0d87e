// Instructions without a block.
ghost use Rattle.std.specs.Prelude.{◌≡◌, ◌∷◌, ◌≤◌, false, length, None, IfOk};
ghost use Rattle.std.specs.Option.{option_map};
ghost use Rattle.effects.specs.Effects.{visit};
ghost use Rattle.keys.specs.KeyMeans.{key_means, name_means};
ghost use Rattle.meaning.specs.Meaning.{print, assign, target, statement, round_start};
ghost use Rattle.trees.specs.Tree.{Expr, Key as Target, Statement};
ghost use Rattle.values.specs.Means.{value_means, element_means};
ghost use Rattle.evaluator.specs.Blocks.{Inks, Puts};

use super::constants;
use super::parts::{behind, front};
use super::run::Run;
use forms::value_form;
use keys::key::Key;
use keys::name::Name;
use operations::operators::operand;
use printer::Printer;
use refusals::fault::Fault;
use store::Store;
use trees::{Node, Span};
use values::element::Element;
use values::value::Value;

// What the rounds of a loop have in common: its place, its name, and what is printed before each round but the first.
#[derive(Clone, Copy)]
pub struct Loop<'d> {
    pub(crate) place: usize,
    pub(crate) name: Name,
    pub(crate) delimiter: &'d [u8],
}

// Prints bytes for the node at a place, as far as they find room.
fn print<P: Printer>(printer: &mut P, bytes: &[u8], place: usize) -> Result<(), Fault>
    ensures { Inks P.Printer place bytes.now printer.old printer.new result }
{
    printer::print::print(printer, bytes).map_err(|refusal| Fault { refusal, place })
}

// Gives a key a value, for the instruction at a place.
fn assign<S: Store>(store: &mut S, key: &Key, value: &Value, place: usize) -> Result<(), Fault>
    ensures { Puts S.Store place (key_means key.now) (value_means value.now) store.old store.new result }
{
    store
        .put(key, value)
        .map_err(|refusal| Fault { refusal, place })
}

impl Run<'_> {
    ghost use Rattle.evaluator.specs.Runs.{slots, result_as, Still, Does, Fits, Level};
    ghost use Rattle.evaluator.specs.Blocks.{Left, Leaves, Targets, Assigns, Ran, Shows, Sets, Advanced, has_block};

    // Plain text, or the dollar sign of `$$`.
    fn plain<P: Printer>(
        &mut self,
        place: usize,
        bytes: &[u8],
        printer: &mut P,
    ) -> Result<(), Fault>
        ensures shows { Shows P.Printer (visit place (print place bytes.now)) self.old self.new printer.old printer.new result }
        ensures capacity { P.Printer.capacity printer.new ≡ P.Printer.capacity printer.old }
        ensures level { slots self.new ≡ slots self.old }
        ensures still { Still self.old self.new }
    {
        self.visit(place)?;
        print(printer, bytes, place)
    }

    // `$expression$`: prints its print form.
    fn show<S: Store, P: Printer>(
        &mut self,
        place: usize,
        nodes: &[Node],
        store: &S,
        printer: &mut P,
    ) -> Result<(), Fault>
        ensures ran { (e : Expr) → Fits self.old nodes.now e → Ran S.Store P.Printer (statement self.old.text.now (Statement.show place e)) self.old self.new store.now store.now printer.old printer.new result × Level self.old self.new result }
        ensures still { Still self.old self.new }
    {
        self.visit(place)?;
        self.expression(nodes, store)?;
        let value = self.pop();
        print(printer, value_form(&value).as_slice(), place)
    }

    // The key that an assignment names; its subscript, if it has one, is worked out.
    fn target<S: Store>(
        &mut self,
        place: usize,
        name: Span<u16>,
        subscript: &[Node],
        store: &S,
    ) -> Result<Key, Fault>
        ensures does { (k : Target) → Targets self.old name subscript.now k → Does (S.Store.names store.now) (target self.old.text.now place k) self.old self.new (result_as key_means result) × Level self.old self.new result }
        ensures still { Still self.old self.new }
    {
        let name = constants::name(self.text, name);
        if subscript.is_empty() {
            return Ok(Key {
                name,
                subscript: None,
            });
        }
        self.expression(subscript, store)?;
        let n = operand(&self.pop()).map_err(|refusal| Fault { refusal, place })?;
        Ok(Key {
            name,
            subscript: Some(n),
        })
    }

    // `$key = expression$`: the value of the right side waits while the subscript is worked out.
    fn assign<S: Store>(
        &mut self,
        place: usize,
        name: Span<u16>,
        subscript: &[Node],
        right: &[Node],
        store: &mut S,
    ) -> Result<(), Fault>
        ensures sets { (k : Target) (e : Expr) → Assigns self.old name subscript.now right.now k e → Sets S.Store (statement self.old.text.now (Statement.assign place k e)) self.old self.new store.old store.new result × Level self.old self.new result }
        ensures capacity { S.Store.capacity store.new ≡ S.Store.capacity store.old }
        ensures still { Still self.old self.new }
    {
        self.visit(place)?;
        self.expression(right, store)?;
        let key = self.target(place, name, subscript, store)?;
        let value = self.pop();
        assign(store, &key, &value, place)
    }

    // The start of a round: its visit; prints the delimiter, except in the first round, and assigns the element.
    pub(crate) fn round<S: Store, P: Printer>(
        &mut self,
        head: Loop<'_>,
        first: bool,
        element: Element,
        store: &mut S,
        printer: &mut P,
    ) -> Result<(), Fault>
        ensures ran { Ran S.Store P.Printer (round_start first head.entry.place (name_means head.entry.name, None) head.entry.delimiter.now (element_means element)) self.old self.new store.old store.new printer.old printer.new result }
        ensures level { slots self.new ≡ slots self.old }
        ensures still { Still self.old self.new }
    {
        self.visit(head.place)?;
        if !first {
            print(printer, head.delimiter, head.place)?;
        }
        let key = Key {
            name: head.name,
            subscript: None,
        };
        assign(store, &key, &Value::from(element), head.place)
    }

    // An instruction without a block, or the end of one; answers the nodes behind it.
    pub(crate) fn simple<'n, S: Store, P: Printer>(
        &mut self,
        node: Node,
        more: &'n [Node],
        store: &mut S,
        printer: &mut P,
    ) -> Result<&'n [Node], Fault>
        ensures advanced { has_block node ≡ false → (x : Left) → Leaves self.old (node ∷ more.now) x → Advanced S.Store P.Printer x self.old self.new store.old store.new printer.old printer.new result }
        ensures shorter { IfOk result (λ ns. length ns.now ≤ length more.now) }
        ensures still { Still self.old self.new }
    {
        match node {
            Node::Piece { span } => {
                self.plain(node.place(), constants::part(self.text, span), printer)?;
                Ok(more)
            }
            Node::Dollar { .. } => {
                self.plain(node.place(), b"$", printer)?;
                Ok(more)
            }
            Node::Show { size, .. } => {
                let size = usize::from(size);
                self.show(node.place(), front(more, size), store, printer)?;
                Ok(behind(more, size))
            }
            Node::Assign {
                name,
                subscript,
                right,
                ..
            } => {
                let subscript = usize::from(subscript);
                let right = usize::from(right);
                let sides = behind(more, subscript);
                self.assign(
                    node.place(),
                    name,
                    front(more, subscript),
                    front(sides, right),
                    store,
                )?;
                Ok(behind(sides, right))
            }
            _ => Ok(more),
        }
    }
}
