// What the nodes of an expression do.
ghost use Rattle.std.specs.Prelude.{◌≡◌, ◌≤◌, cond, drop, Some, Ok};
ghost use Rattle.std.specs.Option.{option_map};
ghost use Rattle.keys.specs.KeyMeans.{name_means};
ghost use Rattle.meaning.specs.Constants.{part_of};
ghost use Rattle.meaning.specs.Lawful.{Lawful, Named};
ghost use Rattle.meaning.specs.Meaning.{holds, signed_value, binary_value};
ghost use Rattle.operations.specs.Functions.{and_then, call};
ghost use Rattle.operations.specs.Operators.{operand, decides};
ghost use Rattle.stacks.specs.Stacked.{rest};
ghost use Rattle.store.specs.Names.{read_at};
ghost use Rattle.values.specs.Means.{value_means};
ghost use Rattle.evaluator.specs.Turns.{top_slot, top_value, joined, arguments_of, pushed, gives, gives_if, worked, turned};

use super::constants;
use super::run::Run;
use functions::Function;
use keys::key::Key;
use operations::calls::call;
use operations::lists::sequence;
use operations::operators::{binary, number, operand, signed};
use refusals::Refusal;
use refusals::fault::Fault;
use store::{Store, read};
use tokens::operator::{Op, Sign};
use trees::{Node, Span};
use values::element::Element;
use values::value::Value;

// The most arguments of a call.
const ARGUMENTS: usize = 4;

impl Run<'_> {
    ghost use Rattle.evaluator.specs.Runs.{slots, state, result_as, Still, OnlyValues, Does, Works};

    // Visits a node of an expression, if it counts, and lets it act. Answers how many nodes behind it are skipped.
    pub(crate) fn turn<S: Store>(&mut self, node: Node, store: &S) -> Result<usize, Fault>
        ensures does { Lawful self.old.text.now node → Does (S.Store.names store.now) (turned self.old.values.capacity self.old.text.now node (slots self.old)) self.old self.new (result_as (λ k. (slots self.new, k)) result) }
        ensures still { Still self.old self.new }
    {
        if node.weight() > 0 {
            self.visit(node.place())?;
        }
        self.work(node, store).map_err(|refusal| Fault {
            refusal,
            place: node.place(),
        })
    }

    // What a node does to the values that wait.
    fn work<S: Store>(&mut self, node: Node, store: &S) -> Result<usize, Refusal>
        ensures works { Lawful self.old.text.now node → Works (worked self.old.values.capacity self.old.text.now (S.Store.names store.now) node (slots self.old)) result (slots self.new) }
        ensures rest { OnlyValues self.old self.new }
    {
        match node {
            Node::Number { span, value } => {
                let number = constants::number(self.text, span, value);
                self.give(number)
            }
            Node::Text { span } => {
                let text = constants::quoted(self.text, span);
                self.give(Value::from(Element::Text(text)))
            }
            Node::Name { span } => self.ask(span, None, store),
            Node::Index { span } => {
                let n = operand(&self.pop())?;
                self.ask(span, Some(n), store)
            }
            Node::Call {
                function,
                arguments,
                ..
            } => self.call(function, usize::from(arguments)),
            Node::Empty { .. } => self.give(Value::new()),
            Node::List { .. } => {
                // a value that is there has at most 16 elements
                let value = self.take().ok_or(Refusal::TooManyElements)?;
                self.give(value)
            }
            Node::Sequence {
                first,
                second,
                last,
                ..
            } => self.give(sequence(first, second, last)?),
            Node::Joined => self.join(),
            Node::Signed { sign, .. } => self.sign(sign),
            Node::Binary { op, .. } => self.operate(op),
            Node::Short { op, skip, .. } => self.decide(op, usize::from(skip)),
            Node::Judged { .. } => {
                let n = operand(&self.pop())?;
                self.give(number(i64::from(n != 0)))
            }
            _ => Ok(0),
        }
    }

    // Puts a value on top; no node is skipped.
    fn give(&mut self, value: Value) -> Result<usize, Refusal>
        ensures gives { Works (gives self.old.values.capacity (Some (value_means value)) (slots self.old)) result (slots self.new) }
        ensures rest { OnlyValues self.old self.new }
    {
        self.push(Some(value));
        Ok(0)
    }

    // The value of a key.
    fn ask<S: Store>(
        &mut self,
        span: Span<u16>,
        subscript: Option<i64>,
        store: &S,
    ) -> Result<usize, Refusal>
        ensures gives { Named self.old.text.now span → Works (gives self.old.values.capacity (Some (read_at (part_of self.old.text.now span, subscript) (S.Store.names store.now))) (slots self.old)) result (slots self.new) }
        ensures rest { OnlyValues self.old self.new }
    {
        let key = Key {
            name: constants::name(self.text, span),
            subscript,
        };
        self.give(read(store, &key))
    }

    // A call with `count` values on top.
    fn call(&mut self, function: Function, count: usize) -> Result<usize, Refusal>
        ensures gives { count ≤ 4 → Works (gives_if self.old.values.capacity (call function (arguments_of count (slots self.old))) (drop count (slots self.old))) result (slots self.new) }
        ensures rest { OnlyValues self.old self.new }
    {
        // no more than wait
        let count = count.min(ARGUMENTS).min(self.values.len());
        let mut arguments = [Value::new(); ARGUMENTS];
        for i in 0..count {
            arguments[count - 1 - i] = self.pop();
        }
        self.give(call(function, &arguments[..count])?)
    }

    // The value on top is the next item of the list below it.
    fn join(&mut self) -> Result<usize, Refusal>
        ensures gives { Works (gives self.old.values.capacity (joined (top_slot (rest (slots self.old))) (top_value (slots self.old))) (rest (rest (slots self.old)))) result (slots self.new) }
        ensures rest { OnlyValues self.old self.new }
    {
        let item = self.pop();
        let list = self.take().and_then(|mut list| {
            list.append(&item).ok()?;
            Some(list)
        });
        self.push(list);
        Ok(0)
    }

    fn sign(&mut self, sign: Sign) -> Result<usize, Refusal>
        ensures gives { Works (gives_if self.old.values.capacity (signed_value sign (top_value (slots self.old))) (rest (slots self.old))) result (slots self.new) }
        ensures rest { OnlyValues self.old self.new }
    {
        let n = operand(&self.pop())?;
        self.give(number(signed(sign, n)?))
    }

    // An operator on the two values on top, of which the left one is judged first.
    fn operate(&mut self, op: Op) -> Result<usize, Refusal>
        ensures gives { Works (gives_if self.old.values.capacity (binary_value op (top_value (rest (slots self.old))) (top_value (slots self.old))) (rest (rest (slots self.old)))) result (slots self.new) }
        ensures rest { OnlyValues self.old self.new }
    {
        let right = self.pop();
        let left = self.pop();
        let left = operand(&left)?;
        let right = operand(&right)?;
        self.give(number(binary(op, left, right)?))
    }

    // `&&` or `||` after its left side: where that decides, the right side is skipped.
    fn decide(&mut self, op: Op, skip: usize) -> Result<usize, Refusal>
        ensures decides { Works (and_then (operand (top_value (slots self.old))) (λ a. cond (decides op a) (Ok (pushed self.old.values.capacity (Some (holds a)) (rest (slots self.old)), skip)) (Ok (rest (slots self.old), 0)))) result (slots self.new) }
        ensures rest { OnlyValues self.old self.new }
    {
        let left = operand(&self.pop())?;
        let decided = match op {
            Op::Or => left != 0,
            Op::And => left == 0,
            _ => false,
        };
        if !decided {
            return Ok(0);
        }
        self.push(Some(number(i64::from(left != 0))));
        Ok(skip)
    }
}
