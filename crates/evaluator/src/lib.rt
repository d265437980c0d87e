// Prints templates that are read: runs their nodes over a store and a printer.
#![tactic(auto)]

ghost use Rattle.std.specs.Prelude.{◌≡◌, ℕ, length};
ghost use Rattle.effects.specs.Laws.{PrintLaws};
ghost use Rattle.grammar.specs.Laws.{Faultless};
ghost use Rattle.meaning.specs.Laws.{BoundUnseen};
ghost use Rattle.meaning.specs.Slips.{Examples};
ghost use Rattle.trees.specs.Tree.{Block, Items, written};
ghost use Rattle.evaluator.specs.Held.{Held};
ghost use Rattle.evaluator.specs.Prints.{Printed, AnyMemory};

use printer::Printer;
use refusals::Refusal;
use refusals::fault::Fault;
use run::Run;
use store::Store;
use trees::Node;
use values::value::Value;

mod blocks;
mod constants;
mod expressions;
mod instructions;
mod nodes;
mod parts;
mod run;

// A template that was read: its text, the nodes of the tree that it spells, and the stack that it needs.
#[derive(Clone, Copy)]
pub struct Template<'a> {
    pub text: &'a [u8],
    pub nodes: &'a [Node],
    pub stack: usize,
    pub ghost held: { ∥ Held text.now nodes.now stack ∥₁ },
}

// Prints a template in at most `limit` steps, with lent memory for the values that wait. Answers the steps, and how it ended: where it is
// refused, what was done before stands. With less memory than the template needs it is refused with 21 at place 0, and nothing is done.
// Beside the answer it promises the laws of every print: steps are the visits made; one that is stopped at n steps has done just what its
// first n visits do; paper only grows; one that no limit refuses is the same under all limits that reach its end; a narrower print's paper
// begins a wider one's. And that no print sees a bound on the tests of a WHILE, and the worked slips.
#[tactic(auto, using(crate::proofs::Promises::laws, crate::proofs::Promises::unseen, crate::proofs::Promises::worked))]
pub fn print<S: Store, P: Printer>(
    template: &Template<'_>,
    limit: u32,
    memory: &mut [Option<Value>],
    store: &mut S,
    printer: &mut P,
) -> (u32, Result<(), Fault>)
    ensures printed { (b : Block) → Faultless template.now.text.now (written b Items.none) → Printed S.Store P.Printer template.now.text.now b limit (length memory.old) store.old store.new printer.old printer.new result }
    ensures memory { AnyMemory memory.old memory.new }
    ensures laws { PrintLaws }
    ensures bound_unseen { BoundUnseen }
    ensures examples { Examples }
{
    if memory.len() < template.stack {
        let fault = Fault {
            refusal: Refusal::StackTooSmall,
            place: 0,
        };
        return (0, Err(fault));
    }
    let mut run = Run::new(template.text, memory, limit);
    let answer = run.block(template.nodes, store, printer);
    (run.steps, answer)
}
