// A bench for templates: reads one and prints it on any store and printer, as a till would.
#![tactic(auto)]

ghost use Rattle.std.specs.Prelude.{◌≡◌, Some};
ghost use Rattle.bench.specs.Reports.{report_of};
ghost use Rattle.bench.specs.Tries.{Tried};
ghost use Rattle.refusals.specs.Faults.{fault};

use evaluator::{Template, print};
use printer::Printer;
use reader::read;
use refusals::Refusal;
use refusals::fault::Fault;
use std::fmt;
use store::Store;

// How many nodes a template may need, and how much stack.
const NODES: usize = 1024;

const STACK: usize = 32;

// What a template needed: steps, nodes, stack, and the names and the paper that stand at the end.
#[derive(Clone, Copy, PartialEq, Eq, Debug)]
pub struct Counts {
    pub steps: u32,
    pub nodes: usize,
    pub stack: usize,
    pub names: usize,
    pub paper: usize,
}

// What a program reports.
impl fmt::Display for Counts {
    ghost output = { λ c. Some (report_of c) };

    fn fmt<W: fmt::Write>(&self, f: &mut fmt::Formatter<W>) -> fmt::Result {
        write!(
            f,
            "done steps={} nodes={} stack={} names={} paper={}",
            self.steps, self.nodes, self.stack, self.names, self.paper
        )
    }
}

// A template that a bench is too small for is refused at its start.
fn at_start(refusal: Refusal) -> Fault
    ensures { result ≡ fault refusal 0 }
{
    Fault { refusal, place: 0 }
}

// Reads a template and prints it in at most `limit` steps: the counts, or why and where it is refused.
pub fn try_on<S: Store, P: Printer>(
    text: &[u8],
    limit: u32,
    store: &mut S,
    printer: &mut P,
) -> Result<Counts, Fault>
    ensures { Tried S.Store P.Printer text.now limit store.old store.new printer.old printer.new result }
{
    let reading = read(text)?;
    let nodes = reading.nodes();
    let stack = reading.stack();
    if nodes > NODES {
        return Err(at_start(Refusal::TooManyNodes));
    }
    if stack > STACK {
        return Err(at_start(Refusal::StackTooSmall));
    }
    let template = Template {
        text,
        nodes: reading.slots(),
        stack,
    };
    let mut memory = [None; STACK];
    let (steps, answer) = print(&template, limit, &mut memory, store, printer);
    printer.settle();
    answer?;
    Ok(Counts {
        steps,
        nodes,
        stack,
        names: store.len(),
        paper: printer.len(),
    })
}
