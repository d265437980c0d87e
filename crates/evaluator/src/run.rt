// A print that is under way.
ghost use Rattle.std.specs.Prelude.{◌≡◌, ◌≤◌, length};
ghost use Rattle.std.specs.Option.{option_map};
ghost use Rattle.stacks.specs.Stacked.{rest};
ghost use Rattle.values.specs.Means.{value_means};
ghost use Rattle.evaluator.specs.Turns.{top_slot, top_value, pushed};

use refusals::Refusal;
use refusals::fault::Fault;
use stacks::Stack;
use values::value::Value;

// The template's text, the values that wait, the steps so far and the most that there may be. A slot of the stack is None for a list that
// has too many elements: that is an error of the list, which is visited behind its items.
#[derive(Drop)]
pub struct Run<'a> {
    pub(crate) text: &'a [u8],
    pub(crate) values: Stack<'a, Option<Value>>,
    pub(crate) steps: u32,
    pub(crate) limit: u32,
    pub ghost counted: { steps ≤ limit },
}

impl<'a> Run<'a> {
    ghost use Rattle.evaluator.specs.Runs.{Begun};

    // At the beginning of a print.
    pub(crate) fn new(text: &'a [u8], memory: &'a mut [Option<Value>], limit: u32) -> Run<'a>
        ensures { Begun text.now limit (length memory.old) result }
    {
        let values = Stack::new(memory);
        Run {
            text,
            values,
            steps: 0,
            limit,
        }
    }
}

impl Run<'_> {
    ghost use Rattle.evaluator.specs.Runs.{slots, OnlyValues, Visited};

    // The visit of a node: one step, if the limit allows it.
    pub(crate) fn visit(&mut self, place: usize) -> Result<(), Fault>
        ensures { Visited place self.old self.new result }
    {
        if self.steps >= self.limit {
            return Err(Fault {
                refusal: Refusal::OutOfSteps,
                place,
            });
        }
        self.steps += 1;
        Ok(())
    }

    // Puts a value on top. There is room, since the stack that a template needs is judged before it is printed.
    pub(crate) fn push(&mut self, value: Option<Value>)
        ensures values { slots self.new ≡ pushed self.old.values.capacity (option_map value_means value) (slots self.old) }
        ensures rest { OnlyValues self.old self.new }
    {
        let _ = self.values.push(value);
    }

    // Takes what is on top.
    pub(crate) fn take(&mut self) -> Option<Value>
        ensures answer { option_map value_means result ≡ top_slot (slots self.old) }
        ensures values { slots self.new ≡ rest (slots self.old) }
        ensures rest { OnlyValues self.old self.new }
    {
        self.values.pop().unwrap_or_default()
    }

    // Takes the value on top.
    pub(crate) fn pop(&mut self) -> Value
        ensures answer { value_means result ≡ top_value (slots self.old) }
        ensures values { slots self.new ≡ rest (slots self.old) }
        ensures rest { OnlyValues self.old self.new }
    {
        self.take().unwrap_or_default()
    }
}
