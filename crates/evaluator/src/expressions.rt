// Expressions and conditions.
ghost use Rattle.std.specs.Prelude.{◌^◌, ◌<◌, IsOk};
ghost use Rattle.meaning.specs.Meaning.{expression, test};
ghost use Rattle.trees.specs.Tree.{Expr};

use super::parts::behind;
use super::run::Run;
use operations::operators::operand;
use refusals::fault::Fault;
use store::Store;
use trees::Node;

impl Run<'_> {
    ghost use Rattle.evaluator.specs.Runs.{Still, Does, Valued, Fits, Level};

    // Works out an expression, whose value is left on top: its nodes one after another.
    pub(crate) fn expression<S: Store>(&mut self, nodes: &[Node], store: &S) -> Result<(), Fault>
        ensures valued { (e : Expr) → Fits self.old nodes.now e → Valued (S.Store.names store.now) (expression self.old.text.now e) self.old self.new result }
        ensures still { Still self.old self.new }
    {
        let mut left = nodes;
        while let Some((node, more)) = left.split_first() {
            let skipped = self.turn(*node, store)?;
            left = behind(more, skipped);
        }
        Ok(())
    }

    // Whether the condition of the instruction at a place is not 0.
    pub(crate) fn test<S: Store>(
        &mut self,
        place: usize,
        condition: &[Node],
        store: &S,
    ) -> Result<bool, Fault>
        ensures tests { (e : Expr) → Fits self.old condition.now e → Does (S.Store.names store.now) (test self.old.text.now place e) self.old self.new result × Level self.old self.new result }
        ensures still { Still self.old self.new }
        ensures counted { IsOk result → self.old.steps < self.new.steps }
        ensures narrow { self.old.limit < 2 ^ 32 }
    {
        self.visit(place)?;
        self.expression(condition, store)?;
        let n = operand(&self.pop()).map_err(|refusal| Fault { refusal, place })?;
        Ok(n != 0)
    }
}
