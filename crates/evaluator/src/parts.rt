// Parts of the nodes.
ghost use Rattle.std.specs.Prelude.{◌≡◌, take, drop};

use trees::Node;

// The first `n` nodes, or all if there are fewer.
pub(crate) fn front(nodes: &[Node], n: usize) -> &[Node]
    ensures { result.now ≡ take n nodes.now }
{
    nodes.get(..n).unwrap_or(nodes)
}

// What stands behind the first `n` nodes.
pub(crate) fn behind(nodes: &[Node], n: usize) -> &[Node]
    ensures { result.now ≡ drop n nodes.now }
{
    nodes.get(n..).unwrap_or_default()
}
