//! The test of rules that only keep and make.

ghost use Rattle.std.specs.Prelude.{◌≡◌, ◌↔◌, IsTrue, false};
ghost use Rattle.std.specs.List.{All};
ghost use Rattle.hs_types.specs.Additions as spec;
ghost use Rattle.hs_types.specs.Pattern.{is_drop};

use crate::{Rule, Shape};

impl Rule {
    /// Whether the rule keeps and makes, without condition.
    pub fn only_adds(&self) -> bool
        ensures test { result ≡ spec.only_adds self.now }
        ensures fact { IsTrue result ↔ spec.OnlyAdds self.now }
    {
        keeps_all(&self.shape) && is_unconditional(self)
    }
}

fn keeps_all(shape: &Shape) -> bool
    ensures { IsTrue result
        ↔ (All (λ node. is_drop node.mark ≡ false) shape.now.nodes
        × All (λ edge. is_drop edge.mark ≡ false) shape.now.edges) }
{
    let nodes = shape.nodes.as_slice();
    let edges = shape.edges.as_slice();
    nodes.iter().all(|node| !node.mark.is_drop()) && edges.iter().all(|edge| !edge.mark.is_drop())
}

/// Whether there are no blocks and no conditions, and nothing is set.
fn is_unconditional(rule: &Rule) -> bool
    ensures { IsTrue result ↔ spec.IsUnconditional rule.now }
{
    rule.forbids.is_empty()
        && rule.needs.is_empty()
        && rule.multis.is_empty()
        && rule.wheres.is_empty()
        && rule.sets.is_empty()
}
