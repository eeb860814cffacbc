//! What names denote in the expressions of a rule, and what these are checked to be.

ghost use Rattle.std.specs.Prelude.{◌≡◌};
ghost use Rattle.hs_expr.specs.Steps.{Gives};
ghost use Rattle.hs_faults.specs.StatementFaults as spec;

use crate::edges::{is_visible, node_class};
use crate::fault::{RuleFault, RuleFaultKind, fault_at};
use crate::name_index::{DataIndex, NodeIndex};
use crate::names::class_attribute;
use crate::nodes::{BlockId, DeclaredNode};
use hs_eval::{Checked, ExprFault, Scope, Wrong, check};
use hs_expr::{Failure, Kind, NameExpr, Text, fault_as};
use hs_text::Mark;
use hs_types::{FeatureNo, Meta};
use std::alloc::Global;

/// What names denote in this block.
#[derive(Clone, Copy)]
pub struct RuleScope<'s, 'p, 'n> {
    pub meta: &'s Meta,
    pub params: &'s DataIndex<'p>,
    pub nodes: &'s NodeIndex<'n>,
    pub block: BlockId,
}

impl<'s, 'p, 'n> Scope for RuleScope<'s, 'p, 'n> {
    ghost use Rattle.hs_faults.specs.StatementFaults as spec;

    ghost names = { λ scope.
        spec.rule_scope scope.meta.now scope.params.now scope.nodes.now scope.block };

    fn param(&self, name: &str) -> Option<(u16, Kind)> {
        let param = self.params.find(name)?;
        Some((param.number, param.kind))
    }

    fn node(&self, name: &str) -> Option<(u16, bool)> {
        let node = self.nodes.find(name)?;
        node_read(self.block, node)
    }

    fn attribute(&self, node: &str, name: &str) -> Option<(u16, Kind)> {
        let owner = self.nodes.find(node)?;
        attribute_of(self.meta, owner, name)
    }
}

/// The number and the kind of the node's attribute of this name.
pub fn attribute_of(meta: &Meta, node: &DeclaredNode, name: &str) -> Option<(FeatureNo, Kind)>
    ensures { result ≡ spec.attribute_of meta.now node.now name.now }
{
    let class = node_class(meta, node)?;
    class_attribute(meta, class, name)
}

/// The node's number, and whether it can be read from this part of the rule.
fn node_read(block: BlockId, node: &DeclaredNode) -> Option<(u16, bool)>
    ensures { result ≡ spec.node_read block node.now }
{
    let left = can_read(block, node)?;
    Some((node.number, left))
}

/// Whether the node can be read from this part of the rule, where it is known there.
fn can_read(block: BlockId, node: &DeclaredNode) -> Option<bool>
    ensures { result ≡ spec.can_read block node.now }
{
    if is_visible(block, node) {
        Some(node.mark != Mark::Create)
    } else {
        hidden_read(node.block)
    }
}

fn hidden_read(block: BlockId) -> Option<bool>
    ensures { result ≡ spec.hidden_read block }
{
    match block {
        BlockId::Pattern(_) => Some(false),
        BlockId::Kernel | BlockId::Multi(_) => None,
    }
}

/// What is wrong in an expression, as a fault of a rule.
fn kind_of_wrong(wrong: Wrong) -> RuleFaultKind
    ensures { result ≡ spec.kind_of_wrong wrong }
{
    match wrong {
        Wrong::UnknownName => RuleFaultKind::UnknownName,
        Wrong::UnknownNode => RuleFaultKind::UnknownNode,
        Wrong::NotRead => RuleFaultKind::NotRead,
        Wrong::UnknownAttribute => RuleFaultKind::UnknownAttribute,
        Wrong::BadKind => RuleFaultKind::BadKind,
    }
}

/// The expression as it is checked, or its first fault.
pub fn check_expr(
    alloc: Global,
    names: &RuleScope<'_, '_, '_>,
    expr: &NameExpr,
) -> Result<Checked, Failure<RuleFault>>
    ensures { Gives result (spec.expr_checked (spec.rule_scope names.now.meta.now
        names.now.params.now names.now.nodes.now names.now.block) expr.now) }
{
    fault_as(
        check(alloc, expr, names),
        &|fault: ExprFault| -> RuleFault
            ensures { result ≡ spec.rule_fault fault }
        { fault_at(fault.at, kind_of_wrong(fault.kind)) },
    )
}
