//! One rule, check by check, and what it declares and states.

ghost use Rattle.std.specs.Prelude.{◌≡◌};
ghost use Rattle.hs_expr.specs.Steps.{GivesWhere};
ghost use Rattle.hs_expr.specs.Verdict.{verdict};
ghost use Rattle.hs_faults.specs.Contents.{rule_contents};
ghost use Rattle.hs_faults.specs.Faults as spec;
ghost use Rattle.hs_faults.specs.Nodes.{declared_nodes};

use crate::declarations::{check_params, nodes_by_name};
use crate::fault::RuleFault;
use crate::nodes::{DeclaredNode, declared_nodes};
use crate::param_nodes::check_param_nodes;
use crate::sizes::check_sizes;
use crate::statement_faults::check_statements;
use crate::statements::{CheckedStatement, statements};
use hs_expr::{Failure, List, as_failure};
use hs_text::Rule;
use hs_types::Meta;
use std::alloc::Global;
use std::marker::Model;

/// A rule without faults, with what it declares and states: the nodes of the kernel and of all
/// blocks, and the statements about them, each with its expression.
#[derive(Drop)]
pub struct RuleContents<'a> {
    pub rule: &'a Rule,
    pub nodes: List<DeclaredNode>,
    pub statements: List<CheckedStatement<'a>>,
}

impl<'a> Model for RuleContents<'a> {
    ghost use Rattle.std.specs.Coded.{codes};
    ghost use Rattle.hs_expr.specs.contracts.expr.Expr as expr;
    ghost use Rattle.hs_faults.specs.Contents as spec;

    ghost Value = { spec.RuleContents };

    ghost coded = { Prim.hlevel (codes, expr.the_row.coded) };

    ghost view = { λ contents. record {
      rule = contents.rule.now;
      nodes = contents.nodes;
      statements = contents.statements;
    } };
}

/// What the rule declares and states, or its first fault.
pub fn check_rule<'a>(
    alloc: Global,
    meta: &Meta,
    rule: &'a Rule,
) -> Result<RuleContents<'a>, Failure<RuleFault>>
    ensures { GivesWhere (λ contents. contents ≡ rule_contents meta.now rule.now) result
        (verdict (spec.faults_in_rule meta.now rule.now)) }
{
    let nodes = declared_nodes(alloc, rule.items.as_slice())?;
    let statements = check_with(alloc, meta, rule, nodes.as_slice())?;
    Ok(RuleContents {
        rule,
        nodes,
        statements,
    })
}

/// The statements with their expressions, or the first fault of the rule, which declares these
/// nodes.
#[tactic(auto, using(hs_expr::proofs::Verdicts::each_steps, crate::proofs::Failures::fails))]
fn check_with<'a>(
    alloc: Global,
    meta: &Meta,
    rule: &'a Rule,
    declared: &[DeclaredNode],
) -> Result<List<CheckedStatement<'a>>, Failure<RuleFault>>
    requires { declared.now ≡ declared_nodes rule.now.items }
    ensures { GivesWhere
        (λ checked. checked ≡ (rule_contents meta.now rule.now).statements) result
        (verdict (spec.faults_in_rule meta.now rule.now)) }
{
    let params = rule.params.as_slice();
    check_params(alloc, meta, params)?;
    let nodes = nodes_by_name(alloc, meta, declared)?;
    as_failure(check_param_nodes(&nodes, params))?;
    let statements = statements(alloc, rule.items.as_slice())?;
    let all = statements.as_slice();
    let checked = check_statements(alloc, meta, params, &nodes, all)?;
    check_sizes(alloc, rule, declared, all, checked.as_slice())?;
    Ok(checked)
}
