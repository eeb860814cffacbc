//! The parameters and the nodes that a rule declares, in written order.

ghost use Rattle.std.specs.Prelude.{◌≡◌, ◌++◌, ◌∷◌, [], List, OnOk};
ghost use Rattle.hs_expr.specs.Steps.{Gives};
ghost use Rattle.hs_expr.specs.Verdict.{verdict};
ghost use Rattle.hs_expr.specs.Steps.{GivesWhere};
ghost use Rattle.hs_faults.specs.Declarations as spec;
ghost use Rattle.hs_faults.specs.Named.{Knows};

use crate::fault::{RuleFault, RuleFaultKind, fault_at};
use crate::name_index::{NameIndex, NodeIndex};
use crate::names::{class_number, data_named, has_concrete, is_concrete};
use crate::names_seen::{NamesSeen, add_named};
use crate::nodes::DeclaredNode;
use hs_expr::{Failure, Name, demand, needed};
use hs_text::{Mark, Param};
use hs_types::Meta;
use std::alloc::Global;

/// The first fault of the parameters, each by itself.
#[tactic(auto, using(hs_expr::proofs::Verdicts::each_steps))]
pub fn check_params(alloc: Global, meta: &Meta, params: &[Param]) -> Result<(), Failure<RuleFault>>
    ensures { Gives result (verdict (spec.faults_of_params meta.now params.now)) }
{
    let mut known = NamesSeen::new(alloc);
    for param in params {
        check_param(meta, &mut known, param)?;
    }
    Ok(())
}

/// The parameter's first fault; then adds it to those known.
#[tactic(auto, using(hs_expr::proofs::Verdicts::each_steps))]
fn check_param<'a>(
    meta: &Meta,
    known: &mut NamesSeen<'a, Param>,
    param: &'a Param,
) -> Result<(), Failure<RuleFault>>
    ensures fault { (before : List Param) → Knows (λ other. other.name) known.old before
        → Gives result (verdict (spec.param_faults meta.now before param.now)) }
    ensures known { (before : List Param) → Knows (λ other. other.name) known.old before
        → OnOk result (Knows (λ other. other.name) known.new (before ++ param.now ∷ [])) }
{
    demand(
        add_named(known, param)?,
        fault_at(param.name.span, RuleFaultKind::Twice),
    )?;
    check_kind(meta, &param.kind)
}

/// The first fault of a parameter's kind.
fn check_kind(meta: &Meta, word: &Name) -> Result<(), Failure<RuleFault>>
    ensures { Gives result (verdict (spec.param_kind_faults meta.now word.now)) }
{
    match data_named(&word.text) {
        Some(_) => Ok(()),
        None => check_class(meta, false, word),
    }
}

/// The first fault of a class of which an object is matched or created.
fn check_class(meta: &Meta, created: bool, class: &Name) -> Result<(), Failure<RuleFault>>
    ensures { Gives result (verdict (spec.class_name_faults meta.now created class.now)) }
{
    let number = needed(
        class_number(meta, &class.text),
        fault_at(class.span, RuleFaultKind::UnknownClass),
    )?;
    demand(
        has_concrete(meta, number) && (!created || is_concrete(meta, number)),
        fault_at(class.span, RuleFaultKind::NoConcrete),
    )
}

/// The nodes by their names, or their first fault, each by itself.
#[tactic(auto, using(hs_expr::proofs::Verdicts::each_steps))]
pub fn nodes_by_name<'a>(
    alloc: Global,
    meta: &Meta,
    nodes: &'a [DeclaredNode],
) -> Result<NodeIndex<'a>, Failure<RuleFault>>
    ensures { GivesWhere (λ index. index ≡ nodes.now) result
        (verdict (spec.faults_of_nodes meta.now nodes.now)) }
{
    let mut known = NamesSeen::new(alloc);
    for node in nodes {
        check_node(meta, &mut known, node)?;
    }
    Ok(NameIndex::new(nodes, known))
}

/// The node's first fault; then adds it to those known.
#[tactic(auto, using(hs_expr::proofs::Verdicts::each_steps))]
fn check_node<'a>(
    meta: &Meta,
    known: &mut NamesSeen<'a, DeclaredNode>,
    node: &'a DeclaredNode,
) -> Result<(), Failure<RuleFault>>
    ensures fault { (before : List DeclaredNode) → Knows (λ other. other.name) known.old before
        → Gives result (verdict (spec.node_faults meta.now before node.now)) }
    ensures known { (before : List DeclaredNode) → Knows (λ other. other.name) known.old before
        → OnOk result (Knows (λ other. other.name) known.new (before ++ node.now ∷ [])) }
{
    demand(
        add_named(known, node)?,
        fault_at(node.name.span, RuleFaultKind::Twice),
    )?;
    check_class(meta, is_created(node.mark), &node.class)
}

fn is_created(mark: Mark) -> bool
    ensures { result ≡ spec.is_created mark }
{
    mark == Mark::Create
}
