//! The nodes of a rule's parameters.

ghost use Rattle.std.specs.Prelude.{◌≡◌, false, true};
ghost use Rattle.std.specs.Option.{option_map_or};
ghost use Rattle.hs_expr.specs.Verdict.{verdict};
ghost use Rattle.hs_faults.specs.Names.{node_named};
ghost use Rattle.hs_faults.specs.ParamNodes as spec;

use crate::fault::{RuleFault, RuleFaultKind, fault_at};
use crate::name_index::NodeIndex;
use crate::names::data_named;
use crate::nodes::{BlockId, DeclaredNode};
use hs_expr::{check_each, fault_if};
use hs_text::{Direction, Mark, Param};

/// The first fault of the parameters with their nodes.
pub fn check_param_nodes(nodes: &NodeIndex<'_>, params: &[Param]) -> Result<(), RuleFault>
    ensures { result ≡ verdict (spec.param_node_faults nodes.now params.now) }
{
    check_each(params, &|_: usize, param: &Param| check_param(nodes, param))
}

fn check_param(nodes: &NodeIndex<'_>, param: &Param) -> Result<(), RuleFault>
    ensures { result ≡ verdict (spec.fit_faults nodes.now param.now) }
{
    match data_named(&param.kind.text) {
        Some(_) => data_fits(param),
        None => object_fits(nodes, param),
    }
}

/// A parameter for data is given.
fn data_fits(param: &Param) -> Result<(), RuleFault>
    ensures { result ≡ verdict (spec.data_faults param.now) }
{
    fault_if(
        param.direction == Direction::Out,
        fault_at(param.name.span, RuleFaultKind::ArgMismatch),
    )
}

/// A parameter for an object has the name of a node of its class.
#[tactic(auto, using(hs_expr::proofs::Verdicts::each_steps))]
fn object_fits(nodes: &NodeIndex<'_>, param: &Param) -> Result<(), RuleFault>
    ensures { result ≡ verdict (spec.object_faults nodes.now param.now) }
{
    fault_if(
        !has_node(nodes, param),
        fault_at(param.name.span, RuleFaultKind::UnknownNode),
    )?;
    fault_if(
        !has_class(nodes, param),
        fault_at(param.name.span, RuleFaultKind::ArgMismatch),
    )
}

/// Whether the kernel has a node of the parameter's name, on its side.
fn has_node(nodes: &NodeIndex<'_>, param: &Param) -> bool
    ensures { result ≡ option_map_or (spec.is_node_of param.now)
        (node_named nodes.now param.now.name.text) false }
{
    match nodes.find(param.name.text.as_str()) {
        Some(node) => node.block == BlockId::Kernel && is_on_side(param.direction, node.mark),
        None => false,
    }
}

/// Whether the node of the parameter's name, where there is one, has its class.
fn has_class(nodes: &NodeIndex<'_>, param: &Param) -> bool
    ensures { result ≡ option_map_or (spec.is_of_kind param.now)
        (node_named nodes.now param.now.name.text) true }
{
    match nodes.find(param.name.text.as_str()) {
        Some(node) => node.class.text == param.kind.text,
        None => true,
    }
}

/// Whether a node of this mark is there when the parameter is given, or given back.
fn is_on_side(direction: Direction, mark: Mark) -> bool
    ensures { result ≡ spec.is_on_side direction mark }
{
    match direction {
        Direction::In => mark != Mark::Create,
        Direction::Out => mark != Mark::Delete,
    }
}
